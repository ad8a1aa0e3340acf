//! An operation is made on the parts of the cells that it needs.
ghost use Rattle.std.specs.Prelude.{◌≡◌, ◌<◌, ◌≤◌, ◌+◌, IsTrue, None, if◌then◌else◌, length, take, drop, is_some, vec_capacity, IfOk, OnOk, OnErr};
ghost use Rattle.k42_limits.specs.declared.TheConstants.{PROCESSORS};
ghost use Rattle.k42_mediator.specs.Parts.{parts_from, filled};
ghost use Rattle.k42_board.specs.Calling.{due_in};
ghost use Rattle.k42_runtime.specs.Stepping.{row_behind, AreRow, MayStepRow};
ghost use Rattle.k42_shapes.specs.Shapes.{IsKnownTag, cells_of, shape_at};

use k42_kinds::Layout;
use k42_memory::Memory;
use k42_rule::Cell;
use std::alloc::Global;

/// The part of a cell, or the empty one that is due there, and whether it is the cell's own.
struct Lifted<P> {
    part: P,
    own: bool,
}

/// Takes the part out of a cell. Where there is none, an empty one is made.
fn lift_part<L: Layout>(
    alloc: Global,
    layout: &L,
    procs: u32,
    place: u32,
    cell: &mut Cell<L>,
) -> Result<Lifted<L::Part>, Memory>
    requires known { (IsKnownTag (L.shapes layout.now) (L.tag_of layout.now)) × (place < procs) × (procs ≤ PROCESSORS) }
    ensures part { IfOk result (λ lifted. lifted.part ≡ due_in (L.ways layout.now) procs place cell.old) }
    ensures own { IfOk result (λ lifted. lifted.own ≡ is_some cell.old.part) }
    ensures lifted { OnOk result (cell.new ≡ record cell.old { part = None }) }
    ensures memory { OnErr result (cell.new ≡ cell.old) }
{
    match cell.take_part() {
        Some(part) => Ok(Lifted { part, own: true }),
        None => Ok(Lifted {
            part: layout.empty_part(alloc, place, procs)?,
            own: false,
        }),
    }
}

/// Puts a part into a cell again. Where the operation was not made, only its own.
fn settle<L: Layout>(
    cell: &mut Cell<L>,
    part: Option<L::Part>,
    own: bool,
    reply: &Result<L::Reply, Memory>,
)
    requires { cell.old.part ≡ None }
    ensures made { OnOk reply.now (cell.new ≡ record cell.old { part = part }) }
    ensures memory { OnErr reply.now (cell.new ≡ record cell.old { part = if own then part else None }) }
{
    if let Some(part) = part {
        if own || reply.is_ok() {
            cell.set_part(part);
        }
    }
}

/// Makes the operation on the parts of a row, those taken before and those of the cells. Each cell has its part again
/// afterwards; without memory it is as it was.
fn step_behind<L: Layout>(
    alloc: Global,
    layout: &L,
    procs: u32,
    op: &L::Op,
    cells: &mut [Cell<L>],
    parts: &mut Vec<L::Part>,
) -> Result<L::Reply, Memory>
    requires known { (IsKnownTag (L.shapes layout.now) (L.tag_of layout.now)) × (procs ≤ PROCESSORS) }
    requires takes { IsTrue ((L.object layout.now).takes op.now) }
    requires few { length parts.old.items + length cells.old ≤ procs }
    requires room { length parts.old.items + length cells.old ≤ vec_capacity parts.old }
    requires row { MayStepRow (L.ways layout.now) procs (L.whole layout.now)
        (row_behind (L.ways layout.now) procs parts.old.items cells.old) op.now }
    ensures replied { IfOk result (λ reply. reply ≡ (L.ways layout.now).row_reply
        (row_behind (L.ways layout.now) procs parts.old.items cells.old) op.now) }
    ensures parts { OnOk result (parts.new.items ≡ take (length parts.old.items) ((L.ways layout.now).row_after
        (row_behind (L.ways layout.now) procs parts.old.items cells.old) op.now)) }
    ensures cells { OnOk result (cells.new ≡ filled (drop (length parts.old.items) ((L.ways layout.now).row_after
        (row_behind (L.ways layout.now) procs parts.old.items cells.old) op.now)) cells.old) }
    ensures parts_kept { OnErr result (parts.new.items ≡ parts.old.items) }
    ensures cells_kept { OnErr result (cells.new ≡ cells.old) }
{
    let place = parts.len() as u32;
    let Some((cell, others)) = cells.split_first_mut() else {
        return layout.step_all(alloc, parts, op);
    };
    let Lifted { part, own } = lift_part(alloc, layout, procs, place, cell)?;
    parts.push_reserved(part);
    let reply = step_behind(alloc, layout, procs, op, others, parts);
    settle::<L>(cell, parts.pop(), own, &reply);
    reply
}

/// Makes the operation on the parts of a whole row, which the first of its cells have. Without memory they are as they were.
pub(crate) fn step_row<L: Layout>(
    alloc: Global,
    layout: &L,
    procs: u32,
    op: &L::Op,
    cells: &mut [Cell<L>],
) -> Result<L::Reply, Memory>
    requires known { (IsKnownTag (L.shapes layout.now) (L.tag_of layout.now)) × (procs ≤ PROCESSORS) }
    requires takes { IsTrue ((L.object layout.now).takes op.now) }
    requires cells { AreRow procs (cells_of (shape_at (L.shapes layout.now) (L.tag_of layout.now)) procs) cells.old }
    requires row { MayStepRow (L.ways layout.now) procs (L.whole layout.now)
        (parts_from (L.ways layout.now) procs 0 (take (cells_of (shape_at (L.shapes layout.now) (L.tag_of layout.now)) procs) cells.old)) op.now }
    ensures replied { IfOk result (λ reply. reply ≡ (L.ways layout.now).row_reply
        (parts_from (L.ways layout.now) procs 0 (take (cells_of (shape_at (L.shapes layout.now) (L.tag_of layout.now)) procs) cells.old)) op.now) }
    ensures moved { OnOk result (cells.new ≡ filled ((L.ways layout.now).row_after
        (parts_from (L.ways layout.now) procs 0 (take (cells_of (shape_at (L.shapes layout.now) (L.tag_of layout.now)) procs) cells.old)) op.now) cells.old) }
    ensures memory { OnErr result (cells.new ≡ cells.old) }
{
    let many = layout.shape().cells(procs) as usize;
    let mut parts = Vec::with_capacity(alloc, many)?;
    let (own, _) = cells.split_at_mut(many);
    step_behind(alloc, layout, procs, op, own, &mut parts)
}
