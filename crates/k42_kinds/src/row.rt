//! A row of parts used as if it were an object of one thread.
ghost use Rattle.std.specs.Prelude.{◌≡◌, ◌<◌, ◌≤◌, IsTrue, IfOk, OnErr};
ghost use Rattle.k42_limits.specs.declared.TheConstants.{PROCESSORS};
ghost use Rattle.k42_kinds.specs.Rows as rows;
ghost use Rattle.k42_shapes.specs.Shapes.{IsKnownTag, shape_at};
ghost use Rattle.k42_kinds.specs.Steps.{Steps};

use crate::entry::Reach;
use crate::layout::Layout;
use k42_memory::Memory;
use std::alloc::Global;

/// The row with which an object begins.
#[tactic(auto, using(crate::proofs::RowSteps::made_from_push))]
pub fn empty_row<L: Layout>(layout: &L, alloc: Global, procs: u32) -> Result<Vec<L::Part>, Memory>
    requires known { IsKnownTag (L.shapes layout.now) (L.tag_of layout.now) × (0 < procs) × (procs ≤ PROCESSORS) }
    ensures row { IfOk result (λ parts. L.whole layout.now procs parts.items) }
    ensures empty { IfOk result (λ parts.
        parts.items ≡ rows.empty_row (L.ways layout.now) (shape_at (L.shapes layout.now) (L.tag_of layout.now)) procs) }
{
    let cells = layout.shape().cells(procs);
    let mut parts = Vec::new(alloc);
    for cell in 0..cells {
        parts.push(layout.empty_part(alloc, cell, procs)?)?;
    }
    Ok(parts)
}

/// One operation at the cells that it needs, for a caller on the processor. The row of parts then
/// is as an object of one thread would be, and replies as it would.
pub fn step_row<L: Layout>(
    layout: &L,
    alloc: Global,
    parts: &mut Vec<L::Part>,
    op: &L::Op,
    proc: u32,
    procs: u32,
) -> Result<L::Reply, Memory>
    requires known { IsKnownTag (L.shapes layout.now) (L.tag_of layout.now) × (proc < procs) × (procs ≤ PROCESSORS) }
    requires takes { IsTrue ((L.object layout.now).takes op.now) }
    requires row { L.whole layout.now procs parts.old.items }
    ensures row { L.whole layout.now procs parts.new.items }
    ensures step { IfOk result (λ reply.
        Steps (L.object layout.now).after (L.object layout.now).reply
        ((L.ways layout.now).combine parts.old.items) op.now reply
        ((L.ways layout.now).combine parts.new.items)) }
    ensures memory { OnErr result (parts.new.items ≡ parts.old.items) }
{
    match layout.reach(op, proc, procs) {
        Reach::One(cell) => layout.step_one(alloc, &mut parts[cell as usize], op),
        Reach::All => layout.step_all(alloc, parts, op),
    }
}
