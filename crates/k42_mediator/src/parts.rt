//! Parts are moved between cells that a pass has taken.
ghost use Rattle.std.specs.Prelude.{◌≡◌, ◌<◌, ◌≤◌, ◌+◌, ◌*◌, ◌++◌, ℕ, None, length, take, drop, unwrap_or, IfOk, OnOk, OnErr, vec_capacity};
ghost use Rattle.std.specs.Vec.Iter.{into_iter_items};
ghost use Rattle.k42_limits.specs.declared.TheConstants.{PROCESSORS};
ghost use Rattle.k42_shapes.specs.Shapes.{IsKnownTag, IsLiveTag, shape_at, cells_of};
ghost use Rattle.k42_mediator.specs.Parts.{parts_from, AreKept, filled};

use k42_kinds::Layout;
use k42_memory::Memory;
use k42_rule::Cell;
use std::alloc::Global;
use std::vec::IntoIter;

/// Takes the part out of a cell. Where there is none, an empty one is made.
fn lift_part<L: Layout>(
    alloc: Global,
    layout: &L,
    procs: u32,
    place: u32,
    cell: &mut Cell<L>,
) -> Result<L::Part, Memory>
    requires known { IsKnownTag (L.shapes layout.now) (L.tag_of layout.now) × (place < procs) × (procs ≤ PROCESSORS) }
    ensures part { IfOk result (λ part. part ≡ unwrap_or cell.old.part ((L.ways layout.now).empty procs place)) }
    ensures lifted { OnOk result (cell.new ≡ record cell.old { part = None }) }
    ensures memory { OnErr result (cell.new ≡ cell.old) }
{
    match cell.take_part() {
        Some(part) => Ok(part),
        None => layout.empty_part(alloc, place, procs),
    }
}

/// Gives the cell this part, or none, in place of its own.
fn replace_part<L: Layout>(cell: &mut Cell<L>, part: Option<L::Part>)
    ensures { cell.new ≡ record cell.old { part = part } }
{
    cell.take_part();
    if let Some(part) = part {
        cell.set_part(part);
    }
}

/// The state for which the parts stand, those taken before and those of the cells. Each cell has its part again
/// afterwards.
fn export_behind<L: Layout>(
    alloc: Global,
    layout: &L,
    procs: u32,
    cells: &mut [Cell<L>],
    parts: &mut Vec<L::Part>,
) -> Result<L::State, Memory>
    requires known { IsKnownTag (L.shapes layout.now) (L.tag_of layout.now) × (0 < procs) × (procs ≤ PROCESSORS) }
    requires few { length parts.old.items + length cells.old ≤ procs }
    requires room { length parts.old.items + length cells.old ≤ vec_capacity parts.old }
    requires whole { L.whole layout.now procs (parts.old.items ++ parts_from (L.ways layout.now) procs (length parts.old.items) cells.old) }
    ensures parts { parts.new.items ≡ parts.old.items }
    ensures kept { AreKept (L.ways layout.now) procs (length parts.old.items + length cells.old) (length parts.old.items) cells.old cells.new }
    ensures state { IfOk result (λ state. state ≡ (L.ways layout.now).combine (parts.old.items ++ parts_from (L.ways layout.now) procs (length parts.old.items) cells.old)) }
{
    let place = parts.len() as u32;
    let Some((cell, others)) = cells.split_first_mut() else {
        return layout.export(alloc, parts);
    };
    let part = lift_part::<L>(alloc, layout, procs, place, cell)?;
    parts.push_reserved(part);
    let state = export_behind(alloc, layout, procs, others, parts);
    if let Some(part) = parts.pop() {
        cell.set_part(part);
    }
    state
}

/// Gives the cells these parts, as far as they go, and no other.
fn fill<L: Layout>(cells: &mut [Cell<L>], parts: &mut IntoIter<L::Part>)
    ensures { cells.new ≡ filled (into_iter_items parts.old) cells.old }
{
    if let Some((cell, others)) = cells.split_first_mut() {
        replace_part::<L>(cell, parts.next());
        fill::<L>(others, parts);
    }
}

/// How many cells of a row have parts.
fn cells_in<L: Layout>(layout: &L, procs: u32) -> usize
    requires { 0 < procs }
    ensures is { result ≡ cells_of (shape_at (L.shapes layout.now) (L.tag_of layout.now)) procs }
    ensures few { result ≤ procs }
{
    layout.shape().cells(procs) as usize
}

/// The state for which a row of cells stands.
fn export_row<L: Layout>(
    alloc: Global,
    layout: &L,
    procs: u32,
    row: &mut [Cell<L>],
) -> Result<L::State, Memory>
    requires known { IsKnownTag (L.shapes layout.now) (L.tag_of layout.now) × (0 < procs) × (procs ≤ PROCESSORS) }
    requires many { length row.old ≡ procs }
    requires whole { L.whole layout.now procs (parts_from (L.ways layout.now) procs 0 (take (cells_of (shape_at (L.shapes layout.now) (L.tag_of layout.now)) procs) row.old)) }
    ensures many { length row.new ≡ length row.old }
    ensures kept { AreKept (L.ways layout.now) procs (cells_of (shape_at (L.shapes layout.now) (L.tag_of layout.now)) procs) 0 row.old row.new }
    ensures state { IfOk result (λ state. state ≡ (L.ways layout.now).combine (parts_from (L.ways layout.now) procs 0 (take (cells_of (shape_at (L.shapes layout.now)
        (L.tag_of layout.now)) procs) row.old))) }
{
    let many = cells_in(layout, procs);
    let mut parts = Vec::with_capacity(alloc, many)?;
    let (own, _) = row.split_at_mut(many);
    export_behind(alloc, layout, procs, own, &mut parts)
}

/// Exports the state of the first cells, and gives the others what the new layout imports of it.
pub(crate) fn move_state<L: Layout>(
    alloc: Global,
    layout: &L,
    to: &L,
    procs: u32,
    cells: &mut [Cell<L>],
) -> Result<(), Memory>
    requires known { IsLiveTag (L.shapes layout.now) (L.tag_of layout.now) × IsKnownTag (L.shapes to.now) (L.tag_of to.now) × (0 < procs) × (procs ≤ PROCESSORS) }
    requires kind { L.object layout.now ≡ L.object to.now }
    requires many { length cells.old ≡ procs + procs }
    requires whole { L.whole layout.now procs (parts_from (L.ways layout.now) procs 0 (take (cells_of (shape_at (L.shapes layout.now) (L.tag_of layout.now)) procs) cells.old)) }
    ensures many { length cells.new ≡ length cells.old }
    ensures kept { AreKept (L.ways layout.now) procs (cells_of (shape_at (L.shapes layout.now) (L.tag_of layout.now)) procs) 0 (take procs cells.old) (take procs cells.new) }
    ensures filled { OnOk result (drop procs cells.new ≡ filled
        ((L.ways to.now).imported procs (L.admitted to.now ((L.ways layout.now).combine
        (parts_from (L.ways layout.now) procs 0 (take (cells_of (shape_at (L.shapes layout.now) (L.tag_of layout.now)) procs) cells.old)))))
        (drop procs cells.old)) }
    ensures memory { OnErr result (drop procs cells.new ≡ drop procs cells.old) }
{
    let (first, others) = cells.split_at_mut(procs as usize);
    let state = export_row(alloc, layout, procs, first)?;
    let state = to.admit(state);
    let parts = to.import(alloc, &state, procs)?;
    fill::<L>(others, &mut parts.into_iter());
    Ok(())
}
