//! An operation at the one cell that it needs.
ghost use Rattle.std.specs.Prelude.{◌≡◌, ◌<◌, ◌≤◌, IsTrue, IfOk, IfSome, OnOk, Some, unwrap_or};
ghost use Rattle.k42_limits.specs.declared.TheConstants.{PROCESSORS};
ghost use Rattle.k42_shapes.specs.Shapes.{IsKnownTag};
ghost use Rattle.k42_kinds.specs.LayoutLaws.{IsReached};
ghost use Rattle.k42_board.specs.Seen.{inside_in};
ghost use Rattle.table_crews.specs.Drawn.{HasDrawn};
ghost use Rattle.table_crews.specs.Ready.{HoldsNoCell, IsServing, IsLayoutOf};

use crate::crews::Walk;
use co_any::AnyLayout;
use k42_kinds::{Layout, Op, Reach, kind_of};
use k42_limits::PASS_ENTRIES;
use k42_memory::Memory;
use k42_rule::{
    Content, Inside, Pass, Sys, draw_call, layouts_are_lawful, lock, put, take, unlock,
};
use std::alloc::Global;

/// Steps an operation on the part of a cell, which is made where it is missing.
fn step_part<L: Layout>(
    alloc: Global,
    layout: &L,
    cell: &mut Content<L::Part, L::Op, L::Reply>,
    place: u32,
    procs: u32,
    op: &L::Op,
) -> Result<L::Reply, Memory>
    requires known { IsKnownTag (L.shapes layout.now) (L.tag_of layout.now) × (place < procs) × (procs ≤ PROCESSORS) }
    requires takes { IsTrue ((L.object layout.now).takes op.now) }
    requires reached { IsReached (L.ways layout.now) (L.whole layout.now)
        (unwrap_or cell.old.part ((L.ways layout.now).empty procs place)) op.now }
    ensures replied { IfOk result (λ reply.
        reply ≡ (L.ways layout.now).part_reply (unwrap_or cell.old.part ((L.ways layout.now).empty procs place)) op.now) }
    ensures moved { OnOk result (cell.new ≡ record cell.old {
      part = Some ((L.ways layout.now).part_after (unwrap_or cell.old.part ((L.ways layout.now).empty procs place)) op.now);
    }) }
{
    let mut part = match cell.take_part() {
        Some(part) => part,
        None => layout.empty_part(alloc, place, procs)?,
    };
    let reply = layout.step_one(alloc, &mut part, op)?;
    cell.set_part(part);
    Ok(reply)
}

/// Makes the operation at the one cell that it needs, and answers the stamp of its entry. There is none where it needs
/// more than one, no entry may follow, or another caller holds the cell.
pub fn step_at<L: Layout>(
    alloc: Global,
    sys: &Sys<L>,
    pass: &mut Pass<L>,
    layout: &L,
    inside: &Inside,
    op: &L::Op,
) -> Result<Option<u64>, Memory>
    requires free { HoldsNoCell sys.now pass.old }
    requires serving { IsServing pass.old.view }
    requires inside { (inside.now ≡ inside_in pass.old.view) × (inside.now.object < 16) }
    requires layout { IsLayoutOf L.object sys.now.layouts inside.now.object layout.now × (L.tag_of layout.now ≡ inside.now.layout)
        × IsKnownTag (L.shapes layout.now) (L.tag_of layout.now) }
    requires takes { IsTrue ((L.object layout.now).takes op.now) }
    ensures free { OnOk result (HoldsNoCell sys.now pass.new) }
    ensures serving { OnOk result (IsServing pass.new.view) }
    ensures drawn { IfOk result (λ made. IfSome made (λ stamp. HasDrawn stamp pass.old.view pass.new.view)) }
{
    layouts_are_lawful(sys);
    let Reach::One(place) = layout.reach(op, pass.processor(), sys.procs()) else {
        return Ok(None);
    };
    if place >= sys.procs() || pass.drawn() >= PASS_ENTRIES {
        return Ok(None);
    }
    // Others may wait for the cell, so room is made before its lock is taken.
    let mut cells = Vec::with_capacity(alloc, 1)?;
    pass.reserve()?;
    let number = (inside.object * 2 + inside.incarnation % 2) * 8 + place;
    if lock(sys, pass, number) != 0 {
        return Ok(None);
    }
    let mut cell = take(sys, pass, number);
    let reply = step_part(alloc, layout, &mut cell, place, sys.procs(), op)?;
    cells.push_reserved(cell);
    let stamp = draw_call(sys, pass, &mut cells, op, &reply);
    let Some(cell) = cells.pop() else {
        unreachable!()
    };
    put(sys, pass, number, cell);
    unlock(sys, pass, number);
    Ok(Some(stamp))
}

/// Makes an operation of the object whose row the call is in.
pub fn step(
    alloc: Global,
    sys: &Sys<AnyLayout>,
    pass: &mut Walk,
    op: &Op,
) -> Result<Option<u64>, Memory>
    requires free { HoldsNoCell sys.now pass.old }
    requires serving { IsServing pass.old.view }
    ensures free { OnOk result (HoldsNoCell sys.now pass.new) }
    ensures serving { OnOk result (IsServing pass.new.view) }
    ensures drawn { IfOk result (λ made. IfSome made (λ stamp. HasDrawn stamp pass.old.view pass.new.view)) }
{
    let inside = pass.inside();
    if inside.object >= sys.objects() {
        return Ok(None);
    }
    let declared = sys.declared(inside.object);
    if kind_of(op) != Some(declared.kind) {
        return Ok(None);
    }
    let layout = declared.with_tag(inside.layout);
    step_at(alloc, sys, pass, &layout, &inside, op)
}
