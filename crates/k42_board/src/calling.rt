//! A call at one cell, made while the cell is in its slot.
ghost use Rattle.std.specs.Prelude.{◌≡◌, ◌≤◌, ◌<◌, [], ◌∷◌, IsTrue, None, IfOk, OnOk, OnErr, IsSomeAnd};
ghost use Rattle.k42_shapes.specs.Shapes.{IsKnownTag};
ghost use Rattle.k42_limits.specs.declared.TheConstants.{LAST_STAMP, PROCESSORS};
ghost use Rattle.k42_kinds.specs.LayoutLaws.{IsReached};
ghost use Rattle.k42_board.specs.Calling.{HasCalledAt, HasLeftCell, HasStepped, MayCallAt, due_in};
ghost use Rattle.k42_board.specs.Drawing.{AgreeOn};
ghost use Rattle.k42_board.specs.Lifted.{HoldsSlot, IsSeatWith, StaysFull, slot_in};
ghost use Rattle.k42_board.specs.Seen.{IsSeatOf};
ghost use Rattle.k42_board.specs.Stepping.{IsOfTable, layouts_by};
ghost use Rattle.k42_board.specs.Taking.{HoldsHome};
ghost use Rattle.k42_board.specs.Views.{pass_in};
ghost use Rattle.k42_board.specs.Words.{slot_of};

use crate::board::{Board, BoardSeat};
use crate::cell::Cell;
use crate::encoding::slot_of;
use crate::lifting::{draw_lifted, lift_cell, put_lifted, tell_lifted};
use crate::stamps::stamp_after;
use k42_kinds::Layout;
use k42_memory::Memory;
use std::alloc::Global;
use std::marker::Brand;

/// Makes the operation on the empty part that is due in a cell without one.
fn step_empty<L: Layout>(
    alloc: Global,
    layout: &L,
    procs: u32,
    place: u32,
    op: &L::Op,
    cell: &mut Cell<L>,
) -> Result<L::Reply, Memory>
    requires known { IsKnownTag (L.shapes layout.now) (L.tag_of layout.now) × (place < procs) × (procs ≤ PROCESSORS) }
    requires takes { IsTrue ((L.object layout.now).takes op.now) }
    requires empty { cell.old.part ≡ None }
    requires reached { IsReached (L.ways layout.now) (L.whole layout.now) (due_in (L.ways layout.now) procs place cell.old) op.now }
    ensures stepped { IfOk result (λ reply. HasStepped (L.ways layout.now) procs place op.now reply cell.old cell.new) }
    ensures memory { OnErr result (cell.new ≡ cell.old) }
{
    let mut part = layout.empty_part(alloc, place, procs)?;
    let reply = layout.step_one(alloc, &mut part, op)?;
    cell.set_part(part);
    Ok(reply)
}

/// Makes the operation on the part of a cell. The reply is where room for it was lent.
#[inline(always)]
fn step_cell<L: Layout>(
    alloc: Global,
    layout: &L,
    procs: u32,
    place: u32,
    op: &L::Op,
    cell: &mut Cell<L>,
    reply: &mut L::Reply,
) -> Result<(), Memory>
    requires known { IsKnownTag (L.shapes layout.now) (L.tag_of layout.now) × (place < procs) × (procs ≤ PROCESSORS) }
    requires takes { IsTrue ((L.object layout.now).takes op.now) }
    requires reached { IsReached (L.ways layout.now) (L.whole layout.now) (due_in (L.ways layout.now) procs place cell.old) op.now }
    ensures stepped { OnOk result (HasStepped (L.ways layout.now) procs place op.now reply.new cell.old cell.new) }
    ensures memory { OnErr result (cell.new ≡ cell.old) }
{
    if let Some(part) = &mut cell.part {
        *reply = layout.step_one(alloc, part, op)?;
        return Ok(());
    }
    *reply = step_empty(alloc, layout, procs, place, op, cell)?;
    Ok(())
}

/// The same in a slot, which has a cell, and answers the stamp of the last entry drawn at it.
#[inline(always)]
fn step_slot<L: Layout>(
    alloc: Global,
    layout: &L,
    procs: u32,
    place: u32,
    op: &L::Op,
    slot: &mut Option<Cell<L>>,
    reply: &mut L::Reply,
) -> Result<u64, Memory>
    requires known { IsKnownTag (L.shapes layout.now) (L.tag_of layout.now) × (place < procs) × (procs ≤ PROCESSORS) }
    requires takes { IsTrue ((L.object layout.now).takes op.now) }
    requires reached { IsSomeAnd slot.old (λ content. IsReached (L.ways layout.now) (L.whole layout.now)
        (due_in (L.ways layout.now) procs place content) op.now) }
    ensures stepped { OnOk result (StaysFull (HasStepped (L.ways layout.now) procs place op.now reply.new) slot.old slot.new) }
    ensures last { IfOk result (λ last. IsSomeAnd slot.old (λ content. last ≡ content.last)) }
    ensures small { IfOk result (λ last. last ≤ LAST_STAMP) }
    ensures memory { OnErr result (slot.new ≡ slot.old) }
{
    let Some(cell) = slot else { unreachable!() };
    let last = cell.last_stamp();
    step_cell(alloc, layout, procs, place, op, cell, reply)?;
    Ok(last)
}

/// The same in the slot that is out with a seat.
#[inline(always)]
fn step_lifted<L: Layout>(
    alloc: Global,
    board: &Board<L>,
    seat: &mut BoardSeat<L>,
    layout: &L,
    procs: u32,
    cell: usize,
    place: u32,
    op: &L::Op,
    reply: &mut L::Reply,
) -> Result<u64, Memory>
    requires holds { HoldsSlot L.Layout board.now.shared.table_id board.now.shared.key cell seat.old }
    requires known { IsKnownTag (L.shapes layout.now) (L.tag_of layout.now) × (place < procs) × (procs ≤ PROCESSORS) }
    requires takes { IsTrue ((L.object layout.now).takes op.now) }
    requires reached { IsSomeAnd (slot_in seat.old.me.1) (λ content. IsReached (L.ways layout.now) (L.whole layout.now)
        (due_in (L.ways layout.now) procs place content) op.now) }
    ensures ours { (seat.new.table_id ≡ seat.old.table_id) × (seat.new.id ≡ seat.old.id) }
    ensures seated { IsSeatWith ((slot_of cell, slot_in seat.new.me.1) ∷ []) seat.new.me (pass_in seat.old.me.0) }
    ensures stepped { OnOk result (StaysFull (HasStepped (L.ways layout.now) procs place op.now reply.new) (slot_in seat.old.me.1) (slot_in seat.new.me.1)) }
    ensures last { IfOk result (λ last. IsSomeAnd (slot_in seat.old.me.1) (λ content. last ≡ content.last)) }
    ensures small { IfOk result (λ last. last ≤ LAST_STAMP) }
    ensures memory { OnErr result (slot_in seat.new.me.1 ≡ slot_in seat.old.me.1) }
{
    let slot = seat.slot_mut(&board.shared, slot_of(cell));
    step_slot(alloc, layout, procs, place, op, slot, reply)
}

/// Lifts the cell, makes the operation on its part, draws the call with the stamp that it answers, and puts the cell back.
/// Without memory the cell is put back as it was, and nothing is drawn.
#[inline(always)]
pub fn call_cell<L: Layout>(
    alloc: Global,
    board: &Board<L>,
    seat: &mut BoardSeat<L>,
    layout: &L,
    procs: u32,
    cell: usize,
    place: u32,
    op: &L::Op,
    reply: &mut L::Reply,
    clock: u64,
) -> Result<u64, Memory>
    requires idle { (pass_in seat.old.me.0).out ≡ None }
    requires ours { IsOfTable L.Layout board.now.shared.table_id board.now.shared.key seat.old }
    requires may { HoldsHome cell (pass_in seat.old.me.0) }
    requires agree { AgreeOn (layouts_by L.Layout board.now.shared.key) }
    requires procs { procs ≡ board.now.shared.key.procs }
    requires known { IsKnownTag (L.shapes layout.now) (L.tag_of layout.now) × (place < procs) × (procs ≤ PROCESSORS) }
    requires takes { IsTrue ((L.object layout.now).takes op.now) }
    requires clock { (clock ≡ (pass_in seat.old.me.0).taker.clock) × (clock ≤ LAST_STAMP) }
    requires call { MayCallAt (layouts_by L.Layout board.now.shared.key) board.now.shared.key.layouts.items
        layout.now place cell op.now seat.old.id (pass_in seat.old.me.0) }
    ensures ours { (seat.new.table_id ≡ seat.old.table_id) × (seat.new.id ≡ seat.old.id) }
    ensures alone { IsSeatOf seat.new.me (pass_in seat.new.me.0) }
    ensures called { IfOk result (λ stamp. HasCalledAt (layouts_by L.Layout board.now.shared.key) board.now.shared.key.layouts.items
        layout.now place cell op.now seat.old.id reply.new stamp (pass_in seat.old.me.0) (pass_in seat.new.me.0)) }
    ensures memory { OnErr result (HasLeftCell (layouts_by L.Layout board.now.shared.key) board.now.shared.key.layouts.items
        cell seat.old.id (pass_in seat.old.me.0) (pass_in seat.new.me.0)) }
{
    lift_cell::<L, Brand>(board, seat, cell);
    let Ok(last) = step_lifted(alloc, board, seat, layout, procs, cell, place, op, reply) else {
        put_lifted(board, seat, cell);
        return Err(Memory);
    };
    let stamp = stamp_after(clock, last);
    draw_lifted::<L, Brand>(board, seat, cell, op, reply);
    tell_lifted(board, seat, cell, stamp);
    put_lifted(board, seat, cell);
    Ok(stamp)
}
