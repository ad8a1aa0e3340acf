//! The steps of a seat that has the slot of a cell out, from the load that lifts the cell to the one that puts it back. The
//! cell stays in its slot, where it is stepped and told.
ghost use Rattle.std.specs.Prelude.{◌≡◌, [], ◌∷◌, ℕ, None, IfSome, IsSomeAnd};
ghost use Rattle.k42_board.specs.Cells.{Slot};
ghost use Rattle.k42_board.specs.Drawing.{AgreeOn, IsTold, MayDrawCall, draws_at, entry_at, untold_view};
ghost use Rattle.k42_board.specs.Lifted.{HoldsSlot, HasTakenWith, HasMovedOnce, IsSeatWith, StaysFull, cell_listed, slot_in};
ghost use Rattle.k42_board.specs.Protocol as protocol;
ghost use Rattle.k42_board.specs.Receipts.{IsDue, after_first};
ghost use Rattle.k42_board.specs.Seats as seats;
ghost use Rattle.k42_board.specs.Stepping.{IsOfTable, IsWholeIn, layouts_by};
ghost use Rattle.k42_board.specs.Taking.{HoldsHome, MayPut, AreRowsNoted};
ghost use Rattle.k42_board.specs.Views.{pass_in};
ghost use Rattle.k42_board.specs.Words.{many_slots, slot_of};
ghost use Rattle.k42_board.specs.declared.view.PassView.{PassView};

use crate::board::{Board, BoardSeat};
use crate::cell::Content;
use crate::draw_plays::{Draw, Receipt, Said};
use crate::encoding::{lock_word, slot_of};
use crate::lifting_plays::LiftOut;
use crate::slot_plays::{Known, PutBack};
use crate::view::View;
use atomic_table::Badge;
use k42_kinds::Layout;

/// Takes the slot of a cell, with the cell in it.
#[inline(always)]
pub(crate) fn lift_cell<L: Layout, K: Known<L::Part, L::Op, L::Reply>>(
    board: &Board<L>,
    seat: &mut BoardSeat<L>,
    cell: usize,
)
    requires idle { (pass_in seat.old.me.0).out ≡ None }
    requires ours { IsOfTable L.Layout board.now.shared.table_id board.now.shared.key seat.old }
    requires may { HoldsHome cell (pass_in seat.old.me.0) }
    requires known { (v : PassView L.Part L.Op L.Reply) → AreRowsNoted (layouts_by L.Layout board.now.shared.key) board.now.shared.key.layouts.items v → K.known v }
    ensures holds { HoldsSlot L.Layout board.now.shared.table_id board.now.shared.key cell seat.new }
    ensures known { K.known (pass_in seat.new.me.0) }
    ensures lifted { IfSome (slot_in seat.new.me.1) (λ content. HasMovedOnce L.Layout board.now.shared.key (protocol.lift cell content) seat.old seat.new) }
    ensures whole { IfSome (slot_in seat.new.me.1) (λ content. IsWholeIn L.Layout board.now.shared.key cell content seat.new) }
{
    board.shared.load::<LiftOut<K>>(seat, lock_word(cell));
}

/// Draws a call at the cell that is out.
#[inline(always)]
pub(crate) fn draw_lifted<L: Layout, K: Said<L::Part, L::Op, L::Reply>>(
    board: &Board<L>,
    seat: &mut BoardSeat<L>,
    cell: usize,
    op: &L::Op,
    reply: &L::Reply,
)
    requires agree { AgreeOn (layouts_by L.Layout board.now.shared.key) }
    requires holds { HoldsSlot L.Layout board.now.shared.table_id board.now.shared.key cell seat.old }
    requires says { K.becomes ≡ draws_at (cell_listed (slot_in seat.old.me.1)) (entry_at (cell_listed (slot_in seat.old.me.1)) op.now reply.now (pass_in seat.old.me.0)) }
    requires may { MayDrawCall (layouts_by L.Layout board.now.shared.key) board.now.shared.key.layouts.items (cell_listed (slot_in seat.old.me.1)) op.now reply.now (pass_in seat.old.me.0) }
    ensures { (found : ℕ) → HasTakenWith L.Layout board.now.shared.key (protocol.draw_call (cell_listed (slot_in seat.old.me.1)) op.now reply.now) seat.old found seat.new }
{
    board.shared.load::<Draw<K>>(seat, lock_word(cell));
}

/// Tells the cell in a slot of the last entry that was drawn at it.
#[inline(always)]
fn tell_in<P: Drop, O, R>(
    slot: &mut Option<Content<P, O, R>>,
    badge: Badge<View<P, O, R>>,
    last: u64,
)
    requires { IsSomeAnd slot.old (λ content. seats.IsTold content.closed last badge.views) }
    ensures { StaysFull (λ old new. (new.number ≡ old.number) × (new.part ≡ old.part) × (new.badge.views ≡ badge.views)) slot.old slot.new }
{
    let Some(cell) = slot else { unreachable!() };
    let closed = cell.is_closed();
    cell.tell(badge, closed, last);
}

/// Tells the cell that is out of the entry that was drawn at it.
#[inline(always)]
pub(crate) fn tell_lifted<L: Layout>(
    board: &Board<L>,
    seat: &mut BoardSeat<L>,
    cell: usize,
    last: u64,
)
    requires holds { HoldsSlot L.Layout board.now.shared.table_id board.now.shared.key cell seat.old }
    requires first { (pass_in seat.old.me.0).untold ≡ cell ∷ after_first (pass_in seat.old.me.0).untold }
    requires due { IsSomeAnd (slot_in seat.old.me.1) (λ content. IsDue (pass_in seat.old.me.0).notes content.number content.closed last) }
    ensures ours { (seat.new.table_id ≡ seat.old.table_id) × (seat.new.id ≡ seat.old.id) }
    ensures seated { IsSeatWith ((slot_of cell, slot_in seat.new.me.1) ∷ []) seat.new.me (untold_view (after_first (pass_in seat.old.me.0).untold) (pass_in seat.old.me.0)) }
    ensures told { StaysFull (IsTold (pass_in seat.old.me.0).notes) (slot_in seat.old.me.1) (slot_in seat.new.me.1) }
{
    let own = board.shared.split_seat::<Receipt>(seat);
    let slot = seat.slot_mut(&board.shared, slot_of(cell));
    tell_in(slot, own.into_badge(), last);
}

/// Gives the slot back with the cell in it.
#[inline(always)]
pub(crate) fn put_lifted<L: Layout>(board: &Board<L>, seat: &mut BoardSeat<L>, cell: usize)
    requires holds { HoldsSlot L.Layout board.now.shared.table_id board.now.shared.key cell seat.old }
    requires may { IsSomeAnd (slot_in seat.old.me.1)
        (λ content. MayPut (layouts_by L.Layout board.now.shared.key) board.now.shared.key.layouts.items seat.old.id cell content (pass_in seat.old.me.0)) }
    ensures { IfSome (slot_in seat.old.me.1) (λ content. HasMovedOnce L.Layout board.now.shared.key (protocol.put cell content) seat.old seat.new) }
{
    board.shared.load::<PutBack>(seat, lock_word(cell));
}
