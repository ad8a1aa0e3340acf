//! The steps on locks and slots, for a seat alone.
ghost use Rattle.std.specs.Prelude.{◌≡◌, ◌∷◌, ℕ, None, IfSome, IsSomeAnd};
ghost use Rattle.atomic_table.specs.Table.{rest};
ghost use Rattle.k42_board.specs.Cells.{Slot};
ghost use Rattle.k42_board.specs.Protocol as protocol;
ghost use Rattle.k42_board.specs.Stepping.{IsOfTable, MayTake, HasTaken, HasMovedTwice, IsWholeIn, layouts_by};
ghost use Rattle.k42_board.specs.Taking.{HoldsHome, MayPut, AreRowsNoted};
ghost use Rattle.k42_board.specs.Views.{pass_in};
ghost use Rattle.k42_board.specs.Words.{many_slots};
ghost use Rattle.k42_board.specs.declared.view.PassView.{PassView};

use crate::board::{Board, BoardSeat};
use crate::cell::Cell;
use crate::encoding::{lock_word, slot_of};
use crate::slot_plays::{GiveBack, Known, Lift, Lock, LockQuietly, PutBack, Reach, Unlock};
use k42_kinds::Layout;
use std::mem::swap;

pub fn lock_cell<L: Layout>(
    board: &Board<L>,
    seat: &mut BoardSeat<L>,
    cell: usize,
    number: u32,
) -> u64
    requires number { (pass_in seat.old.me.0).number ≡ number }
    requires idle { (pass_in seat.old.me.0).out ≡ None }
    requires may { MayTake L.Layout board.now.shared.table_id board.now.shared.key (protocol.lock cell) seat.old }
    ensures { HasTaken L.Layout board.now.shared.key (protocol.lock cell) seat.old result seat.new }
{
    let new = u64::from(number) + 1;
    board
        .shared
        .compare_exchange::<Lock>(seat, lock_word(cell), 0, new)
}

pub fn lock_cell_quietly<L: Layout>(
    board: &Board<L>,
    seat: &mut BoardSeat<L>,
    cell: usize,
    number: u32,
) -> u64
    requires number { (pass_in seat.old.me.0).number ≡ number }
    requires idle { (pass_in seat.old.me.0).out ≡ None }
    requires may { MayTake L.Layout board.now.shared.table_id board.now.shared.key (protocol.lock_quietly cell) seat.old }
    ensures { HasTaken L.Layout board.now.shared.key (protocol.lock_quietly cell) seat.old result seat.new }
{
    let new = u64::from(number) + 1;
    board
        .shared
        .compare_exchange::<LockQuietly>(seat, lock_word(cell), 0, new)
}

pub fn unlock_cell<L: Layout>(board: &Board<L>, seat: &mut BoardSeat<L>, cell: usize)
    requires idle { (pass_in seat.old.me.0).out ≡ None }
    requires may { MayTake L.Layout board.now.shared.table_id board.now.shared.key (protocol.unlock cell) seat.old }
    ensures { (found : ℕ) → HasTaken L.Layout board.now.shared.key (protocol.unlock cell) seat.old found seat.new }
{
    board.shared.store::<Unlock>(seat, lock_word(cell), 0);
}

/// Changes what is in the slot that the seat took last for what was lent.
#[inline(always)]
fn swap_slot<L: Layout>(
    board: &Board<L>,
    seat: &mut BoardSeat<L>,
    slot: usize,
    held: &mut Option<Cell<L>>,
)
    requires ours { seat.old.table_id ≡ board.now.shared.table_id }
    requires out { (content : Slot L.Part L.Op L.Reply) × (seat.old.me.1 ≡ (slot, content) ∷ rest seat.old.me.1) }
    ensures table { seat.new.table_id ≡ seat.old.table_id }
    ensures seat { seat.new.id ≡ seat.old.id }
    ensures found { seat.old.me.1 ≡ (slot, held.new) ∷ rest seat.old.me.1 }
    ensures left { seat.new.me ≡ (seat.old.me.0, (slot, held.old) ∷ rest seat.old.me.1) }
{
    swap(seat.slot_mut(&board.shared, slot), held);
}

/// Moves the cell out of its slot to where room for it was lent: a cell is long, and would be copied at each return.
#[inline(always)]
pub fn take_cell<L: Layout, K: Known<L::Part, L::Op, L::Reply>>(
    board: &Board<L>,
    seat: &mut BoardSeat<L>,
    cell: usize,
    held: &mut Option<Cell<L>>,
)
    requires slots { board.now.shared.table_id.slots ≡ many_slots }
    requires idle { (pass_in seat.old.me.0).out ≡ None }
    requires ours { IsOfTable L.Layout board.now.shared.table_id board.now.shared.key seat.old }
    requires may { HoldsHome cell (pass_in seat.old.me.0) }
    requires free { held.old ≡ None }
    requires known { (v : PassView L.Part L.Op L.Reply) → AreRowsNoted (layouts_by L.Layout board.now.shared.key) board.now.shared.key.layouts.items v → K.known v }
    ensures number { IsSomeAnd held.new (λ content. content.number ≡ cell) }
    ensures known { K.known (pass_in seat.new.me.0) }
    ensures taken { IfSome held.new (λ content. HasMovedTwice L.Layout board.now.shared.key (protocol.lift cell content) (protocol.give_back cell) seat.old seat.new) }
    ensures whole { IfSome held.new (λ content. IsWholeIn L.Layout board.now.shared.key cell content seat.new) }
{
    let word = lock_word(cell);
    let slot = slot_of(cell);
    board.shared.load::<Lift>(seat, word);
    swap_slot(board, seat, slot, held);
    board.shared.load::<GiveBack<K>>(seat, word);
}

/// Moves the cell that is held into its slot.
#[inline(always)]
pub fn put_cell<L: Layout>(
    board: &Board<L>,
    seat: &mut BoardSeat<L>,
    cell: usize,
    held: &mut Option<Cell<L>>,
)
    requires slots { board.now.shared.table_id.slots ≡ many_slots }
    requires idle { (pass_in seat.old.me.0).out ≡ None }
    requires ours { IsOfTable L.Layout board.now.shared.table_id board.now.shared.key seat.old }
    requires may { IsSomeAnd held.old (λ content. MayPut (layouts_by L.Layout board.now.shared.key) board.now.shared.key.layouts.items seat.old.id cell content (pass_in seat.old.me.0)) }
    ensures none { held.new ≡ None }
    ensures put { IfSome held.old (λ content. HasMovedTwice L.Layout board.now.shared.key (protocol.reach cell) (protocol.put cell content) seat.old seat.new) }
{
    let word = lock_word(cell);
    board.shared.load::<Reach>(seat, word);
    swap_slot(board, seat, slot_of(cell), held);
    board.shared.load::<PutBack>(seat, word);
}
