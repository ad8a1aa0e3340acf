//! The steps of a swap, for a seat alone.
ghost use Rattle.std.specs.Prelude.{◌≡◌, ◌<◌, ◌≤◌, ◌+◌, ◌^◌, length};
ghost use Rattle.k42_board.specs.Protocol as protocol;
ghost use Rattle.k42_board.specs.Stepping.{MayTake, HasTaken};
ghost use Rattle.k42_board.specs.Swapping.{object_swapped, entry_after, blocked_word, turn_amount, kept_bits};
ghost use Rattle.k42_board.specs.Views.{pass_in};

use crate::board::{Board, BoardSeat};
use crate::encoding::{BLOCK, local_word, object_word};
use crate::swap_plays::{Block, ChangeEntry, Clear, Move, TurnOver};
use k42_kinds::Layout;

pub fn change_entry_word<L: Layout>(
    board: &Board<L>,
    seat: &mut BoardSeat<L>,
    proc: usize,
    object: usize,
    new: u64,
) -> u64
    requires places { (proc < 8) × (object < 16) × (object_swapped (pass_in seat.old.me.0) ≡ object) }
    requires word { new ≡ entry_after (pass_in seat.old.me.0) }
    requires may { MayTake L.Layout board.now.shared.table_id board.now.shared.key (protocol.change_entry proc) seat.old }
    ensures { HasTaken L.Layout board.now.shared.key (protocol.change_entry proc) seat.old result seat.new }
{
    board
        .shared
        .swap::<ChangeEntry>(seat, local_word(proc, object), new)
}

pub fn block_word<L: Layout>(board: &Board<L>, seat: &mut BoardSeat<L>, object: usize) -> u64
    requires places { (object < 16) × (object_swapped (pass_in seat.old.me.0) ≡ object) }
    requires may { MayTake L.Layout board.now.shared.table_id board.now.shared.key protocol.block seat.old }
    ensures { HasTaken L.Layout board.now.shared.key protocol.block seat.old result seat.new }
{
    board
        .shared
        .fetch_or::<Block>(seat, object_word(object), BLOCK)
}

pub fn move_word<L: Layout>(
    board: &Board<L>,
    seat: &mut BoardSeat<L>,
    object: usize,
    old: u64,
    new: u64,
) -> u64
    requires places { (object < 16) × (object_swapped (pass_in seat.old.me.0) ≡ object) }
    requires words { (old ≡ blocked_word (pass_in seat.old.me.0)) × (new ≡ blocked_word (pass_in seat.old.me.0) + 2 ^ 26) }
    requires may { MayTake L.Layout board.now.shared.table_id board.now.shared.key protocol.move seat.old }
    ensures { HasTaken L.Layout board.now.shared.key protocol.move seat.old result seat.new }
{
    board
        .shared
        .compare_exchange::<Move>(seat, object_word(object), old, new)
}

pub fn turn_word<L: Layout>(
    board: &Board<L>,
    seat: &mut BoardSeat<L>,
    object: usize,
    layout: u32,
    amount: u64,
) -> u64
    requires places { (object < 16) × (object_swapped (pass_in seat.old.me.0) ≡ object) }
    requires amount { amount ≡ turn_amount layout (pass_in seat.old.me.0) }
    requires may { MayTake L.Layout board.now.shared.table_id board.now.shared.key (protocol.turn_over layout) seat.old }
    ensures { HasTaken L.Layout board.now.shared.key (protocol.turn_over layout) seat.old result seat.new }
{
    board
        .shared
        .fetch_add::<TurnOver>(seat, object_word(object), amount)
}

pub fn clear_word<L: Layout>(
    board: &Board<L>,
    seat: &mut BoardSeat<L>,
    object: usize,
    mask: u64,
) -> u64
    requires places { (object < 16) × (object_swapped (pass_in seat.old.me.0) ≡ object) }
    requires mask { mask ≡ kept_bits (pass_in seat.old.me.0).visitor.swap }
    requires granted { (pass_in seat.old.me.0).granted ≤ length (pass_in seat.old.me.0).rows }
    requires may { MayTake L.Layout board.now.shared.table_id board.now.shared.key protocol.clear seat.old }
    ensures { HasTaken L.Layout board.now.shared.key protocol.clear seat.old result seat.new }
{
    board
        .shared
        .fetch_and::<Clear>(seat, object_word(object), mask)
}
