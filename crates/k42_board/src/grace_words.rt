//! The steps of a grace on the words of the table, for a seat alone.
ghost use Rattle.std.specs.Prelude.{◌≡◌, ◌<◌, ◌^◌, ℕ};
ghost use Rattle.k42_board.specs.Freeing.{number_noted};
ghost use Rattle.k42_board.specs.Gracing.{flip_word};
ghost use Rattle.k42_board.specs.Protocol as protocol;
ghost use Rattle.k42_board.specs.Stepping.{MayTake, HasTaken};
ghost use Rattle.k42_board.specs.Views.{pass_in};

use crate::board::{Board, BoardSeat};
use crate::encoding::{ROLE_WORD, exits_word, freed_word, generation_word};
use crate::plays::{AskGeneration, Flip, Free, GiveRole, Look, TakeRole};
use k42_kinds::Layout;

pub fn take_role_word<L: Layout>(board: &Board<L>, seat: &mut BoardSeat<L>, number: u64) -> u64
    requires number { ((pass_in seat.old.me.0).number ≡ number) × (number < 2 ^ 32) }
    requires may { MayTake L.Layout board.now.shared.table_id board.now.shared.key protocol.take_role seat.old }
    ensures { HasTaken L.Layout board.now.shared.key protocol.take_role seat.old result seat.new }
{
    board
        .shared
        .compare_exchange::<TakeRole>(seat, ROLE_WORD, 0, number + 1)
}

pub fn generation_load<L: Layout>(board: &Board<L>, seat: &mut BoardSeat<L>) -> u64
    requires may { MayTake L.Layout board.now.shared.table_id board.now.shared.key protocol.ask_generation seat.old }
    ensures { HasTaken L.Layout board.now.shared.key protocol.ask_generation seat.old result seat.new }
{
    board.shared.load::<AskGeneration>(seat, generation_word(0))
}

pub fn look_word<L: Layout>(
    board: &Board<L>,
    seat: &mut BoardSeat<L>,
    proc: usize,
    parity: usize,
) -> u64
    requires few { (proc < 8) × (parity < 2) }
    requires may { MayTake L.Layout board.now.shared.table_id board.now.shared.key (protocol.look proc parity) seat.old }
    ensures { HasTaken L.Layout board.now.shared.key (protocol.look proc parity) seat.old result seat.new }
{
    board.shared.load::<Look>(seat, exits_word(proc, parity))
}

pub fn flip_swap<L: Layout>(
    board: &Board<L>,
    seat: &mut BoardSeat<L>,
    proc: usize,
    word: u64,
) -> u64
    requires few { proc < 8 }
    requires word { word ≡ flip_word (pass_in seat.old.me.0) }
    requires may { MayTake L.Layout board.now.shared.table_id board.now.shared.key (protocol.flip proc) seat.old }
    ensures { HasTaken L.Layout board.now.shared.key (protocol.flip proc) seat.old result seat.new }
{
    board.shared.swap::<Flip>(seat, generation_word(proc), word)
}

pub fn give_role_store<L: Layout>(board: &Board<L>, seat: &mut BoardSeat<L>)
    requires may { MayTake L.Layout board.now.shared.table_id board.now.shared.key protocol.give_role seat.old }
    ensures { (found : ℕ) → HasTaken L.Layout board.now.shared.key protocol.give_role seat.old found seat.new }
{
    board.shared.store::<GiveRole>(seat, ROLE_WORD, 0)
}

pub fn free_word<L: Layout>(
    board: &Board<L>,
    seat: &mut BoardSeat<L>,
    object: usize,
    number: u64,
) -> u64
    requires small { object < 16 }
    requires number { number_noted (pass_in seat.old.me.0) object ≡ number }
    requires may { MayTake L.Layout board.now.shared.table_id board.now.shared.key (protocol.free object) seat.old }
    ensures { HasTaken L.Layout board.now.shared.key (protocol.free object) seat.old result seat.new }
{
    board
        .shared
        .fetch_max::<Free>(seat, freed_word(object), number)
}
