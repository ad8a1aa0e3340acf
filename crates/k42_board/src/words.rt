//! The steps on the words of generations, for a seat alone.
ghost use Rattle.std.specs.Prelude.{◌≡◌, ◌<◌, ℕ};
ghost use Rattle.k42_board.specs.Protocol as protocol;
ghost use Rattle.k42_board.specs.Stepping.{MayTake, HasTaken};
ghost use Rattle.k42_board.specs.Views.{pass_in};

use crate::board::{Board, BoardSeat};
use crate::encoding::{ENTRY, exits_word, generation_word};
use crate::plays::{Enter, Leave};
use k42_kinds::Layout;

pub fn enter_word<L: Layout>(board: &Board<L>, seat: &mut BoardSeat<L>, home: usize) -> u64
    requires home { (home < 8) × ((pass_in seat.old.me.0).turn.proc ≡ home) }
    requires may { MayTake L.Layout board.now.shared.table_id board.now.shared.key protocol.enter seat.old }
    ensures { HasTaken L.Layout board.now.shared.key protocol.enter seat.old result seat.new }
{
    board
        .shared
        .fetch_add::<Enter>(seat, generation_word(home), ENTRY)
}

pub fn leave_word<L: Layout>(
    board: &Board<L>,
    seat: &mut BoardSeat<L>,
    home: usize,
    generation: u32,
) -> u64
    requires home { (home < 8) × ((pass_in seat.old.me.0).turn.proc ≡ home) }
    requires may { MayTake L.Layout board.now.shared.table_id board.now.shared.key (protocol.leave generation) seat.old }
    ensures { HasTaken L.Layout board.now.shared.key (protocol.leave generation) seat.old result seat.new }
{
    let parity = (generation % 2) as usize;
    board
        .shared
        .fetch_add::<Leave>(seat, exits_word(home, parity), 1)
}
