//! The step that hands a row on, for a seat alone.
ghost use Rattle.std.specs.Prelude.{◌≡◌, ◌<◌, ℕ, take, drop};
ghost use Rattle.k42_joined.specs.Drawing.{first_cell};
ghost use Rattle.k42_board.specs.Drawing.{numbers_of};
ghost use Rattle.k42_board.specs.Handing.{hands_at};
ghost use Rattle.k42_board.specs.Protocol as protocol;
ghost use Rattle.k42_board.specs.Stepping.{MayTake, HasTaken};

use crate::board::{Board, BoardSeat};
use crate::cell::{Cell, Content};
use crate::draw_plays::{Draw, Said};
use crate::encoding::lock_word;
use k42_kinds::{Entry, Layout};

/// The number of the cell at this place, or 0.
pub fn number_at<P: Drop, O, R>(cells: &[Content<P, O, R>], place: usize) -> u32
    ensures is { result ≡ first_cell (numbers_of (drop place cells.now)) }
    ensures few { result < 320 }
{
    match cells.get(place) {
        Some(cell) => cell.number,
        None => 0,
    }
}

pub fn hand_word<L: Layout, K: Said<L::Part, L::Op, L::Reply>>(
    board: &Board<L>,
    seat: &mut BoardSeat<L>,
    cells: &[Cell<L>],
    to: &L,
    entry: &Entry<L::Op, L::Reply>,
)
    requires says { K.becomes ≡ hands_at (take board.now.shared.key.procs cells.now) (drop board.now.shared.key.procs cells.now) entry.now (L.tag_of to.now) }
    requires may { MayTake L.Layout board.now.shared.table_id board.now.shared.key (protocol.hand_on board.now.shared.key.procs cells.now to.now (L.tag_of to.now) entry.now) seat.old }
    ensures { (found : ℕ) → HasTaken L.Layout board.now.shared.key (protocol.hand_on board.now.shared.key.procs cells.now to.now (L.tag_of to.now) entry.now) seat.old found seat.new }
{
    let number = number_at(cells, 0) as usize;
    board.shared.load::<Draw<K>>(seat, lock_word(number));
}
