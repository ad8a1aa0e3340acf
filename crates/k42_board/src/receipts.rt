//! The cells at which an entry was drawn are told of it.
ghost use Rattle.std.specs.Prelude.{◌≡◌, ◌<◌, [], ◌∷◌};
ghost use Rattle.k42_board.specs.Drawing.{IsTold, AreTold, numbers_of, untold_view};
ghost use Rattle.k42_board.specs.Receipts.{IsDue, AreDue, after_first};
ghost use Rattle.k42_board.specs.Seen.{IsSeatOf};
ghost use Rattle.k42_board.specs.Views.{pass_in};
ghost use Rattle.k42_board.specs.Words.{many_words};

use crate::board::{Board, BoardSeat};
use crate::cell::Cell;
use crate::draw_plays::Receipt;
use k42_kinds::Layout;

/// The first cell whose seat does not tell of the entry yet.
pub fn tell_cell<L: Layout>(
    board: &Board<L>,
    seat: &mut BoardSeat<L>,
    cell: &mut Cell<L>,
    closed: bool,
    last: u64,
)
    requires ours { (seat.old.table_id ≡ board.now.shared.table_id) × (board.now.shared.table_id.words ≡ many_words) }
    requires seated { IsSeatOf seat.old.me (pass_in seat.old.me.0) }
    requires first { (pass_in seat.old.me.0).untold ≡ cell.old.number ∷ after_first (pass_in seat.old.me.0).untold }
    requires due { IsDue (pass_in seat.old.me.0).notes cell.old.number closed last }
    ensures ours { (seat.new.table_id ≡ seat.old.table_id) × (seat.new.id ≡ seat.old.id) }
    ensures seated { IsSeatOf seat.new.me (untold_view (after_first (pass_in seat.old.me.0).untold) (pass_in seat.old.me.0)) }
    ensures told { IsTold (pass_in seat.old.me.0).notes cell.old cell.new }
{
    let own = board.shared.split_seat::<Receipt>(seat);
    cell.tell(own.into_badge(), closed, last);
}

/// All cells, of which the first so many are closed and the others begin a row or stay as they were.
pub fn tell_all<L: Layout>(
    board: &Board<L>,
    seat: &mut BoardSeat<L>,
    cells: &mut [Cell<L>],
    closes: usize,
    begins: bool,
    stamp: u64,
)
    requires ours { (seat.old.table_id ≡ board.now.shared.table_id) × (board.now.shared.table_id.words ≡ many_words) }
    requires seated { IsSeatOf seat.old.me (pass_in seat.old.me.0) }
    requires untold { (pass_in seat.old.me.0).untold ≡ numbers_of cells.old }
    requires due { AreDue (pass_in seat.old.me.0).notes closes begins stamp cells.old }
    ensures ours { (seat.new.table_id ≡ seat.old.table_id) × (seat.new.id ≡ seat.old.id) }
    ensures seated { IsSeatOf seat.new.me (untold_view [] (pass_in seat.old.me.0)) }
    ensures told { AreTold (pass_in seat.old.me.0).notes cells.old cells.new }
{
    if let Some((cell, others)) = cells.split_first_mut() {
        let closed = closes > 0 || (cell.closed && !begins);
        let last = if closes > 0 { cell.last } else { stamp };
        tell_cell(board, seat, cell, closed, last);
        tell_all(board, seat, others, closes.saturating_sub(1), begins, stamp);
    }
}
