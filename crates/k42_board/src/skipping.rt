//! A pass skips to the clock of another.
ghost use Rattle.std.specs.Prelude.{◌≡◌, [], ◌∷◌};
ghost use Rattle.k42_board.specs.Seen.{IsSeatOf};
ghost use Rattle.k42_board.specs.Skipping.{skipped_view, stamp_in};
ghost use Rattle.k42_board.specs.Stepping.{IsOfTable};
ghost use Rattle.k42_board.specs.Views.{pass_in};
ghost use Rattle.k42_board.specs.Words.{many_words};
ghost use Rattle.k42_board.specs.declared.view.View.TheVariants.{Drew};

use crate::board::{Board, BoardSeat};
use crate::plays::{Skip, TellClock};
use k42_kinds::Layout;

/// A seat that tells of the clock of the pass.
pub fn tell_clock<L: Layout>(board: &Board<L>, seat: &mut BoardSeat<L>) -> BoardSeat<L>
    requires ours { (seat.old.table_id ≡ board.now.shared.table_id) × (board.now.shared.table_id.words ≡ many_words) }
    requires seated { IsSeatOf seat.old.me (pass_in seat.old.me.0) }
    ensures same { (seat.new.table_id ≡ seat.old.table_id) × (seat.new.id ≡ seat.old.id) × (seat.new.me ≡ seat.old.me) }
    ensures ours { result.table_id ≡ seat.old.table_id }
    ensures told { result.me ≡ (Drew (pass_in seat.old.me.0).taker.clock, []) }
{
    board.shared.split_seat::<TellClock>(seat)
}

/// The pass raises its clock to the stamp that the other seat tells of.
pub fn skip_to<L: Layout>(board: &Board<L>, seat: &mut BoardSeat<L>, other: BoardSeat<L>)
    requires here { IsOfTable L.Layout board.now.shared.table_id board.now.shared.key seat.old }
    requires theirs { other.table_id ≡ board.now.shared.table_id }
    requires told { other.me ≡ (Drew (stamp_in other.me.0), []) }
    ensures same { (seat.new.table_id ≡ seat.old.table_id) × (seat.new.id ≡ seat.old.id) }
    ensures skipped { IsSeatOf seat.new.me (skipped_view (stamp_in other.me.0) (pass_in seat.old.me.0)) }
{
    board.shared.join_seat::<Skip>(seat, other);
}
