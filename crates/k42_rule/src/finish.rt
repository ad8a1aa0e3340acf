//! How a system ends.
ghost use Rattle.std.specs.Prelude.{◌≡◌, ◌+◌, ◌*◌, ◌≤◌, [], ◌++◌, length, vec_len, vec_capacity};
ghost use Rattle.k42_limits.specs.declared.TheConstants.{PASS_ENTRIES};
ghost use Rattle.atomic_table.specs.Table.{State, Seen};
ghost use Rattle.k42_places.specs.Places.{EachPlace};
ghost use Rattle.k42_stamp.specs.Merging.{entries_in};
ghost use Rattle.k42_board.specs.Cells.{Slot};
ghost use Rattle.k42_board.specs.Dealing.{crew_in, IsCrew};
ghost use Rattle.k42_rule.specs.Finishing.{kept_in, logged_in, views_of, with_none_kept};
ghost use Rattle.k42_board.specs.Stepping.{layouts_by};
ghost use Rattle.k42_board.specs.Rule.{Ruled};
ghost use Rattle.k42_board.specs.Words.{many_words};
ghost use Rattle.k42_board.specs.declared.view.View.{View};
ghost use Rattle.k42_board.specs.declared.view.View.TheVariants.{Crew};

use crate::pass::{Pass, Walker};
use k42_board::{Board, BoardSeat, Gather};
use k42_kinds::Layout;
use k42_log::Log;
use std::alloc::Global;

/// The passes give away the logs of what they have kept, in their order.
pub fn give_logs<L: Layout>(
    alloc: Global,
    passes: &mut [Pass<L>],
    logs: &mut Vec<Log<L::Op, L::Reply>>,
)
    requires room { vec_len logs.old + length passes.old ≤ vec_capacity logs.old }
    ensures logs { logged_in logs.new.items ≡ logged_in logs.old.items ++ kept_in passes.old }
    ensures few { entries_in (kept_in passes.old) ≤ length passes.old * PASS_ENTRIES }
    ensures passes { passes.new ≡ with_none_kept passes.old }
{
    if let Some((pass, others)) = passes.split_first_mut() {
        logs.push_reserved(pass.give_kept(alloc));
        give_logs::<L>(alloc, others, logs);
    }
}

/// The passes' seats are joined to one.
pub(crate) fn gather<L: Layout>(board: &Board<L>, seat: &mut BoardSeat<L>, passes: Vec<Pass<L>>)
    requires ours { (seat.old.table_id ≡ board.now.shared.table_id) × (board.now.shared.table_id.words ≡ many_words) }
    requires crew { IsCrew seat.old.me }
    requires theirs { EachPlace (λ c pass. pass.table ≡ board.now.shared.table_id) passes.items }
    ensures ours { (seat.new.table_id ≡ seat.old.table_id) × (seat.new.id ≡ seat.old.id) }
    ensures crew { seat.new.me ≡ (Crew (crew_in seat.old.me.0 ++ views_of passes.items), []) }
{
    for pass in passes {
        let Walker { seat: own, .. } = pass;
        board.shared.join_seat::<Gather>(seat, own);
    }
}

/// Frees the table. In its last state the seat's passes are what they were.
pub(crate) fn close<L: Layout>(board: Board<L>, seat: BoardSeat<L>)
    requires { seat.table_id ≡ board.shared.table_id }
    ensures { (table : State (Slot L.Part L.Op L.Reply) (View L.Part L.Op L.Reply)) × Seen (Ruled
        (layouts_by L.Layout board.shared.key)
        board.shared.key.layouts.items (length board.shared.key.callers.items)) seat.id seat.me.0 table }
{
    let mut closed = board.close_with(seat);
    let mut slot = 0;
    while slot < closed.slot_count() {
        drop(closed.take(slot));
        slot += 1;
    }
    closed.free();
}
