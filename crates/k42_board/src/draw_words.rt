//! The steps that draw entries, for a seat alone.
ghost use Rattle.std.specs.Prelude.{◌≡◌, ℕ, ◌<◌, [], ◌∷◌};
ghost use Rattle.k42_joined.specs.Drawing.{first_cell};
ghost use Rattle.k42_board.specs.Drawing.{AgreeOn, numbers_of, alone_view, draws_at, entry_at};
ghost use Rattle.k42_board.specs.Protocol as protocol;
ghost use Rattle.k42_board.specs.Stepping.{MayTake, HasTaken, layouts_by};
ghost use Rattle.k42_board.specs.Views.{pass_in};

use crate::board::{Board, BoardSeat};
use crate::cell::{Cell, Content};
use crate::draw_plays::{Draw, Said};
use crate::encoding::{ROLE_WORD, lock_word};
use k42_kinds::{Entry, Layout};

pub fn alone_word<L: Layout, K: Said<L::Part, L::Op, L::Reply>>(
    board: &Board<L>,
    seat: &mut BoardSeat<L>,
    entry: &Entry<L::Op, L::Reply>,
)
    requires says { K.becomes ≡ alone_view entry.now }
    requires may { MayTake L.Layout board.now.shared.table_id board.now.shared.key (protocol.draw_alone entry.now) seat.old }
    ensures { (found : ℕ) → HasTaken L.Layout board.now.shared.key (protocol.draw_alone entry.now) seat.old found seat.new }
{
    board.shared.load::<Draw<K>>(seat, ROLE_WORD);
}

pub fn mark_word<L: Layout, K: Said<L::Part, L::Op, L::Reply>>(
    board: &Board<L>,
    seat: &mut BoardSeat<L>,
    cell: &Cell<L>,
    entry: &Entry<L::Op, L::Reply>,
)
    requires says { K.becomes ≡ draws_at (cell.now ∷ []) entry.now }
    requires may { MayTake L.Layout board.now.shared.table_id board.now.shared.key (protocol.draw_mark cell.now entry.now) seat.old }
    ensures { (found : ℕ) → HasTaken L.Layout board.now.shared.key (protocol.draw_mark cell.now entry.now) seat.old found seat.new }
{
    let number = cell.number as usize;
    board.shared.load::<Draw<K>>(seat, lock_word(number));
}

/// The entry is the pass's next one, of this operation with this reply. Nothing is made of them here.
#[inline(always)]
pub fn call_word<L: Layout, K: Said<L::Part, L::Op, L::Reply>>(
    board: &Board<L>,
    seat: &mut BoardSeat<L>,
    cells: &[Cell<L>],
    op: &L::Op,
    reply: &L::Reply,
)
    requires agree { AgreeOn (layouts_by L.Layout board.now.shared.key) }
    requires says { K.becomes ≡ draws_at cells.now (entry_at cells.now op.now reply.now (pass_in seat.old.me.0)) }
    requires may { MayTake L.Layout board.now.shared.table_id board.now.shared.key (protocol.draw_call cells.now op.now reply.now) seat.old }
    ensures { (found : ℕ) → HasTaken L.Layout board.now.shared.key (protocol.draw_call cells.now op.now reply.now) seat.old found seat.new }
{
    let number = first_of(cells) as usize;
    board.shared.load::<Draw<K>>(seat, lock_word(number));
}

/// The number of the first cell.
pub fn first_of<P: Drop, O, R>(cells: &[Content<P, O, R>]) -> u32
    ensures first { result ≡ first_cell (numbers_of cells.now) }
    ensures few { result < 320 }
{
    match cells.first() {
        Some(cell) => cell.number,
        None => 0,
    }
}
