//! The step that hands a row on.
ghost use Rattle.std.specs.Prelude.{◌≡◌, ◌<◌};
ghost use Rattle.turn_core.specs.Stamps.{last_stamp};
ghost use Rattle.k42_board.specs.Drawing.{AreTold, numbers_of, stamp_next};
ghost use Rattle.k42_board.specs.Handing.{MayHandAt, entry_done};
ghost use Rattle.k42_board.specs.Protocol as protocol;
ghost use Rattle.k42_board.specs.Seen.{HasRoom, IsOf};
ghost use Rattle.k42_board.specs.Stepping.{HasDrawn, layouts_in};

use crate::begun::incarnation_at;
use crate::keeping::store;
use crate::pass::Pass;
use crate::swapping::object_at;
use crate::sys::Sys;
use k42_board::{Cell, hand_word, last_at, number_at, stamp_after, tell_all};
use k42_kinds::{Answer, Entry, Layout};
use std::marker::Brand;

/// The entry that tells of the swap.
fn done_entry<L: Layout>(
    sys: &Sys<L>,
    pass: &Pass<L>,
    cells: &[Cell<L>],
    to: &L,
    answer: Answer<L::Reply>,
) -> Entry<L::Op, L::Reply>
    requires may { MayHandAt (layouts_in L.Layout sys.now) sys.now.layouts cells.now to.now answer pass.now.view }
    ensures is { result ≡ entry_done sys.now.procs cells.now (L.act_of to.now) answer pass.now.view }
    ensures few { result.cell < 320 }
{
    let stamp = stamp_after(pass.clock, last_at(cells));
    Entry {
        stamp,
        caller: pass.number,
        index: pass.drawn,
        object: object_at(&pass.swap),
        incarnation: incarnation_at(&pass.last),
        cell: number_at(cells, sys.procs as usize),
        act: to.act(),
        answer,
        proc: pass.home,
        generation: None,
    }
}

/// The same at cells that stand side by side.
fn hand_at<L: Layout>(
    sys: &Sys<L>,
    pass: &mut Pass<L>,
    cells: &mut [Cell<L>],
    to: &L,
    answer: Answer<L::Reply>,
) -> u64
    requires ours { IsOf sys.now pass.old }
    requires shapes { pass.old.view.shapes ≡ sys.now.shapes }
    requires room { HasRoom pass.old }
    requires may { MayHandAt (layouts_in L.Layout sys.now) sys.now.layouts cells.old to.now answer pass.old.view }
    ensures stamp { result ≡ stamp_next pass.old.view (numbers_of cells.old) }
    ensures later { last_stamp pass.old.view.taker.mine < result }
    ensures drawn { HasDrawn L.Layout sys.now
        (protocol.hand_on sys.now.procs cells.old to.now (L.tag_of to.now) (entry_done sys.now.procs cells.old (L.act_of to.now) answer pass.old.view))
        (numbers_of cells.old) pass.old pass.new }
    ensures told { AreTold pass.new.view.notes cells.old cells.new }
{
    let entry = done_entry(sys, pass, cells, to, answer);
    let stamp = entry.stamp;
    hand_word::<L, Brand>(&sys.board, &mut pass.seat, cells, to, &entry);
    let procs = sys.procs as usize;
    tell_all(&sys.board, &mut pass.seat, cells, procs, true, stamp);
    pass.handed = Some(to.tag());
    pass.drawn += 1;
    pass.clock = stamp;
    store(pass.keep, &mut pass.kept, &entry);
    stamp
}

/// Closes the cells of the present row, which come first, and begins with the others the row of the new layout.
pub fn draw_done<L: Layout>(
    sys: &Sys<L>,
    pass: &mut Pass<L>,
    cells: &mut Vec<Cell<L>>,
    to: &L,
    answer: Answer<L::Reply>,
) -> u64
    requires ours { IsOf sys.now pass.old }
    requires shapes { pass.old.view.shapes ≡ sys.now.shapes }
    requires room { HasRoom pass.old }
    requires may { MayHandAt (layouts_in L.Layout sys.now) sys.now.layouts cells.old.items to.now answer pass.old.view }
    ensures stamp { result ≡ stamp_next pass.old.view (numbers_of cells.old.items) }
    ensures later { last_stamp pass.old.view.taker.mine < result }
    ensures drawn { HasDrawn L.Layout sys.now
        (protocol.hand_on sys.now.procs cells.old.items to.now (L.tag_of to.now) (entry_done sys.now.procs cells.old.items (L.act_of to.now) answer pass.old.view))
        (numbers_of cells.old.items) pass.old pass.new }
    ensures told { AreTold pass.new.view.notes cells.old.items cells.new.items }
{
    hand_at(sys, pass, cells.as_mut_slice(), to, answer)
}
