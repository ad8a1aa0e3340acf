//! The steps that draw entries.
ghost use Rattle.std.specs.Prelude.{◌≡◌, ◌<◌, ℕ, [], ◌∷◌};
ghost use Rattle.turn_core.specs.Stamps.{last_stamp};
ghost use Rattle.k42_board.specs.Drawing.{AgreeOn, MayDrawAlone, MayDrawMark, MayDrawCall, IsDrawer, IsTold, AreTold, entry_alone, entry_mark, numbers_of, number_told, stamp_next};
ghost use Rattle.k42_board.specs.Protocol as protocol;
ghost use Rattle.k42_board.specs.Seen.{HasRoom, IsOf};
ghost use Rattle.k42_board.specs.Stepping.{HasDrawn, TakesIn, layouts_in};

use crate::begun::{incarnation_at, object_begun_in};
use crate::keeping::{store, store_call};
use crate::pass::Pass;
use crate::sys::Sys;
use crate::tabling::{object_in, row_in};
use k42_board::{
    Cell, LastBegin, alone_word, call_word, first_of, last_at, mark_word, stamp_after, tell_all,
    tell_cell,
};
use k42_kinds::{Act, Answer, Entry, Layout};
use std::marker::Brand;

/// The number of the swap that was refused or given up.
fn number_in<R>(answer: &Answer<R>) -> u32
    ensures { result ≡ number_told answer.now }
{
    match *answer {
        Answer::Busy(number) | Answer::Abandoned(number) => number,
        _ => 0,
    }
}

/// Draws, at no cell, that a swap was refused by another, or given up.
pub fn draw_alone<L: Layout>(
    sys: &Sys<L>,
    pass: &mut Pass<L>,
    act: Act<L::Op>,
    answer: Answer<L::Reply>,
) -> u64
    requires ours { IsOf sys.now pass.old }
    requires room { HasRoom pass.old }
    requires may { MayDrawAlone act answer pass.old.view }
    ensures stamp { result ≡ stamp_next pass.old.view [] }
    ensures later { last_stamp pass.old.view.taker.mine < result }
    ensures drawer { IsDrawer pass.old pass.new }
    ensures takes { (found : ℕ) → TakesIn L.Layout sys.now (protocol.draw_alone (entry_alone pass.old.view act answer)) pass.old found pass.new }
{
    let stamp = stamp_after(pass.clock, 0);
    let entry = Entry {
        stamp,
        caller: pass.number,
        index: pass.drawn,
        object: object_begun_in(&pass.last),
        incarnation: number_in(&answer).saturating_sub(1),
        cell: 0,
        act,
        answer,
        proc: pass.home,
        generation: None,
    };
    alone_word::<L, Brand>(&sys.board, &mut pass.seat, &entry);
    pass.drawn += 1;
    pass.clock = stamp;
    store(pass.keep, &mut pass.kept, &entry);
    stamp
}

/// Draws, at the first cell of the present row, that a swap found its object over.
pub fn draw_mark<L: Layout>(
    sys: &Sys<L>,
    pass: &mut Pass<L>,
    cell: &mut Cell<L>,
    act: Act<L::Op>,
    answer: Answer<L::Reply>,
) -> u64
    requires ours { IsOf sys.now pass.old }
    requires room { HasRoom pass.old }
    requires may { MayDrawMark cell.old act answer pass.old.view }
    ensures stamp { result ≡ stamp_next pass.old.view (cell.old.number ∷ []) }
    ensures later { last_stamp pass.old.view.taker.mine < result }
    ensures drawn { HasDrawn L.Layout sys.now (protocol.draw_mark cell.old (entry_mark pass.old.view cell.old.number act answer)) (cell.old.number ∷ []) pass.old pass.new }
    ensures told { IsTold pass.new.view.notes cell.old cell.new }
{
    let stamp = stamp_after(pass.clock, cell.last_stamp());
    let entry = Entry {
        stamp,
        caller: pass.number,
        index: pass.drawn,
        object: object_begun_in(&pass.last),
        incarnation: incarnation_at(&pass.last),
        cell: cell.number(),
        act,
        answer,
        proc: pass.home,
        generation: None,
    };
    mark_word::<L, Brand>(&sys.board, &mut pass.seat, cell, &entry);
    let closed = cell.is_closed();
    tell_cell(&sys.board, &mut pass.seat, cell, closed, stamp);
    pass.drawn += 1;
    pass.clock = stamp;
    store(pass.keep, &mut pass.kept, &entry);
    stamp
}

/// Draws a call at cells that stand side by side.
#[inline(always)]
fn draw_at<L: Layout>(
    sys: &Sys<L>,
    pass: &mut Pass<L>,
    cells: &mut [Cell<L>],
    op: &L::Op,
    reply: &L::Reply,
) -> u64
    requires ours { IsOf sys.now pass.old }
    requires agree { AgreeOn (layouts_in L.Layout sys.now) }
    requires room { HasRoom pass.old }
    requires may { MayDrawCall (layouts_in L.Layout sys.now) sys.now.layouts cells.old op.now reply.now pass.old.view }
    ensures stamp { result ≡ stamp_next pass.old.view (numbers_of cells.old) }
    ensures later { last_stamp pass.old.view.taker.mine < result }
    ensures drawn { HasDrawn L.Layout sys.now (protocol.draw_call cells.old op.now reply.now) (numbers_of cells.old) pass.old pass.new }
    ensures told { AreTold pass.new.view.notes cells.old cells.new }
{
    let stamp = stamp_after(pass.clock, last_at(cells));
    let number = first_of(cells);
    call_word::<L, Brand>(&sys.board, &mut pass.seat, cells, op, reply);
    tell_all(&sys.board, &mut pass.seat, cells, 0, false, stamp);
    pass.drawn += 1;
    pass.clock = stamp;
    let object = object_in(&pass.place);
    let row = row_in(&pass.place);
    store_call(
        pass.keep,
        &mut pass.kept,
        stamp,
        object,
        row,
        number,
        pass.active,
        op,
        reply,
    );
    stamp
}

/// Draws a call that was stepped, at the cells that its layout names.
pub fn draw_call<L: Layout>(
    sys: &Sys<L>,
    pass: &mut Pass<L>,
    cells: &mut Vec<Cell<L>>,
    op: &L::Op,
    reply: &L::Reply,
) -> u64
    requires ours { IsOf sys.now pass.old }
    requires room { HasRoom pass.old }
    requires may { MayDrawCall (layouts_in L.Layout sys.now) sys.now.layouts cells.old.items op.now reply.now pass.old.view }
    ensures stamp { result ≡ stamp_next pass.old.view (numbers_of cells.old.items) }
    ensures later { last_stamp pass.old.view.taker.mine < result }
    ensures drawn { HasDrawn L.Layout sys.now (protocol.draw_call cells.old.items op.now reply.now) (numbers_of cells.old.items) pass.old pass.new }
    ensures told { AreTold pass.new.view.notes cells.old.items cells.new.items }
{
    draw_at(sys, pass, cells.as_mut_slice(), op, reply)
}
