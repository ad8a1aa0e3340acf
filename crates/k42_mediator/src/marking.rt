//! A swap that found its object over draws that.
ghost use Rattle.std.specs.Prelude.{◌≡◌, ◌<◌, true, Some, length};
ghost use Rattle.k42_board.specs.Seen.{HasRoom, IsPassOf};
ghost use Rattle.k42_board.specs.Tabling.{is_over_in};
ghost use Rattle.k42_board.specs.Values.{answer_in};
ghost use Rattle.k42_board.specs.Views.{object_begun};
ghost use Rattle.k42_mediator.specs.Marks.{MayMark, IsMarkAnswer};

use crate::answers::Marked;
use crate::begun::last_of;
use crate::rows::give_next;
use k42_board::{cell_number, incarnation_in, layout_in};
use k42_kinds::{Act, Answer, Layout};
use k42_rule::{Pass, Sys, draw_mark, layouts_are_lawful, lock, take};

/// What the word of an object answers that has so many live layouts and is over.
fn answer_over<R>(word: u64, live: u32) -> Answer<R>
    requires { is_over_in live word ≡ true }
    ensures { answer_in live word ≡ Some result }
{
    if layout_in(word) == live {
        Answer::Gone
    } else {
        Answer::Spent
    }
}

/// Draws, at the first cell of the present row, what the last `begin` of the pass answered. Where another caller has
/// that cell, the pass may try again.
pub fn mark<L: Layout>(sys: &Sys<L>, pass: &mut Pass<L>, act: Act<L::Op>) -> Marked
    requires ours { IsPassOf sys.now pass.old }
    requires may { MayMark act pass.old.view }
    requires there { object_begun pass.old.view.last < length sys.now.layouts }
    requires room { HasRoom pass.old }
    ensures { IsMarkAnswer L.Layout sys.now result act pass.old pass.new }
{
    layouts_are_lawful(sys);
    let begin = last_of::<L>(pass);
    let answer = answer_over(begin.word, sys.declared(begin.object).live());
    let number = cell_number(begin.object, incarnation_in(begin.word), 0);
    let found = lock(sys, pass, number);
    if found != 0 {
        return Marked::Held {
            holder: (found - 1) as u32,
        };
    }
    let mut cell = take(sys, pass, number);
    draw_mark(sys, pass, &mut cell, act, answer);
    give_next(sys, pass, cell);
    Marked::Marked
}
