//! A swap begins.
ghost use Rattle.std.specs.Prelude.{◌≡◌, ◌≤◌};
ghost use Rattle.k42_limits.specs.declared.TheConstants.{LAST_INCARNATION};
ghost use Rattle.k42_board.specs.Log.{with_log};
ghost use Rattle.k42_board.specs.Protocol as protocol;
ghost use Rattle.k42_board.specs.Seen.{IsPassOf, IsSamePass};
ghost use Rattle.k42_board.specs.Stepping.{MayStep, layouts_in};
ghost use Rattle.k42_board.specs.Values.{incarnation_in};
ghost use Rattle.k42_board.specs.Views.{live_at, word_begun};
ghost use Rattle.k42_mediator.specs.Answers.{phase_in, swap_in, begun_in};
ghost use Rattle.k42_mediator.specs.Swaps.{begun_now, HasTried};

use crate::answers::{Begun, Phase};
use k42_board::{
    incarnation_in, is_blocked, is_complete, is_moving, is_over, is_swapped, layout_in,
};
use k42_kinds::Layout;
use k42_rule::{Pass, Sys, begin_step, clear_step};
use phase_core::SwapAt;

/// How far the swap is of which the word tells.
fn phase_of(word: u64) -> Phase
    ensures { result ≡ phase_in word }
{
    if is_complete(word) {
        Phase::Complete
    } else if is_moving(word) {
        Phase::Transfer
    } else if is_blocked(word) {
        Phase::Block
    } else {
        Phase::Forward
    }
}

/// The number of the swap of which the word tells.
fn number_of(word: u64) -> u32
    requires { incarnation_in word ≤ LAST_INCARNATION }
    ensures { result ≡ swap_in word }
{
    let incarnation = incarnation_in(word);
    if is_complete(word) {
        incarnation
    } else {
        incarnation + 1
    }
}

/// What a begin answers that found this word of an object with so many live layouts.
fn answer_to(word: u64, live: u32) -> Begun
    requires { incarnation_in word ≤ LAST_INCARNATION }
    ensures { result ≡ begun_in live word }
{
    if layout_in(word) == live {
        Begun::Gone
    } else if is_over(word, live) {
        Begun::Spent
    } else if is_swapped(word) {
        Begun::Busy {
            number: number_of(word),
            phase: phase_of(word),
        }
    } else {
        Begun::Begun
    }
}

/// Begins a swap of the object. After every other answer than `Begun` the pass is idle, and no swap of it is under way.
pub fn begin<L: Layout>(sys: &Sys<L>, pass: &mut Pass<L>, object: u32) -> Begun
    requires ours { IsPassOf sys.now pass.old }
    requires may { MayStep L.Layout sys.now (protocol.begin object) pass.old }
    ensures same { IsSamePass pass.old pass.new }
    ensures answer { result ≡ begun_in (live_at pass.old.view object) (word_begun pass.new.view.last) }
    ensures knows { pass.new.view ≡ with_log pass.new.view.log (begun_now object (word_begun pass.new.view.last) pass.old.view) }
    ensures begun { HasTried (layouts_in L.Layout sys.now) sys.now.layouts pass.old.seat object pass.old.view pass.new.view }
{
    let found = begin_step(sys, pass, object);
    if let SwapAt::Refused(_) = pass.swap() {
        clear_step(sys, pass);
    }
    answer_to(found, sys.declared(object).live())
}
