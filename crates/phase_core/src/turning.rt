//! Events of activities and graces, and the freeing of rows.
ghost use Rattle.std.specs.Prelude.{◌≡◌, ◌<◌, length};
ghost use Rattle.gen_core.specs.State.{caller_at};
ghost use Rattle.phase_core.specs.Event.{Turn, Free};
ghost use Rattle.phase_core.specs.State.{visitor_at, put_visitor};
ghost use Rattle.phase_core.specs.Effects.{visitor_turned};
ghost use Rattle.phase_core.specs.Events.{may_turn, Applies};
ghost use Rattle.phase_core.specs.Turns.{turning};
ghost use Rattle.phase_core.specs.Room.{HasRoomToTurn};
ghost use Rattle.phase_core.specs.Sound.{IsSound};

use crate::caller::{Place, SwapAt};
use crate::object::Word;
use crate::state::PhaseState;
use gen_core::{GenEvent, GraceAt};

#[tactic(auto, using(crate::proofs::Ranges::swap_ranges))]
fn may_give(state: &PhaseState, c: usize) -> bool
    requires sound { IsSound state.now }
    requires caller { c < length state.now.turns.callers }
    ensures { result ≡ may_turn state.now (GenEvent.GiveRole c) }
{
    let SwapAt::Drained(o) = state.caller(c).swap else {
        return true;
    };
    let word = state.word(o as usize);
    word.incarnation <= word.freed
}

#[tactic(auto, using(crate::proofs::Ranges::swap_ranges))]
fn may_turn(state: &PhaseState, event: &GenEvent) -> bool
    requires sound { IsSound state.now }
    requires caller { turning event.now < length state.now.turns.callers }
    ensures { result ≡ may_turn state.now event.now }
{
    match *event {
        GenEvent::Enter(c) => matches!(state.caller(c as usize).swap, SwapAt::Idle),
        GenEvent::Leave(c) => matches!(state.caller(c as usize).place, Place::Out),
        GenEvent::TakeRole(_) => false,
        GenEvent::GiveRole(c) => may_give(state, c as usize),
        _ => true,
    }
}

#[tactic(auto, using(crate::proofs::Ranges::turn_ranges))]
fn finish_look(state: &mut PhaseState, c: usize)
    requires there { c < length state.old.callers }
    requires turn { c < length state.old.turns.callers }
    ensures { state.new ≡ put_visitor state.old c
        (visitor_turned (GenEvent.Look c) (caller_at state.old.turns c).grace (visitor_at state.old c)) }
{
    let GraceAt::Quiet = state.turn(c).grace else {
        return;
    };
    if let SwapAt::Draining(o) = state.caller(c).swap {
        state.set_swap(c, SwapAt::Drained(o));
    }
}

// What the event of the generations does to its caller.
#[tactic(auto, using(crate::proofs::Ranges::turn_ranges))]
fn finish(state: &mut PhaseState, event: &GenEvent)
    requires there { turning event.now < length state.old.callers }
    requires turn { turning event.now < length state.old.turns.callers }
    ensures { state.new ≡ put_visitor state.old (turning event.now)
        (visitor_turned event.now (caller_at state.old.turns (turning event.now)).grace
        (visitor_at state.old (turning event.now))) }
{
    match *event {
        GenEvent::Leave(c) => state.clear_read(c as usize),
        GenEvent::Look(c) => finish_look(state, c as usize),
        GenEvent::GiveRole(c) => state.clear_freeing(c as usize),
        _ => {}
    }
}

/// An event of the generations.
#[tactic(auto, using(crate::proofs::Ranges::turn_ranges))]
pub(crate) fn turn(state: &mut PhaseState, event: &GenEvent) -> bool
    requires sound { IsSound state.old }
    requires caller { turning event.now < length state.old.turns.callers }
    requires room { HasRoomToTurn state.old event.now }
    ensures { Applies result state.old state.new (Turn event.now) }
{
    if !may_turn(state, event) || !state.pass_on(event) {
        return false;
    }
    finish(state, event);
    true
}

/// The rows below the noted number are freed.
#[tactic(auto, using(crate::proofs::Ranges::free_ranges))]
pub(crate) fn free(state: &mut PhaseState, c: u32, o: u32) -> bool
    requires sound { IsSound state.old }
    requires caller { c < length state.old.turns.callers }
    requires object { o < length state.old.objects }
    ensures { Applies result state.old state.new (Free c o) }
{
    let quiet = matches!(state.turn(c as usize).grace, GraceAt::Quiet);
    let Some(noted) = state.note(c as usize, o as usize) else {
        return false;
    };
    if !quiet {
        return false;
    }
    let word = state.word(o as usize);
    if word.freed < noted {
        state.set_freeing(c as usize, o as usize, word.freed, noted);
        state.set_word(
            o as usize,
            &Word {
                freed: noted,
                ..word
            },
        );
    }
    true
}
