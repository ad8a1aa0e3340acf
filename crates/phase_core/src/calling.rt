//! Events of a call: the look-up, the miss, and the mediator.
ghost use Rattle.std.specs.Prelude.{◌≡◌, ◌<◌, length};
ghost use Rattle.phase_core.specs.Event.{LookUp, RootLoad, Install, Knock, StepOut, EndCall};
ghost use Rattle.phase_core.specs.Effects.{place_found};
ghost use Rattle.phase_core.specs.Events.{Applies};
ghost use Rattle.phase_core.specs.Sound.{IsSound};

use crate::caller::Place;
use crate::object::LocalEntry;
use crate::state::PhaseState;

impl LocalEntry {
    /// Where a look-up that finds the entry leads.
    fn leads(&self, object: u32) -> Place
        ensures { result ≡ place_found self.now.tag object self.now.incarnation }
    {
        if self.tag == 0 {
            Place::Missed(object, self.incarnation)
        } else if self.tag == 1 {
            Place::Direct(object, self.incarnation)
        } else {
            Place::AtMediator(object)
        }
    }
}

/// The caller's processor's entry is read.
#[tactic(auto, using(crate::proofs::Ranges::call_ranges))]
pub(crate) fn look_up(state: &mut PhaseState, c: u32, o: u32) -> bool
    requires sound { IsSound state.old }
    requires caller { c < length state.old.turns.callers }
    requires object { o < length state.old.objects }
    ensures { Applies result state.old state.new (LookUp c o) }
{
    let turn = state.turn(c as usize);
    let p = turn.proc as usize;
    if turn.active.is_none() || !matches!(state.caller(c as usize).place, Place::Out) {
        return false;
    }
    let entry = state.entry(o as usize, p);
    state.read_row(c as usize, o, entry.incarnation, entry.leads(o));
    true
}

/// The root of the object is read.
#[tactic(auto, using(crate::proofs::Ranges::call_ranges))]
pub(crate) fn root_load(state: &mut PhaseState, c: u32, o: u32) -> bool
    requires sound { IsSound state.old }
    requires caller { c < length state.old.turns.callers }
    ensures { Applies result state.old state.new (RootLoad c o) }
{
    let Place::Missed(missed, _) = state.caller(c as usize).place else {
        return false;
    };
    missed == o
}

/// The entry that was missed leads to its cell now, or the call is over.
#[tactic(auto, using(crate::proofs::Ranges::entry_ranges))]
pub(crate) fn install(state: &mut PhaseState, c: u32, o: u32) -> bool
    requires sound { IsSound state.old }
    requires caller { c < length state.old.turns.callers }
    requires object { o < length state.old.objects }
    ensures { Applies result state.old state.new (Install c o) }
{
    let p = state.turn(c as usize).proc;
    let Place::Missed(missed, row) = state.caller(c as usize).place else {
        return false;
    };
    if missed != o {
        return false;
    }
    let entry = state.entry(o as usize, p as usize);
    if entry.tag == 0 && entry.incarnation == row {
        let direct = state.direct(o as usize, p, row);
        state.set_entry(o as usize, p as usize, direct);
        state.set_place(c as usize, Place::Direct(o, row));
    } else {
        state.set_place(c as usize, Place::Out);
    }
    true
}

/// The mediator counts the caller, and admits it where the object is not blocked.
#[tactic(auto, using(crate::proofs::Ranges::call_ranges))]
pub(crate) fn knock(state: &mut PhaseState, c: u32, o: u32) -> bool
    requires sound { IsSound state.old }
    requires caller { c < length state.old.turns.callers }
    requires object { o < length state.old.objects }
    ensures { Applies result state.old state.new (Knock c o) }
{
    let Place::AtMediator(at) = state.caller(c as usize).place else {
        return false;
    };
    if at != o {
        return false;
    }
    let word = state.word(o as usize);
    if word.block {
        state.set_place(c as usize, Place::Blocked(o));
    } else {
        state.read_row(
            c as usize,
            o,
            word.incarnation,
            Place::Tracked(o, word.incarnation),
        );
    }
    state.set_count(o as usize, word.count + 1);
    true
}

/// The mediator counts the caller no more.
#[tactic(auto, using(crate::proofs::Ranges::out_ranges))]
pub(crate) fn step_out(state: &mut PhaseState, c: u32) -> bool
    requires sound { IsSound state.old }
    requires caller { c < length state.old.turns.callers }
    ensures { Applies result state.old state.new (StepOut c) }
{
    match state.caller(c as usize).place {
        Place::Tracked(o, _) => {
            let word = state.word(o as usize);
            state.set_place(c as usize, Place::Out);
            state.set_count(o as usize, word.count - 1);
            true
        }
        Place::Blocked(o) => {
            let word = state.word(o as usize);
            state.set_place(c as usize, Place::Out);
            state.set_count(o as usize, word.count - 1);
            true
        }
        _ => false,
    }
}

/// The call is over, and was not counted.
#[tactic(auto, using(crate::proofs::Ranges::entry_ranges))]
pub(crate) fn end_call(state: &mut PhaseState, c: u32) -> bool
    requires sound { IsSound state.old }
    requires caller { c < length state.old.turns.callers }
    ensures { Applies result state.old state.new (EndCall c) }
{
    if !matches!(
        state.caller(c as usize).place,
        Place::Missed(_, _) | Place::Direct(_, _)
    ) {
        return false;
    }
    state.set_place(c as usize, Place::Out);
    true
}
