//! The event that takes the role, with notes of the rows that its grace may free.
ghost use Rattle.std.specs.Prelude.{◌≡◌, ◌<◌, length};
ghost use Rattle.std.specs.List.{All};
ghost use Rattle.phase_core.specs.Event.{TakeRoleWith};
ghost use Rattle.phase_core.specs.State.{visitor_at, put_visitor};
ghost use Rattle.phase_core.specs.Stages.{may_take};
ghost use Rattle.phase_core.specs.Effects.{role_taken_with, draining_from};
ghost use Rattle.phase_core.specs.Notes.{note_of, numbers_of, times_named, name_each_once, fit_notes, notes_own};
ghost use Rattle.phase_core.specs.Events.{Applies};
ghost use Rattle.phase_core.specs.Sound.{IsSound};

use crate::caller::SwapAt;
use crate::object::PhaseObject;
use crate::state::PhaseState;
use gen_core::GenEvent;

/// How many notes are of the object.
fn times_named(notes: &[(u32, u32)], object: u32) -> usize
    ensures { result ≡ times_named notes.now object }
{
    notes.iter().filter(|note| note.0 == object).count()
}

/// Whether no two notes are of one object.
fn name_each_once(notes: &[(u32, u32)]) -> bool
    ensures { result ≡ name_each_once notes.now }
{
    for note in notes {
        if times_named(notes, note.0) != 1 {
            return false;
        }
    }
    true
}

/// Whether each number fits its object.
fn fit_notes(objects: &[PhaseObject], notes: &[(u32, u32)]) -> bool
    requires { All (λ note. note.0 < length objects.now) notes.now }
    ensures { result ≡ fit_notes objects.now notes.now }
{
    for note in notes {
        if !objects[note.0 as usize].fits_note(note.1) {
            return false;
        }
    }
    true
}

fn notes_fit(state: &PhaseState, notes: &[(u32, u32)]) -> bool
    requires { All (λ note. note.0 < length state.now.objects) notes.now }
    ensures { result ≡ fit_notes state.now.objects notes.now }
{
    fit_notes(&state.objects, notes)
}

/// The number that the notes give the object.
fn note_of(notes: &[(u32, u32)], object: usize) -> Option<u32>
    ensures { result ≡ note_of notes.now object }
{
    for note in notes {
        if note.0 as usize == object {
            return Some(note.1);
        }
    }
    None
}

/// Each object gets the number that the notes give it.
#[tactic(auto, using(crate::proofs::Notes::numbers_of_more))]
pub(crate) fn note_all(noted: &mut [Option<u32>], notes: &[(u32, u32)])
    ensures { noted.new ≡ numbers_of notes.now (length noted.old) }
{
    for object in 0..noted.len() {
        noted[object] = note_of(notes, object);
    }
}

fn may_take(state: &PhaseState, c: usize) -> bool
    requires { c < length state.now.callers }
    ensures { result ≡ may_take (visitor_at state.now c).swap }
{
    matches!(state.caller(c).swap, SwapAt::Idle | SwapAt::Interposed(_))
}

/// Whether the note of the interposed object is its incarnation.
#[tactic(auto, using(crate::proofs::Ranges::swap_ranges))]
fn notes_own(state: &PhaseState, c: usize, notes: &[(u32, u32)]) -> bool
    requires sound { IsSound state.now }
    requires caller { c < length state.now.turns.callers }
    ensures { result ≡ notes_own state.now notes.now (visitor_at state.now c).swap }
{
    let SwapAt::Interposed(o) = state.caller(c).swap else {
        return true;
    };
    note_of(notes, o as usize) == Some(state.incarnation(o as usize))
}

impl SwapAt {
    /// The stage once its caller has taken the role.
    fn draining(self) -> SwapAt
        ensures { result ≡ draining_from self }
    {
        match self {
            SwapAt::Interposed(o) => SwapAt::Draining(o),
            swap => swap,
        }
    }
}

// The notes and the stage of a caller that has taken the role.
fn finish_take(state: &mut PhaseState, c: usize, notes: &[(u32, u32)])
    requires { c < length state.old.callers }
    ensures { state.new ≡ put_visitor state.old c
        (role_taken_with (visitor_at state.old c) (numbers_of notes.now (length (visitor_at state.old c).noted))) }
{
    let swap = state.caller(c).swap.draining();
    state.set_noted(c, notes, swap);
}

/// The role is taken, with notes.
#[tactic(auto, using(crate::proofs::Ranges::take_ranges))]
pub(crate) fn take_role(state: &mut PhaseState, c: u32, notes: &[(u32, u32)]) -> bool
    requires sound { IsSound state.old }
    requires caller { c < length state.old.turns.callers }
    requires objects { All (λ note. note.0 < length state.old.objects) notes.now }
    ensures { Applies result state.old state.new (TakeRoleWith c notes.now) }
{
    if !may_take(state, c as usize)
        || !name_each_once(notes)
        || !notes_fit(state, notes)
        || !notes_own(state, c as usize, notes)
    {
        return false;
    }
    let free = state.is_free();
    if !state.pass_on(&GenEvent::TakeRole(c)) {
        return false;
    }
    if free {
        finish_take(state, c as usize, notes);
    }
    true
}
