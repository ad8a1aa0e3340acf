//! Every event of the machine, tested and then carried out.
ghost use Rattle.std.specs.Prelude.{◌≡◌, ◌<◌, ◌↔◌, length, IsTrue};
ghost use Rattle.gen_core.specs.Events.{caller_of, Applies};
ghost use Rattle.gen_core.specs.Room.{HasRoomFor};
ghost use Rattle.gen_core.specs.Sound.{IsSound};

use crate::event::GenEvent;
use crate::state::{GenProc, GenState, GraceAt};

#[tactic(auto, using(crate::proofs::Ranges::home_there))]
fn enter(state: &mut GenState, c: usize) -> bool
    requires sound { IsSound state.old }
    requires in_range { c < length state.old.callers }
    requires room { HasRoomFor state.old (GenEvent.Enter c) }
    ensures { Applies result state.old state.new (GenEvent.Enter c) }
{
    let caller = state.caller(c);
    let p = caller.proc as usize;
    if !caller.is_free() {
        return false;
    }
    let proc = state.processor(p);
    state.set_active(c, Some(proc.generation));
    state.set_processor(
        p,
        GenProc {
            entered: proc.entered + 1,
            ..proc
        },
    );
    true
}

#[tactic(auto, using(crate::proofs::Ranges::home_there))]
fn leave(state: &mut GenState, c: usize) -> bool
    requires sound { IsSound state.old }
    requires in_range { c < length state.old.callers }
    requires room { HasRoomFor state.old (GenEvent.Leave c) }
    ensures { Applies result state.old state.new (GenEvent.Leave c) }
{
    let caller = state.caller(c);
    let p = caller.proc as usize;
    let Some(generation) = caller.active else {
        return false;
    };
    let even = generation % 2 == 0;
    let proc = state.processor(p);
    state.set_active(c, None);
    state.set_processor(p, proc.with_exit(even));
    true
}

fn take_role(state: &mut GenState, c: u32) -> bool
    requires sound { IsSound state.old }
    requires in_range { c < length state.old.callers }
    ensures { Applies result state.old state.new (GenEvent.TakeRole c) }
{
    if !state.caller(c as usize).is_free() || !state.can_flip_all() {
        return false;
    }
    if state.role.is_none() {
        state.set_grace(c as usize, GraceAt::Flipping(0));
        state.set_role(Some(c));
    }
    true
}

#[tactic(auto, using(crate::proofs::Ranges::flipping_there))]
fn look_ahead(state: &mut GenState, c: usize) -> bool
    requires sound { IsSound state.old }
    requires in_range { c < length state.old.callers }
    ensures { Applies result state.old state.new (GenEvent.LookAhead c) }
{
    let caller = state.caller(c);
    let GraceAt::Flipping(p) = caller.grace else {
        return false;
    };
    if caller.coming.is_some() {
        return false;
    }
    let coming = state.processor(p as usize).other_exits();
    state.set_coming(c, coming);
    true
}

#[tactic(auto, using(crate::proofs::Ranges::flipping))]
fn flip(state: &mut GenState, c: usize) -> bool
    requires sound { IsSound state.old }
    requires in_range { c < length state.old.callers }
    ensures { Applies result state.old state.new (GenEvent.Flip c) }
{
    let caller = state.caller(c);
    let GraceAt::Flipping(p) = caller.grace else {
        return false;
    };
    let Some(coming) = caller.coming else {
        return false;
    };
    let proc = state.processor(p as usize);
    let grace = GraceAt::after_flip(p, state.processors());
    state.set_flipped(c, p as usize, proc.entered, grace);
    let flipped = GenProc {
        generation: proc.generation + 1,
        entered: coming,
        ..proc
    };
    state.set_processor(p as usize, flipped);
    true
}

#[tactic(auto, using(crate::proofs::Ranges::looking))]
fn look(state: &mut GenState, c: usize) -> bool
    requires sound { IsSound state.old }
    requires in_range { c < length state.old.callers }
    ensures { Applies result state.old state.new (GenEvent.Look c) }
{
    let caller = state.caller(c);
    let GraceAt::Looking(p) = caller.grace else {
        return false;
    };
    let wait = caller.waits[p as usize];
    if state.processor(p as usize).other_exits() == wait {
        let grace = GraceAt::after_look(p, state.processors());
        state.set_grace(c, grace);
    }
    true
}

fn give_role(state: &mut GenState, c: usize) -> bool
    requires sound { IsSound state.old }
    requires in_range { c < length state.old.callers }
    ensures { Applies result state.old state.new (GenEvent.GiveRole c) }
{
    let GraceAt::Quiet = state.caller(c).grace else {
        return false;
    };
    state.set_grace(c, GraceAt::Idle);
    state.set_role(None);
    true
}

fn step(state: &mut GenState, event: &GenEvent) -> bool
    requires sound { IsSound state.old }
    requires in_range { caller_of event.now < length state.old.callers }
    requires room { HasRoomFor state.old event.now }
    ensures { Applies result state.old state.new event.now }
{
    match *event {
        GenEvent::Enter(c) => enter(state, c as usize),
        GenEvent::Leave(c) => leave(state, c as usize),
        GenEvent::TakeRole(c) => take_role(state, c),
        GenEvent::LookAhead(c) => look_ahead(state, c as usize),
        GenEvent::Flip(c) => flip(state, c as usize),
        GenEvent::Look(c) => look(state, c as usize),
        GenEvent::GiveRole(c) => give_role(state, c as usize),
    }
}

#[tactic(auto, using(crate::proofs::Ranges::home_there))]
fn has_room_for_entry(state: &GenState, c: usize) -> bool
    requires sound { IsSound state.now }
    requires in_range { c < length state.now.callers }
    ensures { IsTrue result ↔ HasRoomFor state.now (GenEvent.Enter c) }
{
    let p = state.caller(c).proc as usize;
    state.processor(p).entered < u64::MAX
}

#[tactic(auto, using(crate::proofs::Ranges::home_there))]
fn has_room_for_exit(state: &GenState, c: usize) -> bool
    requires sound { IsSound state.now }
    requires in_range { c < length state.now.callers }
    ensures { IsTrue result ↔ HasRoomFor state.now (GenEvent.Leave c) }
{
    let caller = state.caller(c);
    let Some(generation) = caller.active else {
        return true;
    };
    let p = caller.proc as usize;
    state.processor(p).exits(generation % 2 == 0) < u64::MAX
}

/// Whether the count that an event raises, where it raises one, can rise.
pub fn has_room(state: &GenState, event: &GenEvent) -> bool
    requires sound { IsSound state.now }
    requires in_range { caller_of event.now < length state.now.callers }
    ensures { IsTrue result ↔ HasRoomFor state.now event.now }
{
    match *event {
        GenEvent::Enter(c) => has_room_for_entry(state, c as usize),
        GenEvent::Leave(c) => has_room_for_exit(state, c as usize),
        _ => true,
    }
}

/// One event. An event that is not possible answers false.
pub fn apply(state: &mut GenState, event: &GenEvent) -> bool
    requires sound { IsSound state.old }
    requires in_range { caller_of event.now < length state.old.callers }
    requires room { HasRoomFor state.old event.now }
    ensures applies { Applies result state.old state.new event.now }
    ensures sound { IsSound state.new }
    ensures callers { length state.new.callers ≡ length state.old.callers }
    ensures procs { length state.new.procs ≡ length state.old.procs }
{
    step(state, event)
}
