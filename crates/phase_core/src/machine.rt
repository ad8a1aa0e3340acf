//! Every event of the machine, passed to the room that carries it out.
ghost use Rattle.std.specs.Prelude.{◌≡◌, ◌<◌, ◌↔◌, length, IsTrue};
ghost use Rattle.phase_core.specs.Event.{event_seen, caller_of, NamesObjects};
ghost use Rattle.phase_core.specs.Events.{Applies};
ghost use Rattle.phase_core.specs.Room.{HasRoomFor};
ghost use Rattle.phase_core.specs.Sound.{IsSound};

use crate::calling::{end_call, install, knock, look_up, root_load, step_out};
use crate::event::PhaseEvent;
use crate::state::PhaseState;
use crate::swapping::{begin, block, clear, interpose, open_entry, try_move, turn_over, unblock};
use crate::taking::take_role;
use crate::turning::{free, turn};

fn step(state: &mut PhaseState, event: &PhaseEvent) -> bool
    requires sound { IsSound state.old }
    requires caller { caller_of (event_seen event.now) < length state.old.turns.callers }
    requires objects { NamesObjects (length state.old.objects) (event_seen event.now) }
    requires room { HasRoomFor state.old (event_seen event.now) }
    ensures { Applies result state.old state.new (event_seen event.now) }
{
    match event {
        PhaseEvent::Turn(event) => turn(state, event),
        PhaseEvent::TakeRole(c, notes) => take_role(state, *c, notes),
        PhaseEvent::LookUp(c, o) => look_up(state, *c, *o),
        PhaseEvent::RootLoad(c, o) => root_load(state, *c, *o),
        PhaseEvent::Install(c, o) => install(state, *c, *o),
        PhaseEvent::Knock(c, o) => knock(state, *c, *o),
        PhaseEvent::StepOut(c) => step_out(state, *c),
        PhaseEvent::EndCall(c) => end_call(state, *c),
        PhaseEvent::Begin(c, o) => begin(state, *c, *o),
        PhaseEvent::Interpose(c) => interpose(state, *c),
        PhaseEvent::Block(c) => block(state, *c),
        PhaseEvent::Move(c) => try_move(state, *c),
        PhaseEvent::TurnOver(c, layout) => turn_over(state, *c, *layout),
        PhaseEvent::Unblock(c) => unblock(state, *c),
        PhaseEvent::Open(c) => open_entry(state, *c),
        PhaseEvent::Clear(c) => clear(state, *c),
        PhaseEvent::Free(c, o) => free(state, *c, *o),
    }
}

/// Whether the count that an event raises, where it raises one, can rise.
#[tactic(auto, using(crate::proofs::Ranges::turns_sound, crate::proofs::Reached::turn_there))]
pub fn has_room(state: &PhaseState, event: &PhaseEvent) -> bool
    requires sound { IsSound state.now }
    requires caller { caller_of (event_seen event.now) < length state.now.callers }
    ensures { IsTrue result ↔ HasRoomFor state.now (event_seen event.now) }
{
    let PhaseEvent::Turn(event) = event else {
        return true;
    };
    gen_core::has_room(&state.turns, event)
}

/// One event. An event that is not possible answers false.
pub fn apply(state: &mut PhaseState, event: &PhaseEvent) -> bool
    requires sound { IsSound state.old }
    requires caller { caller_of (event_seen event.now) < length state.old.callers }
    requires objects { NamesObjects (length state.old.objects) (event_seen event.now) }
    requires room { HasRoomFor state.old (event_seen event.now) }
    ensures applies { Applies result state.old state.new (event_seen event.now) }
    ensures sound { IsSound state.new }
    ensures procs { length state.new.turns.procs ≡ length state.old.turns.procs }
    ensures callers { length state.new.callers ≡ length state.old.callers }
    ensures objects { length state.new.objects ≡ length state.old.objects }
{
    step(state, event)
}
