//! Graces that wait for activities, on one processor and on eight.
ghost use Rattle.std.specs.Prelude.{◌≡◌, ◌<◌, length};
ghost use Rattle.gen_core.specs.Events.{caller_of};
ghost use Rattle.gen_core.specs.Sound.{IsSound};

use gen_core::*;
use std::test::Fail;

// One event of a state with one processor and two callers.
fn does(state: &mut GenState, event: GenEvent) -> bool
    requires sound { IsSound state.old }
    requires one { length state.old.procs ≡ 1 }
    requires two { length state.old.callers ≡ 2 }
    requires in_range { caller_of event < 2 }
    ensures sound { IsSound state.new }
    ensures one { length state.new.procs ≡ 1 }
    ensures two { length state.new.callers ≡ 2 }
{
    has_room(state, &event) && apply(state, &event)
}

// Whether the caller of the one processor has nothing coming, and is so.
fn is_at(caller: &GenCaller, active: Option<u32>, grace: GraceAt, wait: u64) -> bool {
    let waits = caller.waits.as_slice() == [wait].as_slice();
    caller.proc == 0
        && caller.active == active
        && caller.grace == grace
        && caller.coming.is_none()
        && waits
}

// Whether the grace of caller 1 looks at the one processor, in whose former generation caller 0 is active.
fn is_waited_for(state: &GenState) -> bool {
    let flipped = GenProc {
        generation: 1,
        entered: 0,
        exits_even: 0,
        exits_odd: 0,
    };
    let [zero, one] = state.callers.as_slice() else {
        return false;
    };
    state.procs.as_slice() == [flipped].as_slice()
        && state.role == Some(1)
        && is_at(zero, Some(0), GraceAt::Idle, 0)
        && is_at(one, None, GraceAt::Looking(0), 1)
}

#[test]
fn a_grace_waits_for_the_caller_that_entered_before_it(rt: HostRuntime) -> Result<(), Fail> {
    let callers = vec![in rt.alloc(); 0, 0]?;
    let mut state = GenState::new(rt.alloc(), 1, callers)?;
    assert!(rt; does(&mut state, GenEvent::Enter(0)));
    assert!(rt; does(&mut state, GenEvent::TakeRole(1)));
    assert!(rt; does(&mut state, GenEvent::LookAhead(1)));
    assert!(rt; does(&mut state, GenEvent::Flip(1)));
    assert!(rt; is_waited_for(&state));
    assert!(rt; does(&mut state, GenEvent::Look(1)));
    assert!(rt; is_waited_for(&state));
    assert!(rt; does(&mut state, GenEvent::Leave(0)));
    assert!(rt; does(&mut state, GenEvent::Look(1)));
    assert_eq!(rt; state.callers[1].grace, GraceAt::Quiet);
    assert!(rt; !does(&mut state, GenEvent::GiveRole(0)));
    Ok(())
}

// One event of a state with eight processors and sixteen callers.
fn does_of_many(state: &mut GenState, event: GenEvent) -> bool
    requires sound { IsSound state.old }
    requires eight { length state.old.procs ≡ 8 }
    requires sixteen { length state.old.callers ≡ 16 }
    requires in_range { caller_of event < 16 }
    ensures sound { IsSound state.new }
    ensures eight { length state.new.procs ≡ 8 }
    ensures sixteen { length state.new.callers ≡ 16 }
{
    has_room(state, &event) && apply(state, &event)
}

// Two processors more are flipped by the last caller.
fn two_flips(state: &mut GenState) -> bool
    requires sound { IsSound state.old }
    requires eight { length state.old.procs ≡ 8 }
    requires sixteen { length state.old.callers ≡ 16 }
    ensures sound { IsSound state.new }
    ensures eight { length state.new.procs ≡ 8 }
    ensures sixteen { length state.new.callers ≡ 16 }
{
    let first = does_of_many(state, GenEvent::LookAhead(15));
    let second = does_of_many(state, GenEvent::Flip(15));
    let third = does_of_many(state, GenEvent::LookAhead(15));
    let fourth = does_of_many(state, GenEvent::Flip(15));
    first && second && third && fourth
}

// The last caller looks twice.
fn two_looks(state: &mut GenState) -> bool
    requires sound { IsSound state.old }
    requires eight { length state.old.procs ≡ 8 }
    requires sixteen { length state.old.callers ≡ 16 }
    ensures sound { IsSound state.new }
    ensures eight { length state.new.procs ≡ 8 }
    ensures sixteen { length state.new.callers ≡ 16 }
{
    let first = does_of_many(state, GenEvent::Look(15));
    let second = does_of_many(state, GenEvent::Look(15));
    first && second
}

#[test]
fn a_grace_of_eight_processors_and_sixteen_callers_becomes_quiet(
    rt: HostRuntime,
) -> Result<(), Fail> {
    let callers = vec![in rt.alloc(); 0, 1, 2, 3, 4, 5, 6, 7, 0, 1, 2, 3, 4, 5, 6, 7]?;
    let mut state = GenState::new(rt.alloc(), 8, callers)?;
    assert!(rt; does_of_many(&mut state, GenEvent::TakeRole(15)));
    assert!(rt; two_flips(&mut state));
    assert!(rt; two_flips(&mut state));
    assert!(rt; two_flips(&mut state));
    assert!(rt; two_flips(&mut state));
    assert_eq!(rt; state.callers[15].grace, GraceAt::Looking(0));
    assert!(rt; two_looks(&mut state));
    assert!(rt; two_looks(&mut state));
    assert!(rt; two_looks(&mut state));
    assert_eq!(rt; state.callers[15].grace, GraceAt::Looking(6));
    assert!(rt; two_looks(&mut state));
    assert_eq!(rt; state.callers[15].grace, GraceAt::Quiet);
    assert!(rt; does_of_many(&mut state, GenEvent::GiveRole(15)));
    assert!(rt; does_of_many(&mut state, GenEvent::TakeRole(0)));
    assert_eq!(rt; state.role, Some(0));
    Ok(())
}

// Sixty events of two processors and three callers, each with whether it is possible.
const EVENTS: [(GenEvent, bool); 60] = [
    (GenEvent::Enter(1), true),
    (GenEvent::TakeRole(0), true),
    (GenEvent::LookAhead(0), true),
    (GenEvent::Flip(0), true),
    (GenEvent::LookAhead(0), true),
    (GenEvent::Enter(0), false),
    (GenEvent::Leave(1), true),
    (GenEvent::Flip(0), true),
    (GenEvent::Enter(1), true),
    (GenEvent::Enter(2), true),
    (GenEvent::Look(0), true),
    (GenEvent::Look(0), true),
    (GenEvent::GiveRole(0), true),
    (GenEvent::Enter(0), true),
    (GenEvent::Leave(0), true),
    (GenEvent::TakeRole(0), true),
    (GenEvent::TakeRole(0), false),
    (GenEvent::LookAhead(0), true),
    (GenEvent::Flip(0), true),
    (GenEvent::LookAhead(0), true),
    (GenEvent::Flip(0), true),
    (GenEvent::Leave(1), true),
    (GenEvent::Leave(2), true),
    (GenEvent::TakeRole(0), false),
    (GenEvent::Enter(2), true),
    (GenEvent::Look(0), true),
    (GenEvent::Look(0), true),
    (GenEvent::Look(0), false),
    (GenEvent::GiveRole(0), true),
    (GenEvent::TakeRole(0), true),
    (GenEvent::LookAhead(0), true),
    (GenEvent::GiveRole(0), false),
    (GenEvent::Flip(0), true),
    (GenEvent::TakeRole(1), true),
    (GenEvent::LookAhead(0), true),
    (GenEvent::Flip(0), true),
    (GenEvent::Look(0), true),
    (GenEvent::Look(0), true),
    (GenEvent::Look(0), true),
    (GenEvent::TakeRole(1), true),
    (GenEvent::Leave(2), true),
    (GenEvent::Look(0), true),
    (GenEvent::Look(0), true),
    (GenEvent::TakeRole(0), false),
    (GenEvent::GiveRole(0), true),
    (GenEvent::Leave(0), false),
    (GenEvent::TakeRole(1), true),
    (GenEvent::GiveRole(2), false),
    (GenEvent::Enter(2), true),
    (GenEvent::Leave(2), true),
    (GenEvent::Look(1), false),
    (GenEvent::LookAhead(1), true),
    (GenEvent::Enter(2), true),
    (GenEvent::LookAhead(1), false),
    (GenEvent::Flip(1), true),
    (GenEvent::Flip(1), false),
    (GenEvent::LookAhead(1), true),
    (GenEvent::TakeRole(0), true),
    (GenEvent::LookAhead(2), false),
    (GenEvent::Enter(0), true),
];

fn number_of(event: &GenEvent) -> u32
    ensures { result ≡ caller_of event.now }
{
    match *event {
        GenEvent::Enter(c) => c,
        GenEvent::Leave(c) => c,
        GenEvent::TakeRole(c) => c,
        GenEvent::LookAhead(c) => c,
        GenEvent::Flip(c) => c,
        GenEvent::Look(c) => c,
        GenEvent::GiveRole(c) => c,
    }
}

// Whether events of three callers are answered as they are listed.
fn answers(state: &mut GenState, events: &[(GenEvent, bool)]) -> bool
    requires sound { IsSound state.old }
    requires two { length state.old.procs ≡ 2 }
    requires three { length state.old.callers ≡ 3 }
    ensures two { length state.new.procs ≡ 2 }
{
    for (event, possible) in events {
        if number_of(event) >= 3 || !has_room(state, event) || apply(state, event) != *possible {
            return false;
        }
    }
    true
}

#[test]
fn graces_and_activities_of_three_callers_go_as_listed(rt: HostRuntime) -> Result<(), Fail> {
    let callers = vec![in rt.alloc(); 0, 1, 0]?;
    let mut state = GenState::new(rt.alloc(), 2, callers)?;
    assert!(rt; answers(&mut state, EVENTS.as_slice()));
    assert_eq!(rt; state.role, Some(1));
    assert_eq!(rt;
        state.procs[0],
        GenProc {
            generation: 4,
            entered: 2,
            exits_even: 1,
            exits_odd: 3
        }
    );
    assert_eq!(rt;
        state.procs[1],
        GenProc {
            generation: 3,
            entered: 1,
            exits_even: 1,
            exits_odd: 1
        }
    );
    Ok(())
}
