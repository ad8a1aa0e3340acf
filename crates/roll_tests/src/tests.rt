use crate::tests::beside::{CALLS, roll_beside_calls};
use crate::tests::crews::{closed, counters_for, put_back, take_over};
use crate::tests::rolls::{is_held_up, roll_of, roll_through, rolled};
use crate::tests::steps::{come_in, go_home};
use co_system::{Cause, NoSwap, Swapped, To};
use k42_crews::last;
use k42_kinds::Act;

mod beside;
mod crews;
mod rolls;
mod steps;

/// Whether these are the answers of a roll.
fn are_answered(answers: &[Result<Swapped, NoSwap>], due: &[Swapped]) -> bool {
    if answers.len() != due.len() {
        return false;
    }
    for place in 0..due.len() {
        if answers[place] != Ok(due[place]) {
            return false;
        }
    }
    true
}

#[test]
fn a_plan_is_carried_out_by_two_passes(rt: HostRuntime) {
    let alloc = rt.alloc();
    let (system, passes) = counters_for(&rt, alloc, 1, 2, &[0, 0]);
    let spread = To::Layout(1);
    let shared = To::Layout(0);
    let plan = vec![in alloc; (0, spread), (1, spread), (0, shared)].expect(&rt, "memory");
    let end = roll_through(&rt, alloc, &system, passes, plan);
    let due = [Swapped::Done(1), Swapped::Done(1), Swapped::Done(2)];
    assert!(rt; are_answered(end.answers.as_slice(), due.as_slice()));
    let entries = closed(&rt, alloc, system, end.passes);
    assert!(rt; entries.len() == 3);
}

#[test]
fn two_passes_of_a_plan_meet_at_one_object(rt: HostRuntime) {
    let alloc = rt.alloc();
    let (system, mut passes) = counters_for(&rt, alloc, 1, 1, &[0, 0, 0]);
    let mut active = last(&system, &mut passes).expect(&rt, "a pass");
    come_in(&system, &mut active);
    let spread = To::Layout(1);
    let plan = vec![in alloc; (0, spread), (0, spread)].expect(&rt, "memory");
    let roll = roll_of(&rt, alloc, &system, passes, plan);
    let left = Some(Cause::Left { proc: 0, left: 1 });
    let roll = is_held_up(&rt, &system, roll, (left, None));
    go_home(&system, &mut active);
    let mut end = rolled(&rt, &system, roll).expect(&rt, "an end");
    let due = [Swapped::Done(1), Swapped::Busy(1)];
    assert!(rt; are_answered(end.answers.as_slice(), due.as_slice()));
    put_back(&rt, &system, &mut end.passes, active);
    let entries = closed(&rt, alloc, system, end.passes);
    assert!(rt; entries.len() == 2);
}

#[test]
fn a_plan_finds_an_object_gone_once_it_is_dead(rt: HostRuntime) {
    let alloc = rt.alloc();
    let (system, passes) = counters_for(&rt, alloc, 1, 1, &[0]);
    let spread = To::Layout(1);
    let plan = vec![in alloc; (0, To::Dead), (0, spread)].expect(&rt, "memory");
    let end = roll_through(&rt, alloc, &system, passes, plan);
    let due = [Swapped::Done(1), Swapped::Gone];
    assert!(rt; are_answered(end.answers.as_slice(), due.as_slice()));
    let entries = closed(&rt, alloc, system, end.passes);
    assert!(rt; entries.len() == 2);
}

#[test]
fn a_plan_watches_and_unwatches(rt: HostRuntime) {
    let alloc = rt.alloc();
    let (system, passes) = counters_for(&rt, alloc, 1, 1, &[0]);
    let spread = To::Layout(1);
    let plan = vec![in alloc; (0, To::Watch), (0, spread), (0, To::Unwatch)].expect(&rt, "memory");
    let end = roll_through(&rt, alloc, &system, passes, plan);
    let due = [Swapped::Done(1), Swapped::Done(2), Swapped::Done(3)];
    assert!(rt; are_answered(end.answers.as_slice(), due.as_slice()));
    let entries = closed(&rt, alloc, system, end.passes);
    let first = entries.first().expect(&rt, "an entry");
    assert!(rt; first.act == Act::Swap(To::Watch));
    let last = entries.last().expect(&rt, "an entry");
    assert!(rt; last.act == Act::Swap(To::Unwatch));
}

#[test]
fn a_plan_is_carried_out_beside_calls(rt: HostRuntime) {
    let alloc = rt.alloc();
    let (system, mut passes) = counters_for(&rt, alloc, 2, 4, &[0, 1, 0, 1, 0, 1]);
    let mut callers = Vec::new(alloc);
    take_over(&rt, &system, &mut passes, &mut callers, 3);
    let spread = To::Layout(1);
    let plan = vec![in alloc; (0, spread), (1, spread), (2, spread), (3, spread)].expect(
        &rt, "memory",
    );
    let (mut end, mut callers) = roll_beside_calls(&rt, alloc, &system, passes, plan, callers);
    let due = [Swapped::Done(1); 4];
    assert!(rt; are_answered(end.answers.as_slice(), due.as_slice()));
    take_over(&rt, &system, &mut callers, &mut end.passes, 3);
    let entries = closed(&rt, alloc, system, end.passes);
    assert!(rt; entries.len() == 3 * CALLS as usize + 4);
}
