use crate::tests::crews::{Three, closed, counters};
use crate::tests::polls::{both, stopped, swap_with, swapped, waits};
use crate::tests::steps::{come_in, go_home, step_to};
use co_system::{Cause, Swapped};
use k42_crews::call_once;
use k42_kinds::{Act, Answer, Op, Reply, To};

mod crews;
mod polls;
mod steps;

#[test]
fn two_swaps_wait_each_for_its_cause_and_end_together(rt: HostRuntime) {
    let alloc = rt.alloc();
    let (system, crew) = counters(&rt, alloc, 2);
    let Three { mut zero, one, two } = crew;
    come_in(&system, &mut zero);
    let first = swap_with(&rt, alloc, &system, one, 0);
    let first = waits(&rt, &system, first, Cause::Left { proc: 0, left: 1 });
    let second = swap_with(&rt, alloc, &system, two, 1);
    let second = waits(&rt, &system, second, Cause::RoleHeld { holder: 1 });
    go_home(&system, &mut zero);
    let (one, two) = both(&rt, &system, first, second).expect(&rt, "an end");
    assert!(rt; one.result == Ok(Swapped::Done(1)));
    assert!(rt; two.result == Ok(Swapped::Done(1)));
    let history = closed(&rt, alloc, system, zero, one.pass, two.pass);
    assert_eq!(rt; history.len(), 2);
}

#[test]
fn a_swap_that_is_stopped_is_stepped_on_by_hand(rt: HostRuntime) {
    let alloc = rt.alloc();
    let (system, crew) = counters(&rt, alloc, 1);
    let Three { mut zero, one, two } = crew;
    come_in(&system, &mut zero);
    let future = swap_with(&rt, alloc, &system, one, 0);
    let future = waits(&rt, &system, future, Cause::Left { proc: 0, left: 1 });
    let (mut swap, mut one) = stopped(&system, future);
    go_home(&system, &mut zero);
    step_to(&rt, alloc, &system, &mut swap, &mut one, Swapped::Done(1));
    let history = closed(&rt, alloc, system, zero, one, two);
    let entries = history.collect(alloc).expect(&rt, "memory");
    let answers = entries.first().map(|entry| entry.answer);
    assert_eq!(rt; answers, Some(Answer::Swapped(1)));
}

#[test]
fn a_swap_by_a_future_is_a_swap(rt: HostRuntime) {
    let alloc = rt.alloc();
    let (system, crew) = counters(&rt, alloc, 1);
    let Three { zero, one, two } = crew;
    let spread = To::Layout(1);
    let end = swapped(&rt, alloc, &system, one, 0, spread);
    assert!(rt; end.result == Ok(Swapped::Done(1)));
    let history = closed(&rt, alloc, system, zero, end.pass, two);
    assert_eq!(rt; history.len(), 1);
}

#[test]
fn a_watch_by_a_future_is_a_watch(rt: HostRuntime) {
    let alloc = rt.alloc();
    let (system, crew) = counters(&rt, alloc, 1);
    let Three { mut zero, one, two } = crew;
    let end = swapped(&rt, alloc, &system, one, 0, To::Watch);
    assert!(rt; end.result == Ok(Swapped::Done(1)));
    call_once(&rt, alloc, &system, &mut zero, 0, Op::Add(5)).expect(&rt, "a call");
    let seen = call_once(&rt, alloc, &system, &mut zero, 0, Op::Seen).expect(&rt, "a call");
    assert_eq!(rt; seen, Some(Reply::Number(1)));
    let end = swapped(&rt, alloc, &system, end.pass, 0, To::Unwatch);
    assert!(rt; end.result == Ok(Swapped::Done(2)));
    let history = closed(&rt, alloc, system, zero, end.pass, two);
    let entries = history.collect(alloc).expect(&rt, "memory");
    let first = entries.first().map(|entry| entry.act);
    assert_eq!(rt; first, Some(Act::Swap(To::Watch)));
    let last = entries.last().map(|entry| entry.act);
    assert_eq!(rt; last, Some(Act::Swap(To::Unwatch)));
}
