//! Calls that meet a cell that another holds, and an object that a swap keeps shut.
use crate::tests::crews::{Three, closed, counter};
use crate::tests::held::{hold, see_added, wait_for_cell};
use crate::tests::shut::{be_let_in, be_shut_out, be_waited_for};
use crate::tests::steps::{call_to, come_in, go_home, swap_to};
use crate::tests::together::{add_at_a_held_cell, get_at_a_shut_object};
use k42_kinds::{Answer, Entry, Op, Reply};

mod crews;
mod held;
mod shut;
mod steps;
mod table;
mod together;

/// Whether the entries have just these answers, in this order.
fn are_answered(entries: &[Entry<Op, Reply>], due: &[Answer<Reply>]) -> bool {
    if entries.len() != due.len() {
        return false;
    }
    for place in 0..due.len() {
        if entries[place].answer != due[place] {
            return false;
        }
    }
    true
}

#[test]
fn a_call_at_a_shut_object_is_held_up_until_it_is_open(rt: HostRuntime) {
    let alloc = rt.alloc();
    let (system, crew) = counter(&rt, alloc);
    let Three {
        mut zero,
        mut one,
        mut two,
    } = crew;
    let mut swap = swap_to(&rt, &system, &one, 0, 0);
    be_waited_for(
        &rt, alloc, &system, &mut zero, &mut one, &mut two, &mut swap,
    );
    let mut get = call_to(&rt, &system, 0, Op::Get);
    be_shut_out(&rt, alloc, &system, &mut zero, &mut two, &mut get);
    be_let_in(
        &rt, alloc, &system, &mut zero, &mut one, &mut swap, &mut get,
    );
    let entries = closed(&rt, alloc, system, zero, one, two);
    let due = [Answer::Swapped(1), Answer::Replied(Reply::Number(0))];
    assert!(rt; are_answered(entries.as_slice(), due.as_slice()));
    let last = entries.last().expect(&rt, "an entry");
    assert!(rt; last.incarnation == 1);
}

#[test]
fn a_call_names_the_caller_that_holds_its_cell(rt: HostRuntime) {
    let alloc = rt.alloc();
    let (system, crew) = counter(&rt, alloc);
    let Three {
        mut zero,
        mut one,
        two,
    } = crew;
    let cell = hold(&rt, alloc, &system, &mut one);
    let mut add = call_to(&rt, &system, 0, Op::Add(5));
    wait_for_cell(&rt, alloc, &system, &mut zero, &mut one, cell, &mut add);
    see_added(&rt, alloc, &system, &mut one);
    closed(&rt, alloc, system, zero, one, two);
}

#[test]
fn a_call_waits_for_the_cell_that_another_holds(rt: HostRuntime) {
    let alloc = rt.alloc();
    let (system, crew) = counter(&rt, alloc);
    let Three {
        mut zero,
        mut one,
        two,
    } = crew;
    let cell = hold(&rt, alloc, &system, &mut one);
    come_in(&system, &mut zero);
    add_at_a_held_cell(&rt, alloc, &system, &mut zero, &mut one, cell);
    go_home(&system, &mut zero);
    see_added(&rt, alloc, &system, &mut one);
    closed(&rt, alloc, system, zero, one, two);
}

#[test]
fn a_call_waits_for_the_swap_that_keeps_its_object_shut(rt: HostRuntime) {
    let alloc = rt.alloc();
    let (system, crew) = counter(&rt, alloc);
    let Three {
        mut zero,
        mut one,
        mut two,
    } = crew;
    let mut swap = swap_to(&rt, &system, &one, 0, 0);
    be_waited_for(
        &rt, alloc, &system, &mut zero, &mut one, &mut two, &mut swap,
    );
    come_in(&system, &mut zero);
    get_at_a_shut_object(
        &rt, alloc, &system, &mut zero, &mut one, &mut two, &mut swap,
    );
    go_home(&system, &mut zero);
    closed(&rt, alloc, system, zero, one, two);
}
