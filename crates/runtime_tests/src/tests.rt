//! Plans that are refused, and calls, swaps and destroys that meet on one thread.
use crate::tests::crews::{Three, closed, counter, counters, ended, kept_of, listed, started};
use crate::tests::ending::{
    add_two_million, destroy_once, find_gone, free_once, swap_and_keep_none,
};
use crate::tests::sections::{add_thrice, add_with_last, take_section};
use crate::tests::steps::{ask_once, swap_to_layout};
use crate::tests::waiting::{free_in_turn, swap_beside};
use crate::tests::watching::{
    Deed, call_of, called, find_layout, follow, refuse_beside, swap_and_call, swapped,
    watch_and_call,
};
use co_system::{Keep, Plan, PlanFault, Swapped, kept_as};
use k42_crews::{end, last, section};
use k42_kinds::{Act, Answer, Entry, KindName, LayoutName, Op, Reply, To};

mod crews;
mod ending;
mod sections;
mod steps;
mod waiting;
mod watching;

/// Whether the entries have just these answers, in this order.
fn are_answered(entries: &[Entry<Op, Reply>], due: &[Answer<Reply>]) -> bool {
    if entries.len() != due.len() {
        return false;
    }
    for place in 0..due.len() {
        if entries[place].answer != due[place] {
            return false;
        }
    }
    true
}

/// Whether the entries tell just this, in this order.
fn are_told(entries: &[Entry<Op, Reply>], due: &[Deed]) -> bool {
    if entries.len() != due.len() {
        return false;
    }
    for place in 0..due.len() {
        if entries[place].act != due[place].0 || entries[place].answer != due[place].1 {
            return false;
        }
    }
    true
}

#[test]
fn a_plan_is_refused_for_its_first_fault(rt: HostRuntime) {
    let alloc = rt.alloc();
    let cases = [
        (0, 1, [0, 0], 2, PlanFault::Procs),
        (9, 1, [0, 0], 2, PlanFault::Procs),
        (2, 17, [0, 0], 2, PlanFault::Objects),
        (2, 1, [0, 0], 0, PlanFault::Callers),
        (2, 1, [0, 2], 2, PlanFault::Processor { caller: 1 }),
    ];
    for (procs, objects, homes, callers, due) in cases {
        let objects = vec![in alloc; counter(); objects].expect(&rt, "memory");
        let mut homes = homes.as_slice().to_vec(alloc).expect(&rt, "memory");
        homes.truncate(callers);
        assert!(rt; Plan::new(procs, objects, homes, Keep::All).err() == Some(due));
    }
}

#[test]
fn a_swap_waits_for_an_activity_that_calls_on(rt: HostRuntime) {
    let alloc = rt.alloc();
    let (system, crew) = counters(&rt, alloc, 1, Keep::All);
    let Three {
        mut zero,
        mut one,
        mut two,
    } = crew;
    swap_beside(&rt, alloc, &system, &mut zero, &mut one, &mut two);
    free_in_turn(&rt, &system, &mut one, &mut two);
    let sum = Reply::Number(5);
    ask_once(&rt, alloc, &system, &mut zero, 0, Op::Get, sum);
    let entries = closed(&rt, alloc, system, zero, one, two);
    let due = [
        Answer::Replied(Reply::Done),
        Answer::Busy(1),
        Answer::Replied(Reply::Number(5)),
        Answer::Swapped(1),
        Answer::Replied(Reply::Number(5)),
    ];
    assert!(rt; are_answered(entries.as_slice(), due.as_slice()));
    let last = entries.last().expect(&rt, "an entry");
    assert!(rt; last.incarnation == 1);
}

#[test]
fn a_row_that_a_swap_handed_over_is_freed_by_another_pass(rt: HostRuntime) {
    let alloc = rt.alloc();
    let (system, crew) = counters(&rt, alloc, 1, Keep::All);
    let Three {
        mut zero,
        mut one,
        two,
    } = crew;
    swap_and_keep_none(&rt, alloc, &system, &mut zero);
    free_once(&rt, &system, &mut one, &mut zero);
    ended(&rt, alloc, system, zero, one, two);
}

#[test]
fn a_swap_frees_the_row_of_the_swap_before(rt: HostRuntime) {
    let alloc = rt.alloc();
    let shared = LayoutName::Shared;
    for (second, number) in [(0, 2), (1, 1)] {
        let (system, crew) = counters(&rt, alloc, 2, Keep::All);
        let Three {
            mut zero,
            mut one,
            two,
        } = crew;
        swap_and_keep_none(&rt, alloc, &system, &mut zero);
        let done = Swapped::Done(number);
        swap_to_layout(&rt, alloc, &system, &mut zero, second, shared, done);
        free_once(&rt, &system, &mut one, &mut zero);
        ended(&rt, alloc, system, zero, one, two);
    }
}

#[test]
fn a_destroyed_object_is_gone(rt: HostRuntime) {
    let alloc = rt.alloc();
    let (system, crew) = counters(&rt, alloc, 1, Keep::All);
    let Three { mut zero, one, two } = crew;
    destroy_once(&rt, alloc, &system, &mut zero);
    find_gone(&rt, alloc, &system, &mut zero);
    let entries = closed(&rt, alloc, system, zero, one, two);
    let due = [
        called(Op::Add(5), Reply::Done),
        swapped(To::Dead, 1),
        called(Op::Get, Reply::Gone),
        (Act::Swap(To::Layout(1)), Answer::Gone),
        (Act::Swap(To::Dead), Answer::Gone),
    ];
    assert!(rt; are_told(entries.as_slice(), due.as_slice()));
}

#[test]
fn a_system_that_keeps_nothing_is_called_swapped_and_ended(rt: HostRuntime) {
    let alloc = rt.alloc();
    let (system, crew) = counters(&rt, alloc, 1, Keep::Nothing);
    let Three { mut zero, one, two } = crew;
    let deeds = [
        called(Op::Add(5), Reply::Done),
        called(Op::Add(30), Reply::Done),
        swapped(To::Layout(1), 1),
        called(Op::Add(200), Reply::Done),
        called(Op::Get, Reply::Number(235)),
    ];
    follow(&rt, alloc, &system, &mut zero, deeds.as_slice());
    assert!(rt; kept_of(&zero) == 0);
    assert!(rt; zero.drawn() == 5);
    ended(&rt, alloc, system, zero, one, two);
}

#[test]
fn a_pass_that_keeps_nothing_makes_two_million_calls(rt: HostRuntime) {
    let alloc = rt.alloc();
    let (system, crew) = counters(&rt, alloc, 1, Keep::Nothing);
    let Three { mut zero, one, two } = crew;
    add_two_million(&rt, alloc, &system, &mut zero);
    assert!(rt; zero.drawn() == (1 << 21) + 17);
    assert!(rt; kept_of(&zero) == 0);
    ended(&rt, alloc, system, zero, one, two);
}

#[test]
fn a_watched_counter_tells_its_calls_until_it_is_unwatched(rt: HostRuntime) {
    let alloc = rt.alloc();
    let (system, crew) = counters(&rt, alloc, 1, Keep::All);
    let Three { mut zero, one, two } = crew;
    let deeds = [
        called(Op::Seen, Reply::None),
        swapped(To::Watch, 1),
        called(Op::Add(5), Reply::Done),
        called(Op::Get, Reply::Number(5)),
        called(Op::Seen, Reply::Number(2)),
        swapped(To::Layout(1), 2),
        called(Op::Seen, Reply::Number(2)),
        called(Op::Add(1), Reply::Done),
        called(Op::Seen, Reply::Number(3)),
        swapped(To::Layout(0), 3),
        called(Op::Seen, Reply::Number(3)),
        swapped(To::Watch, 4),
        called(Op::Seen, Reply::Number(0)),
        called(Op::Get, Reply::Number(6)),
        called(Op::Seen, Reply::Number(1)),
        swapped(To::Unwatch, 5),
        called(Op::Seen, Reply::None),
        swapped(To::Unwatch, 6),
        called(Op::Seen, Reply::None),
    ];
    follow(&rt, alloc, &system, &mut zero, deeds.as_slice());
    let entries = closed(&rt, alloc, system, zero, one, two);
    assert!(rt; are_told(entries.as_slice(), deeds.as_slice()));
}

#[test]
fn a_dead_object_is_not_watched_and_tells_no_count(rt: HostRuntime) {
    let alloc = rt.alloc();
    let (system, crew) = counters(&rt, alloc, 1, Keep::All);
    let Three { mut zero, one, two } = crew;
    let deeds = [
        swapped(To::Watch, 1),
        swapped(To::Dead, 2),
        called(Op::Seen, Reply::Gone),
        (Act::Swap(To::Watch), Answer::Gone),
        (Act::Swap(To::Unwatch), Answer::Gone),
        called(Op::Seen, Reply::Gone),
    ];
    follow(&rt, alloc, &system, &mut zero, deeds.as_slice());
    let entries = closed(&rt, alloc, system, zero, one, two);
    assert!(rt; are_told(entries.as_slice(), deeds.as_slice()));
}

#[test]
fn a_watch_and_another_swap_refuse_each_other(rt: HostRuntime) {
    let alloc = rt.alloc();
    let spread = To::Layout(1);
    let cases = [
        (spread, To::Watch),
        (To::Watch, spread),
        (To::Watch, To::Unwatch),
        (To::Unwatch, To::Watch),
    ];
    for (to, refused) in cases {
        let (system, crew) = counters(&rt, alloc, 1, Keep::All);
        let Three {
            mut zero,
            mut one,
            mut two,
        } = crew;
        refuse_beside(
            &rt, alloc, &system, &mut zero, &mut one, &mut two, to, refused,
        );
        let entries = closed(&rt, alloc, system, zero, one, two);
        let due = [(Act::Swap(refused), Answer::Busy(1)), swapped(to, 1)];
        assert!(rt; are_told(entries.as_slice(), due.as_slice()));
    }
}

#[test]
fn each_kind_is_watched_in_both_layouts(rt: HostRuntime) {
    let alloc = rt.alloc();
    let (shared, spread) = (LayoutName::Shared, LayoutName::Spread);
    for kind in [KindName::Counter, KindName::Directory, KindName::Pages] {
        for (layout, other) in [(shared, spread), (spread, shared)] {
            let (op, again) = call_of(&rt, kind);
            let object = kept_as(kind, layout);
            let (system, crew) = started(&rt, alloc, object, 1, 2, Keep::All);
            let Three {
                mut zero,
                mut one,
                mut two,
            } = crew;
            watch_and_call(&rt, alloc, &system, &mut zero, &mut one, &op, &again);
            let same = To::Layout(layout.number());
            find_layout(&rt, alloc, &system, &mut two, same, layout);
            swap_and_call(&rt, alloc, &system, &mut zero, &mut one, &op, &again, other);
            find_layout(&rt, alloc, &system, &mut two, To::Dead, other);
            closed(&rt, alloc, system, zero, one, two);
        }
    }
}

#[test]
fn a_section_has_what_was_drawn_since_the_last_one(rt: HostRuntime) {
    let alloc = rt.alloc();
    let (system, crew) = counters(&rt, alloc, 2, Keep::Sections);
    let Three {
        mut zero,
        mut one,
        two,
    } = crew;
    add_thrice(&rt, alloc, &system, &mut zero, &mut one);
    let mut passes = listed(&rt, alloc, &system, zero, one, two);
    take_section(&rt, alloc, &system, &mut passes, 1, &[0, 1, 0]);
    let mut more = add_with_last(&rt, alloc, &system, passes);
    take_section(&rt, alloc, &system, &mut more, 4, &[2]);
    take_section(&rt, alloc, &system, &mut more, 5, &[]);
    assert!(rt; end(system, more));
}

#[test]
fn a_section_asks_for_all_passes(rt: HostRuntime) {
    let alloc = rt.alloc();
    let (system, crew) = counters(&rt, alloc, 2, Keep::Sections);
    let Three { zero, one, two } = crew;
    let mut passes = listed(&rt, alloc, &system, zero, one, two);
    last(&system, &mut passes).expect(&rt, "a pass");
    let given = section(alloc, &system, passes.as_mut_slice()).expect(&rt, "memory");
    assert!(rt; given.is_none());
}
