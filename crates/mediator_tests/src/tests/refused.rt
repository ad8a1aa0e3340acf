//! A swap whose transfer finds no memory is given up, and the object is as it was.
ghost use Rattle.k42_mediator.specs.Swaps.{HasMoved};
ghost use Rattle.table_crews.specs.Ready.{HoldsNoCell, IsServing};

use crate::tests::balky::Balky;
use crate::tests::calls::{
    ask, end, end_activity, find_busy, install, look_in_vain, start_activity, turn_back,
};
use crate::tests::crews::{drawn, finish, start};
use crate::tests::phases::{give_up, hand_nothing_on, swap, take_over};
use k42_kinds::{Act, Answer, Entry, KindName, Layout, Op, Reply, To, kind_of};
use k42_mediator::Phase;
use k42_rule::{Pass, Sys};
use std::alloc::Global;
use std::process::Abort;
use table_crews::step_at;

/// Makes an operation of the object whose row the call is in, and answers the stamp of its entry.
fn step(rt: &impl Abort, alloc: Global, sys: &Sys<Balky>, pass: &mut Pass<Balky>, op: &Op) -> u64
    requires free { HoldsNoCell sys.now pass.old }
    requires serving { IsServing pass.old.view }
    ensures free { HoldsNoCell sys.now pass.new }
    ensures serving { IsServing pass.new.view }
{
    let inside = pass.inside();
    assert!(rt; inside.object < sys.objects() && kind_of(op) == Some(KindName::Counter));
    let layout = sys.declared(inside.object).with_tag(inside.layout);
    let made = step_at(alloc, sys, pass, &layout, &inside, op).expect(rt, "memory");
    made.expect(rt, "a free cell")
}

/// Makes an operation of the object in an activity of its own, and answers the stamp of its entry.
fn call(rt: &impl Abort, alloc: Global, sys: &Sys<Balky>, pass: &mut Pass<Balky>, op: &Op) -> u64
    requires { HoldsNoCell sys.now pass.old }
    ensures { HoldsNoCell sys.now pass.new }
{
    start_activity(rt, sys, pass);
    look_in_vain(rt, sys, pass);
    install(rt, sys, pass);
    let stamp = step(rt, alloc, sys, pass, op);
    end(sys, pass);
    end_activity(sys, pass);
    stamp
}

/// Has the transfer refused, and gives the swap up.
fn go_back(rt: &impl Abort, alloc: Global, sys: &Sys<Balky>, pass: &mut Pass<Balky>)
    requires free { HoldsNoCell sys.now pass.old }
    requires moved { HasMoved pass.old.view }
    ensures { HoldsNoCell sys.now pass.new }
{
    assert!(rt; 0 < sys.objects());
    let to = Balky {
        refuse: true,
        ..sys.declared(0).with_tag(0)
    };
    hand_nothing_on(rt, alloc, sys, pass, &to);
    give_up(rt, sys, pass, &to);
}

/// Finds the entry of the object empty, and its word without any bit of a swap.
fn find_open(rt: &impl Abort, sys: &Sys<Balky>, pass: &mut Pass<Balky>)
    requires { HoldsNoCell sys.now pass.old }
    ensures { HoldsNoCell sys.now pass.new }
{
    start_activity(rt, sys, pass);
    look_in_vain(rt, sys, pass);
    ask(rt, sys, pass, 0);
    turn_back(sys, pass);
    end_activity(sys, pass);
}

/// Swaps the object, with memory.
fn go_on(rt: &impl Abort, alloc: Global, sys: &Sys<Balky>, pass: &mut Pass<Balky>)
    requires { HoldsNoCell sys.now pass.old }
    ensures { HoldsNoCell sys.now pass.new }
{
    assert!(rt; 0 < sys.objects());
    let to = sys.declared(0).with_tag(0);
    swap(rt, alloc, sys, pass, &to);
}

/// The entry of a swap by the second caller.
fn swapped(stamp: u64, index: u64, cell: u32, answer: Answer<Reply>) -> Entry<Op, Reply> {
    Entry {
        stamp,
        caller: 1,
        index,
        object: 0,
        incarnation: 0,
        cell,
        act: Act::Swap(To::Layout(0)),
        answer,
        proc: 0,
        generation: None,
    }
}

/// The entry of a call by the first caller, in the first row.
fn called(stamp: u64, index: u64, op: Op, reply: Reply) -> Entry<Op, Reply> {
    Entry {
        stamp,
        caller: 0,
        index,
        object: 0,
        incarnation: 0,
        cell: 0,
        act: Act::Call(op),
        answer: Answer::Replied(reply),
        proc: 0,
        generation: Some(0),
    }
}

#[test]
fn a_transfer_that_finds_no_memory_leaves_the_state_to_the_next_swap(rt: HostRuntime) {
    let counter = Balky {
        tag: 0,
        refuse: false,
    };
    let alloc = rt.alloc();
    let (sys, mut zero, mut one) = start(&rt, alloc, counter);
    assert!(rt; call(&rt, alloc, &sys, &mut zero, &Op::Add(5)) == 1);
    take_over(&rt, &sys, &mut one);
    find_busy(&rt, &sys, &mut zero, Phase::Transfer);
    go_back(&rt, alloc, &sys, &mut one);
    let refused = swapped(1, 0, 0, Answer::Abandoned(1));
    let early = drawn::<Balky>(&rt, alloc, &one);
    assert!(rt; early.len() == 1 && early[0] == refused);
    find_open(&rt, &sys, &mut zero);
    go_on(&rt, alloc, &sys, &mut one);
    assert!(rt; call(&rt, alloc, &sys, &mut zero, &Op::Get) == 3);
    let lists = finish(&rt, alloc, sys, zero, one);
    assert_eq!(rt; lists.len(), 2);
    let added = called(1, 0, Op::Add(5), Reply::Done);
    let mut read = called(3, 1, Op::Get, Reply::Number(5));
    (read.incarnation, read.cell) = (1, 8);
    // Each swap has had a grace.
    read.generation = Some(2);
    assert!(rt; lists[0].as_slice() == [added, read].as_slice());
    let done = swapped(2, 1, 8, Answer::Swapped(1));
    assert!(rt; lists[1].as_slice() == [refused, done].as_slice());
}
