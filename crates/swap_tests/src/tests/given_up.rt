//! A swap that is given up.

use crate::tests::crews::{call, finish, start};
use crate::tests::phases::{begin_late, give_up, lead_in, shut, swap, wait_free};
use crate::tests::{called, has_drawn, swapped};
use k42_kinds::{Answer, LayoutName, Op, Reply};
use k42_mediator::Phase;

#[test]
fn a_swap_that_is_given_up_leaves_the_row_as_it_was(rt: HostRuntime) {
    let alloc = rt.alloc();
    let (sys, mut zero, mut one, mut two) = start(&rt, alloc);
    assert!(rt; call(&rt, alloc, &sys, &mut zero, &Op::Add(5)) == 1);
    lead_in(&rt, &sys, &mut one, 0);
    begin_late(&rt, &sys, &mut two, 0, 1, Phase::Forward);
    wait_free(&rt, &sys, &mut one, 0);
    shut(&rt, &sys, &mut one);
    begin_late(&rt, &sys, &mut two, 0, 1, Phase::Transfer);
    give_up(&rt, &sys, &mut one, 1);
    assert!(rt; one.rows().is_empty());
    assert!(rt; call(&rt, alloc, &sys, &mut zero, &Op::Get) == 2);
    swap(&rt, alloc, &sys, &mut two, 0, 1, 0);
    let lists = finish(&rt, alloc, sys, zero, one, two);
    assert!(rt; lists.len() == 3);
    let mut read = called(2, 1, 0, Op::Get, Reply::Number(5));
    read.generation = Some(1);
    let calls = [called(1, 0, 0, Op::Add(5), Reply::Done), read];
    assert!(rt; has_drawn(lists.as_slice(), 0, calls.as_slice()));
    let mut given_up = swapped(1, 1, 0, 0, LayoutName::Spread);
    given_up.answer = Answer::Abandoned(1);
    given_up.cell = 0;
    assert!(rt; has_drawn(lists.as_slice(), 1, [given_up].as_slice()));
    let swap = swapped(2, 3, 0, 0, LayoutName::Spread);
    assert!(rt; has_drawn(lists.as_slice(), 2, [swap].as_slice()));
}
