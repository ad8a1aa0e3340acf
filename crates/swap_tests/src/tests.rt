//! Two swaps of one object, with the entries that each caller has drawn.
ghost use Rattle.std.specs.Prelude.{◌<◌};

use crate::tests::crews::{call, finish, start};
use crate::tests::phases::swap;
use k42_kinds::{Act, Answer, Entry, LayoutName, Op, Reply, To};
use k42_rule::Row;

mod counted;
mod crews;
mod given_up;
mod phases;
mod rows;

/// The entry of a call of the first object by the first caller.
fn called(stamp: u64, index: u64, incarnation: u32, op: Op, reply: Reply) -> Entry<Op, Reply>
    requires { incarnation < 1_048_575 }
{
    Entry {
        stamp,
        caller: 0,
        index,
        object: 0,
        incarnation,
        cell: incarnation % 2 * 8,
        act: Act::Call(op),
        answer: Answer::Replied(reply),
        proc: 0,
        generation: Some(incarnation),
    }
}

/// The entry of a swap of the first object, where the caller drew it in so many before.
fn swapped(
    caller: u32,
    stamp: u64,
    index: u64,
    incarnation: u32,
    to: LayoutName,
) -> Entry<Op, Reply>
    requires { incarnation < 1_048_575 }
{
    Entry {
        stamp,
        caller,
        index,
        object: 0,
        incarnation,
        cell: (incarnation + 1) % 2 * 8,
        act: Act::Swap(To::Layout(to.number())),
        answer: Answer::Swapped(incarnation + 1),
        proc: 0,
        generation: None,
    }
}

/// Whether the caller has drawn just these entries.
fn has_drawn(lists: &[Vec<Entry<Op, Reply>>], caller: usize, due: &[Entry<Op, Reply>]) -> bool {
    match lists.get(caller) {
        Some(list) => list.as_slice() == due,
        None => false,
    }
}

/// Whether the caller has drawn no entry.
fn has_drawn_nothing(lists: &[Vec<Entry<Op, Reply>>], caller: usize) -> bool {
    match lists.get(caller) {
        Some(list) => list.is_empty(),
        None => false,
    }
}

#[test]
fn a_swap_hands_the_state_on_and_a_second_one_frees_its_row(rt: HostRuntime) {
    let alloc = rt.alloc();
    let (sys, mut zero, mut one, two) = start(&rt, alloc);
    assert!(rt; call(&rt, alloc, &sys, &mut zero, &Op::Add(5)) == 1);
    swap(&rt, alloc, &sys, &mut one, 0, 1, 0);
    let row = Row {
        object: 0,
        incarnation: 0,
    };
    assert!(rt; one.rows() == [row].as_slice());
    assert!(rt; call(&rt, alloc, &sys, &mut zero, &Op::Add(7)) == 3);
    swap(&rt, alloc, &sys, &mut one, 0, 0, 1);
    assert!(rt; one.rows().len() == 1);
    assert!(rt; call(&rt, alloc, &sys, &mut zero, &Op::Get) == 5);
    let lists = finish(&rt, alloc, sys, zero, one, two);
    assert!(rt; lists.len() == 3);
    let calls = [
        called(1, 0, 0, Op::Add(5), Reply::Done),
        called(3, 1, 1, Op::Add(7), Reply::Done),
        called(5, 2, 2, Op::Get, Reply::Number(12)),
    ];
    assert!(rt; has_drawn(lists.as_slice(), 0, calls.as_slice()));
    let swaps = [
        swapped(1, 2, 0, 0, LayoutName::Spread),
        swapped(1, 4, 1, 1, LayoutName::Shared),
    ];
    assert!(rt; has_drawn(lists.as_slice(), 1, swaps.as_slice()));
    assert!(rt; has_drawn_nothing(lists.as_slice(), 2));
}
