//! A layer that is placed, asked for its count, and taken away.
ghost use Rattle.k42_crews.specs.Ready.{IsFree};

use crate::tests::steps::{come_in, go_home, swap, swap_to};
use crate::tests::waiting::{find_done, find_left};
use co_system::{Pass, Swapped, System};
use k42_crews::call_once;
use k42_kinds::{Act, Answer, KindName, LayoutName, Name, Op, Reply, Text, To};
use std::alloc::Global;
use std::process::Abort;
use std::sync::Wait;

/// What is done with the first object, and how it is answered.
pub(super) type Deed = (Act<Op>, Answer<Reply>);

pub(super) fn called(op: Op, reply: Reply) -> Deed {
    (Act::Call(op), Answer::Replied(reply))
}

pub(super) fn swapped(to: To, number: u32) -> Deed {
    (Act::Swap(to), Answer::Swapped(number))
}

/// The answer in the entry of a swap.
fn told(end: Swapped) -> Answer<Reply> {
    match end {
        Swapped::Done(number) => Answer::Swapped(number),
        Swapped::Busy(number) => Answer::Busy(number),
        Swapped::Spent => Answer::Spent,
        Swapped::Gone => Answer::Gone,
    }
}

/// How the object answers, which takes the operation.
fn answer_to<R: Abort + Wait>(
    rt: &R,
    alloc: Global,
    system: &System,
    pass: &mut Pass,
    act: &Act<Op>,
) -> Answer<Reply>
    requires free { IsFree system.now pass.old }
    ensures free { IsFree system.now pass.new }
{
    match act {
        Act::Call(op) => {
            let reply = call_once(rt, alloc, system, pass, 0, *op).expect(rt, "a call");
            Answer::Replied(reply.expect(rt, "an operation of the object"))
        }
        Act::Swap(to) => told(swap(rt, alloc, system, pass, *to)),
    }
}

/// Does one after the other, and is answered so.
pub(super) fn follow<R: Abort + Wait>(
    rt: &R,
    alloc: Global,
    system: &System,
    pass: &mut Pass,
    deeds: &[Deed],
)
    requires free { IsFree system.now pass.old }
    ensures free { IsFree system.now pass.new }
{
    for deed in deeds {
        assert!(rt; answer_to(rt, alloc, system, pass, &deed.0) == deed.1);
    }
}

/// The tag of the layout in which the last swap of the pass has found its object.
fn tag_found(rt: &impl Abort, pass: &Pass) -> u64 {
    let begin = pass.last_begin().expect(rt, "a swap");
    begin.word / 268_435_456 % 4
}

fn tag_of(layout: LayoutName) -> u64 {
    match layout {
        LayoutName::Shared => 0,
        LayoutName::Spread => 1,
    }
}

/// A call of the kind, which is done once and then replied so.
pub(super) fn call_of(rt: &impl Abort, kind: KindName) -> (Op, Reply) {
    match kind {
        KindName::Counter => (Op::Add(1), Reply::Done),
        KindName::Directory => {
            let name = Name::of(b"n").expect(rt, "a name");
            (Op::Bind(name, 1), Reply::Taken)
        }
        KindName::Pages => {
            let text = Text::of(b"x").expect(rt, "a text");
            (Op::Write(3, text), Reply::Done)
        }
    }
}

/// One pass watches the object and calls it, and another one calls it too.
pub(super) fn watch_and_call<R: Abort + Wait>(
    rt: &R,
    alloc: Global,
    system: &System,
    zero: &mut Pass,
    one: &mut Pass,
    op: &Op,
    again: &Reply,
)
    requires zero { IsFree system.now zero.old }
    requires one { IsFree system.now one.old }
    ensures zero { IsFree system.now zero.new }
    ensures one { IsFree system.now one.new }
{
    let watched = [swapped(To::Watch, 1), called(*op, Reply::Done)];
    follow(rt, alloc, system, zero, watched.as_slice());
    let counted = [called(*op, *again), called(Op::Seen, Reply::Number(2))];
    follow(rt, alloc, system, one, counted.as_slice());
}

/// The one swaps it to another layout, and takes the layer away; the other still finds its count there.
pub(super) fn swap_and_call<R: Abort + Wait>(
    rt: &R,
    alloc: Global,
    system: &System,
    zero: &mut Pass,
    one: &mut Pass,
    op: &Op,
    again: &Reply,
    to: LayoutName,
)
    requires zero { IsFree system.now zero.old }
    requires one { IsFree system.now one.old }
    ensures zero { IsFree system.now zero.new }
    ensures one { IsFree system.now one.new }
{
    let moved = [swapped(To::Layout(to.number()), 3)];
    follow(rt, alloc, system, zero, moved.as_slice());
    let counted = [
        called(Op::Seen, Reply::Number(2)),
        called(*op, *again),
        called(Op::Seen, Reply::Number(3)),
    ];
    follow(rt, alloc, system, one, counted.as_slice());
    let unwatched = [swapped(To::Unwatch, 4), called(Op::Seen, Reply::None)];
    follow(rt, alloc, system, zero, unwatched.as_slice());
}

/// Begins one more swap, and finds the object in this layout.
pub(super) fn find_layout<R: Abort + Wait>(
    rt: &R,
    alloc: Global,
    system: &System,
    pass: &mut Pass,
    to: To,
    due: LayoutName,
)
    requires free { IsFree system.now pass.old }
    ensures free { IsFree system.now pass.new }
{
    let end = swap(rt, alloc, system, pass, to);
    assert!(rt; matches!(end, Swapped::Done(_)));
    assert!(rt; tag_found(rt, pass) == tag_of(due));
}

/// One swap waits for an activity, and another one of the object is refused meanwhile.
pub(super) fn refuse_beside<R: Abort + Wait>(
    rt: &R,
    alloc: Global,
    system: &System,
    zero: &mut Pass,
    one: &mut Pass,
    two: &mut Pass,
    to: To,
    refused: To,
)
    requires zero { IsFree system.now zero.old }
    requires one { IsFree system.now one.old }
    requires two { IsFree system.now two.old }
    ensures zero { IsFree system.now zero.new }
    ensures one { IsFree system.now one.new }
    ensures two { IsFree system.now two.new }
{
    come_in(system, zero);
    let mut swap = swap_to(rt, system, one, 0, to);
    find_left(rt, alloc, system, one, &mut swap);
    let found = [(Act::Swap(refused), Answer::Busy(1))];
    follow(rt, alloc, system, two, found.as_slice());
    go_home(system, zero);
    find_done(rt, alloc, system, one, &mut swap);
}
