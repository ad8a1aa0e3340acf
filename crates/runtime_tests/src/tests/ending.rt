//! Rows that are handed over, and objects that are destroyed.
ghost use Rattle.k42_crews.specs.Ready.{IsFree};

use crate::tests::steps::{ask_once, reclaim, swap, swap_to_layout};
use co_system::{Pass, Swapped, System, To};
use k42_crews::{call_once, swap_once};
use k42_kinds::{LayoutName, Op, Reply};
use std::alloc::Global;
use std::process::Abort;
use std::sync::Wait;

/// Swaps once, and leaves no row with the pass.
pub(super) fn swap_and_keep_none<R: Abort + Wait>(
    rt: &R,
    alloc: Global,
    system: &System,
    pass: &mut Pass,
)
    requires free { IsFree system.now pass.old }
    ensures free { IsFree system.now pass.new }
{
    let done = Swapped::Done(1);
    swap_to_layout(rt, alloc, system, pass, 0, LayoutName::Spread, done);
    assert!(rt; pass.rows().is_empty());
}

/// Adds so often, each time in an activity of its own, and swaps the object then.
fn add_often_and_swap<R: Abort + Wait>(
    rt: &R,
    alloc: Global,
    system: &System,
    pass: &mut Pass,
    to: LayoutName,
)
    requires free { IsFree system.now pass.old }
    ensures free { IsFree system.now pass.new }
{
    for _ in 0..131_072 {
        let reply = call_once(rt, alloc, system, pass, 0, Op::Add(1)).expect(rt, "a call");
        assert!(rt; reply == Some(Reply::Done));
    }
    let number = to.number();
    assert!(rt; number < 2);
    swap_once(rt, alloc, system, pass, 0, number).expect(rt, "a swap");
}

/// Makes 2^21 calls, and sixteen swaps between them.
pub(super) fn add_two_million<R: Abort + Wait>(
    rt: &R,
    alloc: Global,
    system: &System,
    pass: &mut Pass,
)
    requires free { IsFree system.now pass.old }
    ensures free { IsFree system.now pass.new }
{
    for _ in 0..8 {
        add_often_and_swap(rt, alloc, system, pass, LayoutName::Spread);
        add_often_and_swap(rt, alloc, system, pass, LayoutName::Shared);
    }
    let sum = Reply::Number(1 << 21);
    ask_once(rt, alloc, system, pass, 0, Op::Get, sum);
}

/// Just one row is freed, by the one pass and not again by the other.
pub(super) fn free_once<R: Abort + Wait>(rt: &R, system: &System, one: &mut Pass, other: &mut Pass)
    requires one { IsFree system.now one.old }
    requires other { IsFree system.now other.old }
    ensures one { IsFree system.now one.new }
    ensures other { IsFree system.now other.new }
{
    reclaim(rt, system, one, 1);
    reclaim(rt, system, other, 0);
}

/// Adds, destroys the object, and finds it gone.
pub(super) fn destroy_once<R: Abort + Wait>(rt: &R, alloc: Global, system: &System, pass: &mut Pass)
    requires free { IsFree system.now pass.old }
    ensures free { IsFree system.now pass.new }
{
    ask_once(rt, alloc, system, pass, 0, Op::Add(5), Reply::Done);
    assert!(rt; swap(rt, alloc, system, pass, To::Dead) == Swapped::Done(1));
    ask_once(rt, alloc, system, pass, 0, Op::Get, Reply::Gone);
}

/// A swap and a destroy find it gone.
pub(super) fn find_gone<R: Abort + Wait>(rt: &R, alloc: Global, system: &System, pass: &mut Pass)
    requires free { IsFree system.now pass.old }
    ensures free { IsFree system.now pass.new }
{
    let spread = LayoutName::Spread;
    swap_to_layout(rt, alloc, system, pass, 0, spread, Swapped::Gone);
    assert!(rt; swap(rt, alloc, system, pass, To::Dead) == Swapped::Gone);
}
