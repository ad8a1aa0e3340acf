//! A swap that waits for an activity.
ghost use Rattle.k42_crews.specs.Ready.{IsFree};
ghost use Rattle.runtime_tests.specs.Ready.{IsSwapping};

use crate::tests::steps::{
    ask, come_in, end_swap, go_home, reclaim, step_to, swap_to, swap_to_layout,
};
use co_system::{Cause, Pass, Step, Swap, Swapped, System, To};
use k42_kinds::{LayoutName, Op, Reply};
use std::alloc::Global;
use std::process::Abort;
use std::sync::Wait;

/// The swap finds one activity open.
pub(super) fn find_left(
    rt: &impl Abort,
    alloc: Global,
    system: &System,
    pass: &mut Pass,
    swap: &mut Swap,
)
    requires swapping { IsSwapping system.now swap.old pass.old }
    ensures swapping { IsSwapping system.now swap.new pass.new }
{
    let due = Step::Again(Cause::Left { proc: 0, left: 1 });
    step_to(rt, alloc, system, pass, swap, due);
}

/// The swap ends now, as the first of its object.
pub(super) fn find_done(
    rt: &impl Abort,
    alloc: Global,
    system: &System,
    pass: &mut Pass,
    swap: &mut Swap,
)
    requires swapping { IsSwapping system.now swap.old pass.old }
    ensures free { IsFree system.now pass.new }
{
    step_to(rt, alloc, system, pass, swap, Step::Ended(Swapped::Done(1)));
    end_swap(rt, system, pass, swap);
}

/// One pass swaps while another is in an activity, which calls on. A third one is refused.
pub(super) fn swap_beside<R: Abort + Wait>(
    rt: &R,
    alloc: Global,
    system: &System,
    zero: &mut Pass,
    one: &mut Pass,
    two: &mut Pass,
)
    requires zero { IsFree system.now zero.old }
    requires one { IsFree system.now one.old }
    requires two { IsFree system.now two.old }
    ensures zero { IsFree system.now zero.new }
    ensures one { IsFree system.now one.new }
    ensures two { IsFree system.now two.new }
{
    come_in(system, zero);
    ask(rt, alloc, system, zero, Op::Add(5), Reply::Done);
    let mut swap = swap_to(rt, system, one, 0, To::Layout(1));
    find_left(rt, alloc, system, one, &mut swap);
    let busy = Swapped::Busy(1);
    swap_to_layout(rt, alloc, system, two, 0, LayoutName::Spread, busy);
    ask(rt, alloc, system, zero, Op::Get, Reply::Number(5));
    go_home(system, zero);
    find_done(rt, alloc, system, one, &mut swap);
}

/// The old row is with the pass whose swap was stepped, which has handed nothing over.
pub(super) fn free_in_turn<R: Abort + Wait>(rt: &R, system: &System, one: &mut Pass, two: &mut Pass)
    requires one { IsFree system.now one.old }
    requires two { IsFree system.now two.old }
    ensures one { IsFree system.now one.new }
    ensures two { IsFree system.now two.new }
{
    reclaim(rt, system, two, 0);
    reclaim(rt, system, one, 1);
    reclaim(rt, system, one, 0);
}
