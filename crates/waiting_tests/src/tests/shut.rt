//! A swap that keeps its object shut while it waits for a caller inside, and a call that it holds up.
ghost use Rattle.std.specs.Prelude.{[]};
ghost use Rattle.k42_crews.specs.Ready.{IsFree, IsIn};
ghost use Rattle.waiting_tests.specs.Ready.{IsCallOf, IsInRow, IsSwapping};

use crate::tests::steps::{come_in, end_swap, find_answered, find_held_up, go_home, step_to};
use crate::tests::table::{end_call, knock_in};
use co_system::{Call, CallCause, Cause, Pass, Step, Swap, Swapped, System};
use k42_kinds::Reply;
use std::alloc::Global;
use std::process::Abort;

/// The swap ends now, as the first of its object.
pub(super) fn find_done(
    rt: &impl Abort,
    alloc: Global,
    system: &System,
    pass: &mut Pass,
    swap: &mut Swap,
)
    requires swapping { IsSwapping system.now swap.old pass.old }
    ensures free { IsFree system.now pass.new }
{
    step_to(rt, alloc, system, pass, swap, Step::Ended(Swapped::Done(1)));
    end_swap(rt, system, pass, swap);
}

/// While the swap waits for an activity of the first pass, the third is let in by the mediator, and then it waits for that.
pub(super) fn be_waited_for(
    rt: &impl Abort,
    alloc: Global,
    system: &System,
    zero: &mut Pass,
    one: &mut Pass,
    two: &mut Pass,
    swap: &mut Swap,
)
    requires zero { IsFree system.now zero.old }
    requires one { IsSwapping system.now swap.old one.old }
    requires two { IsFree system.now two.old }
    ensures zero { IsFree system.now zero.new }
    ensures one { IsSwapping system.now swap.new one.new }
    ensures two { IsInRow system.now [] two.new }
{
    come_in(system, zero);
    let left = Step::Again(Cause::Left { proc: 0, left: 1 });
    step_to(rt, alloc, system, one, swap, left);
    come_in(system, two);
    knock_in(rt, system, two, 0);
    go_home(system, zero);
    let inside = Step::Again(Cause::InFlight { count: 1 });
    step_to(rt, alloc, system, one, swap, inside);
}

/// A call is held up while another is counted, and once nobody is.
pub(super) fn be_shut_out(
    rt: &impl Abort,
    alloc: Global,
    system: &System,
    zero: &mut Pass,
    two: &mut Pass,
    get: &mut Call,
)
    requires zero { IsFree system.now zero.old }
    requires two { IsInRow system.now [] two.old }
    requires asked { IsCallOf system.now get.old }
    ensures zero { IsIn system.now zero.new }
    ensures two { IsFree system.now two.new }
    ensures asked { IsCallOf system.now get.new }
{
    come_in(system, zero);
    find_held_up(rt, alloc, system, zero, get, CallCause::Blocked);
    end_call(system, two);
    go_home(system, two);
    find_held_up(rt, alloc, system, zero, get, CallCause::Blocked);
}

/// The swap ends, and the call is answered.
pub(super) fn be_let_in(
    rt: &impl Abort,
    alloc: Global,
    system: &System,
    zero: &mut Pass,
    one: &mut Pass,
    swap: &mut Swap,
    get: &mut Call,
)
    requires zero { IsIn system.now zero.old }
    requires one { IsSwapping system.now swap.old one.old }
    requires asked { IsCallOf system.now get.old }
    ensures zero { IsFree system.now zero.new }
    ensures one { IsFree system.now one.new }
{
    find_done(rt, alloc, system, one, swap);
    find_answered(rt, alloc, system, zero, get, Reply::Number(0));
    go_home(system, zero);
}
