//! What the passes of the tests do, within their bounds.
ghost use Rattle.std.specs.Prelude.{◌<◌};
ghost use Rattle.k42_crews.specs.Ready.{IsFree, IsIn};
ghost use Rattle.waiting_tests.specs.Ready.{IsCallOf, IsSwapping};

use co_system::{Call, CallCause, CallStep, Pass, Step, Swap, System, To};
use k42_kinds::{Op, Reply};
use std::alloc::Global;
use std::process::Abort;
use std::sync::Wait;

/// Begins an activity.
pub(super) fn come_in(system: &System, pass: &mut Pass)
    requires free { IsFree system.now pass.old }
    ensures inside { IsIn system.now pass.new }
{
    system.enter(pass);
}

/// Ends it.
pub(super) fn go_home(system: &System, pass: &mut Pass)
    requires inside { IsIn system.now pass.old }
    ensures free { IsFree system.now pass.new }
{
    system.leave(pass);
}

/// Makes a call in an activity, which is to be answered so.
pub(super) fn ask<R: Abort + Wait>(
    rt: &R,
    alloc: Global,
    system: &System,
    pass: &mut Pass,
    op: Op,
    due: Reply,
)
    requires inside { IsIn system.now pass.old }
    ensures inside { IsIn system.now pass.new }
{
    assert!(rt; system.takes(0, &op));
    let reply = system.call(rt, alloc, pass, 0, op).expect(rt, "a reply");
    assert!(rt; reply == due);
}

/// A call that has not begun.
pub(super) fn call_to(rt: &impl Abort, system: &System, object: u32, op: Op) -> Call
    ensures asked { IsCallOf system.now result }
{
    assert!(rt; system.takes(object, &op));
    Call::new(object, op)
}

/// Tries a call that is not over, and this step comes to that.
fn try_call(
    rt: &impl Abort,
    alloc: Global,
    system: &System,
    pass: &mut Pass,
    call: &mut Call,
    due: CallStep,
)
    requires inside { IsIn system.now pass.old }
    requires asked { IsCallOf system.now call.old }
    ensures inside { IsIn system.now pass.new }
    ensures asked { IsCallOf system.now call.new }
{
    assert!(rt; !call.ended());
    let step = call.step(alloc, system, pass);
    assert!(rt; step == due);
}

/// A swap of the pass to the layout of that number, which has not begun.
pub(super) fn swap_to(
    rt: &impl Abort,
    system: &System,
    pass: &Pass,
    object: u32,
    layout: u8,
) -> Swap
    requires free { IsFree system.now pass.now }
    requires leads { layout < 2 }
    ensures new { IsSwapping system.now result pass.now }
{
    assert!(rt; object < system.objects());
    Swap::new(object, To::Layout(layout))
}

/// Steps a swap that is not over, and this step comes to that.
pub(super) fn step_to(
    rt: &impl Abort,
    alloc: Global,
    system: &System,
    pass: &mut Pass,
    swap: &mut Swap,
    due: Step,
)
    requires swapping { IsSwapping system.now swap.old pass.old }
    ensures swapping { IsSwapping system.now swap.new pass.new }
{
    assert!(rt; !swap.ended());
    let step = swap.step(alloc, system, pass);
    assert!(rt; step == due);
}

/// Leaves a swap that is over.
pub(super) fn end_swap(rt: &impl Abort, system: &System, pass: &Pass, swap: &Swap)
    requires swapping { IsSwapping system.now swap.now pass.now }
    ensures free { IsFree system.now pass.now }
{
    assert!(rt; swap.ended());
}

/// The call is held up so.
pub(super) fn find_held_up(
    rt: &impl Abort,
    alloc: Global,
    system: &System,
    pass: &mut Pass,
    call: &mut Call,
    cause: CallCause,
)
    requires inside { IsIn system.now pass.old }
    requires asked { IsCallOf system.now call.old }
    ensures inside { IsIn system.now pass.new }
    ensures asked { IsCallOf system.now call.new }
{
    try_call(rt, alloc, system, pass, call, CallStep::Again(cause));
}

/// The call is answered so.
pub(super) fn find_answered(
    rt: &impl Abort,
    alloc: Global,
    system: &System,
    pass: &mut Pass,
    call: &mut Call,
    reply: Reply,
)
    requires inside { IsIn system.now pass.old }
    requires asked { IsCallOf system.now call.old }
    ensures inside { IsIn system.now pass.new }
{
    try_call(rt, alloc, system, pass, call, CallStep::Ended(reply));
}
