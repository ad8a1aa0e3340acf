//! What the passes of the tests do, within their bounds.
ghost use Rattle.std.specs.Prelude.{◌≡◌, false, length};
ghost use Rattle.k42_crews.specs.Ready.{IsFree, IsIn};
ghost use Rattle.k42_runtime.specs.Swaps.{is_over};
ghost use Rattle.swap_future.specs.Polling.{IsGoing};

use co_system::{Pass, Step, Swap, Swapped, System};
use std::alloc::Global;
use std::process::Abort;

/// Begins an activity.
pub(super) fn come_in(system: &System, pass: &mut Pass)
    requires free { IsFree system.now pass.old }
    ensures inside { IsIn system.now pass.new }
{
    system.enter(pass);
}

/// Ends it.
pub(super) fn go_home(system: &System, pass: &mut Pass)
    requires inside { IsIn system.now pass.old }
    ensures free { IsFree system.now pass.new }
{
    system.leave(pass);
}

/// Steps a swap, which this step ends.
pub(super) fn step_to(
    rt: &impl Abort,
    alloc: Global,
    system: &System,
    swap: &mut Swap,
    pass: &mut Pass,
    due: Swapped,
)
    requires going { IsGoing system.now swap.old pass.old }
    ensures free { IsFree system.now pass.new }
{
    let step = swap.step(alloc, system, pass);
    assert!(rt; step == Step::Ended(due));
}
