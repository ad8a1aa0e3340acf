//! Tasks that are stepped by hand.
ghost use Rattle.std.specs.Prelude.{true};
ghost use Rattle.task_workers.specs.Rounds.{IsInRun, AreInRun};

use co_system::{Cause, System};
use k42_workers::FreeGate;
use std::alloc::Global;
use std::process::Abort;
use task_workers::{TaskCause, TaskStep, WorkerTask};

/// Why a swap waits beside the block of one worker.
const LEFT: TaskStep = TaskStep::Again(TaskCause::Swap(Cause::Left { proc: 0, left: 1 }));

/// Why the swap of worker 2 waits while worker 1 waits for its grace.
const ROLE_HELD: TaskStep = TaskStep::Again(TaskCause::Swap(Cause::RoleHeld { holder: 1 }));

/// A step of the task.
fn step(rt: &impl Abort, alloc: Global, system: &System, task: &mut WorkerTask<'_>) -> TaskStep
    requires { IsInRun system.now true task.old }
    ensures { IsInRun system.now true task.new }
{
    assert!(rt; !task.ended());
    task.step(alloc, system, &FreeGate)
}

/// A step of the task at the place.
fn step_at(
    rt: &impl Abort,
    alloc: Global,
    system: &System,
    tasks: &mut [WorkerTask<'_>],
    place: usize,
) -> TaskStep
    requires { AreInRun system.now true tasks.old }
    ensures { AreInRun system.now true tasks.new }
{
    assert!(rt; place < tasks.len());
    step(rt, alloc, system, &mut tasks[place])
}

/// The tasks at these places make these steps, one after the other.
pub(super) fn steps_are(
    rt: &impl Abort,
    alloc: Global,
    system: &System,
    tasks: &mut [WorkerTask<'_>],
    due: &[(usize, TaskStep)],
)
    requires { AreInRun system.now true tasks.old }
    ensures { AreInRun system.now true tasks.new }
{
    for (place, step) in due {
        let told = step_at(rt, alloc, system, tasks, *place);
        assert_eq!(rt; told, *step);
    }
}

/// What the tasks of a block and of a swap beside it answer in their rounds.
pub(super) const BESIDE_A_BLOCK: [(usize, TaskStep); 9] = [
    (0, TaskStep::Going),
    (1, TaskStep::Going),
    (0, TaskStep::Going),
    (1, LEFT),
    (0, TaskStep::Going),
    (1, LEFT),
    (0, TaskStep::Ended),
    (1, TaskStep::Going),
    (1, TaskStep::Ended),
];

/// What two swaps answer beside a block.
pub(super) const TWO_SWAPS: [(usize, TaskStep); 7] = [
    (0, TaskStep::Going),
    (0, TaskStep::Going),
    (1, LEFT),
    (2, ROLE_HELD),
    (0, TaskStep::Ended),
    (1, TaskStep::Ended),
    (2, TaskStep::Ended),
];

/// The first task swaps, and the second calls. Where the first is refused memory, the second ends.
pub(super) fn swap_before_a_call(
    rt: &impl Abort,
    alloc: Global,
    system: &System,
    tasks: &mut [WorkerTask<'_>],
)
    requires { AreInRun system.now true tasks.old }
{
    let swapped = step_at(rt, alloc, system, tasks, 0);
    let called = step_at(rt, alloc, system, tasks, 1);
    if swapped == TaskStep::Memory {
        assert_eq!(rt; called, TaskStep::Ended);
    } else {
        assert_eq!(rt; swapped, TaskStep::Ended);
        assert!(rt; called == TaskStep::Ended || called == TaskStep::Memory);
    }
}
