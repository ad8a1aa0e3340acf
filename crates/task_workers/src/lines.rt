//! The line of a task: it begins, and is tried as far as it goes without waiting.
ghost use Rattle.std.specs.Prelude.{◌≡◌, Bool, false, length};
ghost use Rattle.co_system.specs.Systems.{IsAsked, MayLead};
ghost use Rattle.k42_runtime.specs.Swaps.{IsAtStage, is_over};
ghost use Rattle.k42_runtime.specs.Systems.{IsPassHere};
ghost use Rattle.k42_workers.specs.Passes.{IsBetween, HasFew};
ghost use Rattle.script_text.specs.declared.script.CallLine.{CallLine};
ghost use Rattle.task_workers.specs.Tries.{IsOfLine, IsSame, HasTried, MayTry, started};
ghost use Rattle.task_workers.specs.declared.tasks.TaskAt.TheVariants as TaskAt;

use crate::tasks::{TaskAt, TaskCause};
use co_system::{Call, CallStep, Pass, Step, Swap, System};
use k42_kinds::Act;
use k42_memory::Memory;
use k42_workers::{leave_open, leave_outside, open};
use script_text::CallLine;
use std::alloc::Global;

/// The call or the swap that the line asks, which has not begun.
pub(crate) fn start(line: &CallLine) -> TaskAt
    ensures { result ≡ started line.now.object line.now.act }
{
    match line.act {
        Act::Call(op) => TaskAt::Calling(Call::new(line.object, op)),
        Act::Swap(to) => TaskAt::Swapping(Swap::new(line.object, to)),
    }
}

/// Tries the call once, in the activity that is open or in a new one. Outside a block its activity ends with it.
fn try_call(
    alloc: Global,
    system: &System,
    pass: &mut Pass,
    call: &mut Call,
    inside: bool,
) -> Result<Option<TaskCause>, Memory>
    requires here { IsPassHere system.now pass.old }
    requires between { IsBetween pass.old.view }
    requires few { HasFew pass.old.view }
    requires asked { IsAsked system.now.plan call.old.object call.old.op }
    requires going { call.old.ended ≡ false }
    ensures same { IsSame system.now pass.old pass.new }
    ensures tried { (line : CallLine) → IsOfLine line (TaskAt.Calling call.old)
        → HasTried system.now line inside result (TaskAt.Calling call.old) (TaskAt.Calling call.new) pass.old pass.new }
{
    open(system, pass);
    match call.step(alloc, system, pass) {
        CallStep::Again(cause) => Ok(Some(TaskCause::Call(cause))),
        CallStep::Ended(_) => {
            leave_outside(system, pass, inside);
            Ok(None)
        }
        CallStep::Memory => {
            leave_open(system, pass);
            Err(Memory)
        }
        CallStep::Worn => unreachable!(),
    }
}

/// Steps the swap once.
fn try_swap(
    alloc: Global,
    system: &System,
    pass: &mut Pass,
    swap: &mut Swap,
) -> Result<Option<TaskCause>, Memory>
    requires here { IsPassHere system.now pass.old }
    requires few { HasFew pass.old.view }
    requires leads { MayLead system.now.plan swap.old.object swap.old.to }
    requires stage { IsAtStage swap.old.stage system.now.sys.shapes swap.old pass.old }
    requires going { is_over swap.old.stage ≡ false }
    ensures same { IsSame system.now pass.old pass.new }
    ensures tried { (line : CallLine) (inside : Bool) → IsOfLine line (TaskAt.Swapping swap.old)
        → HasTried system.now line inside result (TaskAt.Swapping swap.old) (TaskAt.Swapping swap.new) pass.old pass.new }
{
    match swap.step(alloc, system, pass) {
        Step::Again(cause) => Ok(Some(TaskCause::Swap(cause))),
        Step::Ended(_) => Ok(None),
        Step::Memory => Err(Memory),
        Step::Worn => unreachable!(),
    }
}

/// Tries the call or the swap that is under way. It is done, or was held up by a cause.
pub(crate) fn try_line(
    alloc: Global,
    system: &System,
    pass: &mut Pass,
    at: &mut TaskAt,
    inside: bool,
) -> Result<Option<TaskCause>, Memory>
    requires here { IsPassHere system.now pass.old }
    requires few { HasFew pass.old.view }
    requires may { MayTry system.now at.old pass.old }
    ensures same { IsSame system.now pass.old pass.new }
    ensures tried { (line : CallLine) → IsOfLine line at.old
        → HasTried system.now line inside result at.old at.new pass.old pass.new }
{
    match at {
        TaskAt::Calling(call) => try_call(alloc, system, pass, call, inside),
        TaskAt::Swapping(swap) => try_swap(alloc, system, pass, swap),
        TaskAt::Between | TaskAt::Over => unreachable!(),
    }
}
