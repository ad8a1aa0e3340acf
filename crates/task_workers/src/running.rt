//! A script is run by tasks.
ghost use Rattle.std.specs.Prelude.{◌≡◌, ℕ, Bool, false, All, IfOk, length, map};
ghost use Rattle.script_text.specs.Lawful.{IsLawful};
ghost use Rattle.script_text.specs.Sound.{IsSound};
ghost use Rattle.record_text.specs.Histories.{record_of};
ghost use Rattle.record_text.specs.Rules.{IsLawfulRecord};
ghost use Rattle.record_text.specs.Spelling.{HasGeneration};
ghost use Rattle.k42_workers.specs.Passes.{HaveWorked, MayWork};
ghost use Rattle.k42_workers.specs.Plans as due;
ghost use Rattle.task_workers.specs.Rounds.{AreInRun, HaveEnded, own_of, owns_from};

use crate::rounds::run_rounds;
use crate::tasks::WorkerTask;
use co_system::{History, Pass, System};
use k42_memory::Memory;
use k42_workers::{Gate, asks_something, begin_run, end_run, idle_run};
use script_text::{Script, WorkerLines};
use std::alloc::Global;
use std::sync::Wait;

/// A task for each worker, on its pass.
pub fn tasks_of<'a>(
    alloc: Global,
    system: &System,
    workers: &'a [WorkerLines],
    passes: Vec<Pass>,
) -> Result<Vec<WorkerTask<'a>>, Memory>
    requires { MayWork system.now 0 workers.now passes.items }
    ensures own { IfOk result (λ tasks. map own_of tasks.items ≡ owns_from 0 workers.now) }
    ensures in_run { IfOk result (λ tasks. (refused : Bool) → AreInRun system.now refused tasks.items) }
{
    let mut tasks = Vec::new(alloc);
    for pass in passes {
        let worker = &workers[tasks.len()];
        tasks.push(WorkerTask::new(pass, worker.items.as_slice()))?;
    }
    Ok(tasks)
}

/// The passes of the tasks, in their order.
fn passes_of(alloc: Global, tasks: Vec<WorkerTask<'_>>) -> Result<Vec<Pass>, Memory>
    requires { HaveEnded tasks.items }
    ensures { IfOk result (λ passes. passes.items ≡ map (λ task. task.pass) tasks.entry.items) }
{
    let mut passes = Vec::new(alloc);
    for task in tasks {
        passes.push(task.finish())?;
    }
    Ok(passes)
}

/// Carries out the workers' lines by tasks, and hands their passes back.
fn work_all<R: Wait, G: Gate>(
    rt: &R,
    alloc: Global,
    system: &System,
    workers: &[WorkerLines],
    gate: &G,
    passes: Vec<Pass>,
) -> Result<Vec<Pass>, Memory>
    requires { MayWork system.now 0 workers.now passes.items }
    ensures many { IfOk result (λ worked. length worked.items ≡ length passes.items) }
    ensures worked { IfOk result (λ worked. HaveWorked system.now 0 workers.now worked.items) }
{
    let mut tasks = tasks_of(alloc, system, workers, passes)?;
    run_rounds(rt, alloc, system, gate, tasks.as_mut_slice())?;
    passes_of(alloc, tasks)
}

/// Runs the workers of a script as tasks, and gives the history of the closed system. A task that finds no memory leaves
/// its activity and stops, the others go on to their ends, and the whole answer is then `Memory`. That the tasks make
/// their steps on this thread, in rounds and in the order of the workers, is tested.
pub fn run_tasks<R: Wait, G: Gate>(
    rt: &R,
    alloc: Global,
    script: &Script,
    gate: &G,
) -> Result<History, Memory>
    requires { IsSound script.now }
    ensures lawful { IfOk result (λ history. IsLawful script.now history.entries) }
    ensures plan { IfOk result (λ history. history.plan ≡ due.plan_due script.now) }
    ensures recorded { IfOk result (λ history. (version : ℕ) → IsLawfulRecord script.now (record_of script.now history.entries version)) }
    ensures generations { IfOk result (λ history. All (λ entry. HasGeneration entry.act entry.generation) history.entries) }
{
    if !asks_something(script) {
        return idle_run(alloc, script);
    }
    let (system, passes) = begin_run(alloc, script)?;
    let passes = work_all(rt, alloc, &system, script.workers.as_slice(), gate, passes)?;
    end_run(alloc, script, system, passes)
}
