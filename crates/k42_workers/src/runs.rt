//! A run of a script: how it begins, and the history that it leaves, whoever carries out the lines in between.
ghost use Rattle.std.specs.Prelude.{◌≡◌, ℕ, true, false, All, IfOk, length};
ghost use Rattle.std.specs.List.{list_any};
ghost use Rattle.k42_board.specs.declared.keep.Keep.TheVariants as Keep;
ghost use Rattle.script_text.specs.Lawful.{IsLawful};
ghost use Rattle.script_text.specs.Sound.{IsSound};
ghost use Rattle.record_text.specs.Histories.{record_of};
ghost use Rattle.record_text.specs.Rules.{IsLawfulRecord};
ghost use Rattle.record_text.specs.Spelling.{HasGeneration};
ghost use Rattle.k42_workers.specs.Passes.{HaveWorked, MayWork};
ghost use Rattle.k42_workers.specs.Plans as due;
ghost use Rattle.k42_workers.specs.Workers.{IsRunOf};

use crate::plans::{has_lines, idle_plan, plan_of};
use co_system::{History, Pass, System};
use k42_memory::Memory;
use script_text::Script;
use std::alloc::Global;

/// Whether a worker asks something of an object.
pub fn asks_something(script: &Script) -> bool
    ensures { result ≡ list_any due.asks script.now.workers }
{
    has_lines(script.workers.as_slice())
}

/// The system of a script in which a worker asks something, and the passes of its workers.
pub fn begin_run(alloc: Global, script: &Script) -> Result<(System, Vec<Pass>), Memory>
    requires sound { IsSound script.now }
    requires asked { list_any due.asks script.now.workers ≡ true }
    ensures plan { IfOk result (λ begun. begun.0.plan ≡ due.plan_of script.now) }
    ensures keep { IfOk result (λ begun. begun.0.sys.keep ≡ Keep.All) }
    ensures may { IfOk result (λ begun. MayWork begun.0 0 script.now.workers begun.1.items) }
{
    let (system, passes) = System::start(alloc, plan_of(alloc, script)?)?;
    Ok((system, passes))
}

/// The history of a run in which the workers have done their lines.
fn closed(
    alloc: Global,
    script: &Script,
    system: System,
    passes: Vec<Pass>,
) -> Result<History, Memory>
    requires sound { IsSound script.now }
    requires plan { system.plan ≡ due.plan_of script.now }
    requires keep { system.sys.keep ≡ Keep.All }
    requires many { length passes.items ≡ length script.now.workers }
    requires worked { HaveWorked system 0 script.now.workers passes.items }
    ensures plan { IfOk result (λ history. history.plan ≡ due.plan_of script.now) }
    ensures closed { IfOk result (λ history. IsRunOf script.now history.entries) }
{
    match system.close(alloc, passes) {
        Ok(history) => Ok(history),
        Err(_) => Err(Memory),
    }
}

/// The history of a run in which nobody asks anything.
fn idle(alloc: Global, script: &Script) -> Result<History, Memory>
    requires { list_any due.asks script.now.workers ≡ false }
    ensures plan { IfOk result (λ history. history.plan ≡ due.idle_plan) }
    ensures closed { IfOk result (λ history. IsRunOf script.now history.entries) }
{
    let (system, passes) = System::start(alloc, idle_plan(alloc)?)?;
    match system.close(alloc, passes) {
        Ok(history) => Ok(history),
        Err(_) => Err(Memory),
    }
}

/// The history of a run whose workers have done their lines, each on its pass.
pub fn end_run(
    alloc: Global,
    script: &Script,
    system: System,
    passes: Vec<Pass>,
) -> Result<History, Memory>
    requires sound { IsSound script.now }
    requires asked { list_any due.asks script.now.workers ≡ true }
    requires plan { system.plan ≡ due.plan_of script.now }
    requires keep { system.sys.keep ≡ Keep.All }
    requires many { length passes.items ≡ length script.now.workers }
    requires worked { HaveWorked system 0 script.now.workers passes.items }
    ensures lawful { IfOk result (λ history. IsLawful script.now history.entries) }
    ensures plan { IfOk result (λ history. history.plan ≡ due.plan_due script.now) }
    ensures recorded { IfOk result (λ history. (version : ℕ) → IsLawfulRecord script.now (record_of script.now history.entries version)) }
    ensures generations { IfOk result (λ history. All (λ entry. HasGeneration entry.act entry.generation) history.entries) }
{
    closed(alloc, script, system, passes)
}

/// The history of a run in which nobody asks anything.
pub fn idle_run(alloc: Global, script: &Script) -> Result<History, Memory>
    requires { list_any due.asks script.now.workers ≡ false }
    ensures lawful { IfOk result (λ history. IsLawful script.now history.entries) }
    ensures plan { IfOk result (λ history. history.plan ≡ due.plan_due script.now) }
    ensures recorded { IfOk result (λ history. (version : ℕ) → IsLawfulRecord script.now (record_of script.now history.entries version)) }
    ensures generations { IfOk result (λ history. All (λ entry. HasGeneration entry.act entry.generation) history.entries) }
{
    idle(alloc, script)
}
