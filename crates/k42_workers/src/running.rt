//! A script is run on threads.
ghost use Rattle.std.specs.Prelude.{◌≡◌, ℕ, All, IfOk};
ghost use Rattle.script_text.specs.Lawful.{IsLawful};
ghost use Rattle.script_text.specs.Sound.{IsSound};
ghost use Rattle.record_text.specs.Histories.{record_of};
ghost use Rattle.record_text.specs.Rules.{IsLawfulRecord};
ghost use Rattle.record_text.specs.Spelling.{HasGeneration};
ghost use Rattle.k42_workers.specs.Plans as due;

use crate::gate::Gate;
use crate::runs::{asks_something, begin_run, end_run, idle_run};
use crate::workers::work_all;
use co_system::History;
use k42_memory::Memory;
use script_text::Script;
use std::alloc::Global;
use std::sync::Wait;
use std::thread::Threads;

/// Runs each worker's items in order on a thread of its own, and gives the history of the closed system. A worker that
/// finds no memory leaves its activity and stops, and the whole answer is then `Memory`.
pub fn run_script<R: Threads + Wait + Sync, G: Gate + Sync>(
    rt: &R,
    alloc: Global,
    script: &Script,
    gate: &G,
) -> Result<History, Memory>
    requires { IsSound script.now }
    ensures lawful { IfOk result (λ history. IsLawful script.now history.entries) }
    ensures plan { IfOk result (λ history. history.plan ≡ due.plan_due script.now) }
    ensures recorded { IfOk result (λ history. (version : ℕ) → IsLawfulRecord script.now (record_of script.now history.entries version)) }
    ensures generations { IfOk result (λ history. All (λ entry. HasGeneration entry.act entry.generation) history.entries) }
{
    if !asks_something(script) {
        return idle_run(alloc, script);
    }
    let (system, mut passes) = begin_run(alloc, script)?;
    work_all(
        rt,
        alloc,
        &system,
        0,
        script.workers.as_slice(),
        gate,
        passes.as_mut_slice(),
    )?;
    end_run(alloc, script, system, passes)
}
