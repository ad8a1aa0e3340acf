//! The plan of a run.
ghost use Rattle.std.specs.Prelude.{◌≡◌, true, map, IfOk};
ghost use Rattle.std.specs.List.{list_any};
ghost use Rattle.script_text.specs.Sound.{IsSound};
ghost use Rattle.k42_workers.specs.Plans as due;

use co_system::{Keep, Plan, SystemLayout, kept_as};
use k42_kinds::{KindName, LayoutName};
use k42_memory::Memory;
use script_text::{Item, ObjectLine, Script, WorkerLines};
use std::alloc::Global;

/// Whether a worker asks something of an object.
pub(crate) fn has_lines(workers: &[WorkerLines]) -> bool
    ensures { result ≡ list_any due.asks workers.now }
{
    workers.iter().any(|worker| asks(worker.items.as_slice()))
}

fn asks(items: &[Item]) -> bool
    ensures { result ≡ list_any due.is_line items.now }
{
    items.iter().any(|item| matches!(item, Item::Line(_)))
}

/// The objects of a script, as they start.
fn layouts(alloc: Global, objects: &[ObjectLine]) -> Result<Vec<SystemLayout>, Memory>
    ensures { IfOk result (λ made. made.items ≡ map due.layout_of objects.now) }
{
    let mut layouts = Vec::new(alloc);
    for object in objects {
        layouts.push(kept_as(object.kind, object.layout))?;
    }
    Ok(layouts)
}

/// Each worker's processor.
fn processors(alloc: Global, workers: &[WorkerLines]) -> Result<Vec<u32>, Memory>
    ensures { IfOk result (λ procs. procs.items ≡ map (λ worker. worker.proc) workers.now) }
{
    let mut procs = Vec::new(alloc);
    for worker in workers {
        procs.push(worker.proc)?;
    }
    Ok(procs)
}

/// The plan of a script in which a worker asks something.
pub(crate) fn plan_of(alloc: Global, script: &Script) -> Result<Plan, Memory>
    requires sound { IsSound script.now }
    requires asked { list_any due.asks script.now.workers ≡ true }
    ensures { IfOk result (λ plan. plan ≡ due.plan_of script.now) }
{
    let objects = layouts(alloc, script.objects.as_slice())?;
    let callers = processors(alloc, script.workers.as_slice())?;
    match Plan::new(script.procs, objects, callers, Keep::All) {
        Ok(plan) => Ok(plan),
        Err(_) => unreachable!(),
    }
}

/// The plan of a run in which nobody asks anything.
pub(crate) fn idle_plan(alloc: Global) -> Result<Plan, Memory>
    ensures { IfOk result (λ plan. plan ≡ due.idle_plan) }
{
    let mut objects = Vec::new(alloc);
    objects.push(kept_as(KindName::Counter, LayoutName::Shared))?;
    let mut callers = Vec::new(alloc);
    callers.push(0)?;
    match Plan::new(1, objects, callers, Keep::All) {
        Ok(plan) => Ok(plan),
        Err(_) => unreachable!(),
    }
}
