//! Rounds, in each of which every task makes a step that has not ended.
ghost use Rattle.std.specs.Prelude.{◌≡◌, true, false, map, OnOk};
ghost use Rattle.task_workers.specs.Rounds.{IsInRun, AreInRun, HaveEnded, own_of};
ghost use Rattle.task_workers.specs.Tasks.{has_ended};

use crate::tasks::{TaskStep, WorkerTask};
use co_system::System;
use k42_memory::Memory;
use k42_workers::Gate;
use std::alloc::Global;
use std::sync::Wait;

/// What rounds have found: whether a task is left, and whether one was refused memory so far.
#[derive(Clone, Copy)]
struct Found {
    going: bool,
    refused: bool,
}

/// A step of the task, unless it has ended.
fn turn<G: Gate>(
    alloc: Global,
    system: &System,
    gate: &G,
    task: &mut WorkerTask<'_>,
    refused: bool,
) -> Found
    requires { IsInRun system.now refused task.old }
    ensures own { own_of task.new ≡ own_of task.old }
    ensures in_run { IsInRun system.now result.refused task.new }
    ensures ended { result.going ≡ false → has_ended task.new.at ≡ true }
    ensures kept { result.refused ≡ false → refused ≡ false }
{
    if task.ended() {
        return Found {
            going: false,
            refused,
        };
    }
    let step = task.step(alloc, system, gate);
    Found {
        going: !task.ended(),
        refused: refused || step == TaskStep::Memory,
    }
}

/// A round of these tasks.
fn round<G: Gate>(
    alloc: Global,
    system: &System,
    gate: &G,
    tasks: &mut [WorkerTask<'_>],
    refused: bool,
) -> Found
    requires { AreInRun system.now refused tasks.old }
    ensures own { map own_of tasks.new ≡ map own_of tasks.old }
    ensures in_run { AreInRun system.now result.refused tasks.new }
    ensures ended { result.going ≡ false → HaveEnded tasks.new }
    ensures kept { result.refused ≡ false → refused ≡ false }
{
    let mut found = Found {
        going: false,
        refused,
    };
    for index in 0..tasks.len() {
        let one = turn(alloc, system, gate, &mut tasks[index], found.refused);
        found = Found {
            going: found.going || one.going,
            refused: one.refused,
        };
    }
    found
}

/// Steps the tasks in rounds until all have ended. Where one was refused memory the others have gone on to their ends.
pub(crate) fn run_rounds<R: Wait, G: Gate>(
    rt: &R,
    alloc: Global,
    system: &System,
    gate: &G,
    tasks: &mut [WorkerTask<'_>],
) -> Result<(), Memory>
    requires { AreInRun system.now false tasks.old }
    ensures own { map own_of tasks.new ≡ map own_of tasks.old }
    ensures ended { HaveEnded tasks.new }
    ensures in_run { OnOk result (AreInRun system.now false tasks.new) }
{
    let mut refused = false;
    for _ in rt.forever() {
        let found = round(alloc, system, gate, tasks, refused);
        refused = found.refused;
        if !found.going {
            return if refused { Err(Memory) } else { Ok(()) };
        }
    }
    unreachable!()
}
