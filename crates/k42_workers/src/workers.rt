//! Workers, each on its pass and a thread of its own.
ghost use Rattle.std.specs.Prelude.{◌≡◌, ◌<◌, ◌≤◌, ◌+◌, OnOk, length, take, drop};
ghost use Rattle.std.specs.Thread.{IsSync};
ghost use Rattle.k42_runtime.specs.Systems.{IsPassHere, IsAtRest};
ghost use Rattle.k42_workers.specs.Passes.{IsReady, IsFresh, HasWorked, HaveWorked, MayWork};

use crate::gate::Gate;
use crate::lines::{follow, leave_open};
use co_system::{Pass, System};
use k42_memory::Memory;
use script_text::WorkerLines;
use std::alloc::Global;
use std::sync::Wait;
use std::thread::{Threads, join_mut};

/// Carries out the worker's items in their order. For want of memory the worker leaves its activity and stops.
fn work<R: Wait, G: Gate>(
    rt: &R,
    alloc: Global,
    system: &System,
    number: u32,
    worker: &WorkerLines,
    gate: &G,
    pass: &mut Pass,
) -> Result<(), Memory>
    requires fresh { IsFresh system.now number worker.now pass.old }
    requires ready { IsReady system.now.plan worker.now }
    ensures here { IsPassHere system.now pass.new }
    ensures rests { IsAtRest pass.new.view }
    ensures worked { OnOk result (HasWorked system.now number worker.now pass.new) }
{
    let mut inside = false;
    for item in worker.items.as_slice() {
        match follow(rt, alloc, system, pass, number, item, inside, gate) {
            Ok(after) => inside = after,
            Err(memory) => {
                leave_open(system, pass);
                return Err(memory);
            }
        }
    }
    Ok(())
}

/// The only worker, or none.
fn work_alone<R: Wait, G: Gate>(
    rt: &R,
    alloc: Global,
    system: &System,
    number: u32,
    workers: &[WorkerLines],
    gate: &G,
    passes: &mut [Pass],
) -> Result<(), Memory>
    requires few { length workers.now ≤ 1 }
    requires may { MayWork system.now number workers.now passes.old }
    ensures many { length passes.new ≡ length passes.old }
    ensures worked { OnOk result (HaveWorked system.now number workers.now passes.new) }
{
    if workers.is_empty() {
        return Ok(());
    }
    work(rt, alloc, system, number, &workers[0], gate, &mut passes[0])
}

/// Both halves of workers that may work may work.
fn halves_may_work(
    system: &System,
    first: u32,
    workers: &[WorkerLines],
    passes: &[Pass],
    count: usize,
)
    requires may { MayWork system.now first workers.now passes.now }
    requires within { count ≤ length workers.now }
    ensures front { MayWork system.now first (take count workers.now) (take count passes.now) }
    ensures back { MayWork system.now (first + count) (drop count workers.now) (drop count passes.now) }
{}

/// Runs workers whose numbers count on from a first one, by halves of halves, each on a thread of its own.
#[cycle(crew)]
pub fn work_all<R: Threads + Wait + Sync, G: Gate + Sync>(
    rt: &R,
    alloc: Global,
    system: &System,
    first: u32,
    workers: &[WorkerLines],
    gate: &G,
    passes: &mut [Pass],
) -> Result<(), Memory>
    requires { MayWork system.now first workers.now passes.old }
    ensures many { length passes.new ≡ length passes.old }
    ensures worked { OnOk result (HaveWorked system.now first workers.now passes.new) }
{
    let count = workers.len() / 2;
    if count == 0 {
        return work_alone(rt, alloc, system, first, workers, gate, passes);
    }
    halves_may_work(system, first, workers, passes, count);
    let second = first + count as u32;
    let (left, right) = workers.split_at(count);
    let (front, back) = passes.split_at_mut(count);
    let (one, other) = work_halves(
        rt, alloc, system, gate, first, left, front, second, right, back,
    );
    one?;
    other
}

/// Runs both halves side by side.
#[cycle(crew)]
fn work_halves<R: Threads + Wait + Sync, G: Gate + Sync>(
    rt: &R,
    alloc: Global,
    system: &System,
    gate: &G,
    first: u32,
    left: &[WorkerLines],
    front: &mut [Pass],
    second: u32,
    right: &[WorkerLines],
    back: &mut [Pass],
) -> (Result<(), Memory>, Result<(), Memory>)
    requires front { MayWork system.now first left.now front.old }
    requires back { MayWork system.now second right.now back.old }
    requires some_left { 0 < length left.now }
    requires some_right { 0 < length right.now }
    ensures front_many { length front.new ≡ length front.old }
    ensures back_many { length back.new ≡ length back.old }
    ensures front { OnOk result.0 (HaveWorked system.now first left.now front.new) }
    ensures back { OnOk result.1 (HaveWorked system.now second right.now back.new) }
{
    let mut one = || -> Result<(), Memory>
        requires { IsSync R.row × IsSync G.row × MayWork system.now first left.now front.now }
        ensures { (length front.exit.now ≡ length front.entry.now) × OnOk result (HaveWorked system.entry.now first left.entry.now front.exit.now) }
    { work_all(rt, alloc, system, first, left, gate, front) };
    let mut other = || -> Result<(), Memory>
        requires { IsSync R.row × IsSync G.row × MayWork system.now second right.now back.now }
        ensures { (length back.exit.now ≡ length back.entry.now) × OnOk result (HaveWorked system.entry.now second right.entry.now back.exit.now) }
    { work_all(rt, alloc, system, second, right, gate, back) };
    join_mut(rt, &mut one, &mut other)
}
