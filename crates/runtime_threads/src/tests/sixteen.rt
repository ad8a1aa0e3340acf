//! Passes add to one counter, up to sixteen, as many as a system has.
ghost use Rattle.std.specs.Prelude.{◌≡◌, OnOk};
ghost use Rattle.k42_crews.specs.Crews.{EachBecomes};
ghost use Rattle.k42_crews.specs.Ready.{IsFree, AreFree, StaysFree};
ghost use Rattle.runtime_threads.specs.Ready.{HasAdded};

use crate::tests::crews::{closed, crew_of, wait_for};
use co_system::{Pass, System};
use k42_crews::{Work, call_once, work_all};
use k42_kinds::{KindName, Op};
use k42_memory::Memory;
use std::alloc::Global;
use std::process::Abort;
use std::sync::Wait;
use std::sync::atomic::{AtomicU64, Ordering};
use std::thread::Threads;

/// Sixteen callers on eight processors.
pub(super) const SIXTEEN: [u32; 16] = [0, 1, 2, 3, 4, 5, 6, 7, 0, 1, 2, 3, 4, 5, 6, 7];

/// Each pass adds once.
struct AddOnce;

impl Work for AddOnce {
    ghost becomes = { λ work system old new. HasAdded system old new };

    fn work<R: Wait>(
        &self,
        rt: &R,
        alloc: Global,
        system: &System,
        pass: &mut Pass,
    ) -> Result<(), Memory> {
        call_once(rt, alloc, system, pass, 0, Op::Add(1)).map_err(|_| Memory)?;
        Ok(())
    }
}

/// And so all of them have added.
fn add_once<R: Threads + Wait + Sync>(
    rt: &R,
    alloc: Global,
    system: &System,
    passes: &mut [Pass],
) -> Result<(), Memory>
    requires free { AreFree system.now passes.old }
    ensures free { AreFree system.now passes.new }
    ensures added { OnOk result (EachBecomes (HasAdded system.now) passes.old passes.new) }
{
    work_all(rt, alloc, system, &AddOnce, passes)
}

/// How many entries the history of these passes has that add once.
pub(super) fn entries_of_all<R: Abort + Threads + Wait + Sync>(
    rt: &R,
    alloc: Global,
    homes: &[u32],
) -> usize {
    let (system, mut passes) = crew_of(rt, alloc, KindName::Counter, 8, homes);
    add_once(rt, alloc, &system, passes.as_mut_slice()).expect(rt, "memory");
    closed(rt, alloc, system, passes).len()
}

/// Adds so often.
fn add_often<R: Wait>(
    rt: &R,
    alloc: Global,
    system: &System,
    pass: &mut Pass,
    calls: u32,
) -> Result<(), Memory>
    requires { IsFree system.now pass.old }
    ensures { StaysFree system.now pass.old pass.new }
{
    for _ in 0..calls {
        call_once(rt, alloc, system, pass, 0, Op::Add(1)).map_err(|_| Memory)?;
    }
    Ok(())
}

/// The pass of the first caller adds so often, and the others once.
#[derive(Drop)]
struct AddOften {
    calls: u32,
}

impl Work for AddOften {
    fn work<R: Wait>(
        &self,
        rt: &R,
        alloc: Global,
        system: &System,
        pass: &mut Pass,
    ) -> Result<(), Memory> {
        let calls = if pass.caller() == 0 { self.calls } else { 1 };
        add_often(rt, alloc, system, pass, calls)
    }
}

/// How many entries the history has where one pass adds so often, and fifteen once.
pub(super) fn entries_of_many<R: Abort + Threads + Wait + Sync>(
    rt: &R,
    alloc: Global,
    calls: u32,
) -> usize {
    let (system, mut passes) = crew_of(rt, alloc, KindName::Counter, 8, SIXTEEN.as_slice());
    let work = AddOften { calls };
    work_all(rt, alloc, &system, &work, passes.as_mut_slice()).expect(rt, "memory");
    closed(rt, alloc, system, passes).len()
}

/// Each pass waits until all sixteen are there, and then adds.
#[derive(Drop)]
struct Meeting {
    there: AtomicU64,
    late: AtomicU64,
}

impl Work for Meeting {
    fn work<R: Wait>(
        &self,
        rt: &R,
        alloc: Global,
        system: &System,
        pass: &mut Pass,
    ) -> Result<(), Memory> {
        self.there.fetch_add(1, Ordering::SeqCst);
        wait_for(rt, &self.there, 16, &self.late);
        call_once(rt, alloc, system, pass, 0, Op::Add(1)).map_err(|_| Memory)?;
        Ok(())
    }
}

/// How many of sixteen passes that meet have waited in vain.
pub(super) fn late_of_all<R: Abort + Threads + Wait + Sync>(rt: &R, alloc: Global) -> u64 {
    let (system, mut passes) = crew_of(rt, alloc, KindName::Counter, 8, SIXTEEN.as_slice());
    let meeting = Meeting {
        there: AtomicU64::new(0),
        late: AtomicU64::new(0),
    };
    work_all(rt, alloc, &system, &meeting, passes.as_mut_slice()).expect(rt, "memory");
    meeting.late.load(Ordering::SeqCst)
}
