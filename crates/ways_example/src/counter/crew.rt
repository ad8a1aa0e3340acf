//! Each pass on a thread of its own.
ghost use Rattle.std.specs.Prelude.{◌≡◌, ◌<◌, ◌≤◌, length};
ghost use Rattle.std.specs.Thread.{IsSync};
ghost use Rattle.k42_crews.specs.Ready.{IsFree, AreFree, StaysFree, callers_of};

use crate::kept::{CounterPass, CounterSystem};
use crate::turns::{Turns, work};
use k42_kinds::Op;
use k42_memory::Memory;
use std::alloc::Global;
use std::sync::Wait;
use std::thread::{Threads, join_mut};

/// Does the work with each pass, on a thread of its own.
#[cycle(crew)]
pub(crate) fn work_all<R: Threads + Wait + Sync>(
    rt: &R,
    alloc: Global,
    system: &CounterSystem,
    turns: &Turns<Op>,
    passes: &mut [CounterPass],
) -> Result<(), Memory>
    requires free { AreFree system.now passes.old }
    requires some { 0 < turns.now.ways }
    requires few { turns.now.ways ≤ 4 }
    ensures free { AreFree system.now passes.new }
    ensures callers { callers_of passes.new ≡ callers_of passes.old }
{
    let Some((pass, others)) = passes.split_first_mut() else {
        return Ok(());
    };
    let (one, rest) = work_both(rt, alloc, system, turns, pass, others);
    one?;
    rest
}

/// Does the work with one pass beside that of the others.
#[cycle(crew)]
fn work_both<R: Threads + Wait + Sync>(
    rt: &R,
    alloc: Global,
    system: &CounterSystem,
    turns: &Turns<Op>,
    pass: &mut CounterPass,
    others: &mut [CounterPass],
) -> (Result<(), Memory>, Result<(), Memory>)
    requires one { IsFree system.now pass.old }
    requires others { AreFree system.now others.old }
    requires some { 0 < turns.now.ways }
    requires few { turns.now.ways ≤ 4 }
    ensures one { StaysFree system.now pass.old pass.new }
    ensures others { AreFree system.now others.new }
    ensures callers { callers_of others.new ≡ callers_of others.old }
{
    let mut one = || -> Result<(), Memory>
        requires { IsSync R.row × IsFree system.now pass.now × (0 < turns.now.ways) × (turns.now.ways ≤ 4) }
        ensures { StaysFree system.entry.now pass.entry.now pass.exit.now }
    { work(rt, alloc, system, turns, pass) };
    let mut rest = || -> Result<(), Memory>
        requires { IsSync R.row × AreFree system.now others.now × (0 < turns.now.ways) × (turns.now.ways ≤ 4) }
        ensures { AreFree system.entry.now others.exit.now × (callers_of others.exit.now ≡ callers_of others.entry.now) }
    { work_all(rt, alloc, system, turns, others) };
    join_mut(rt, &mut one, &mut rest)
}
