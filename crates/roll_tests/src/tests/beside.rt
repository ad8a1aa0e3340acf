//! A plan that is carried out on one thread while others call its objects.
ghost use Rattle.std.specs.Thread.{IsSync};
ghost use Rattle.k42_crews.specs.Ready.{AreFree, IsFree, StaysFree};

use crate::tests::rolls::roll_through;
use co_system::{Pass, System, To};
use k42_crews::{Work, call_once, work_all};
use k42_kinds::Op;
use k42_memory::Memory;
use std::alloc::{AllocGlobal, Global};
use std::process::Abort;
use std::random::RandomSource;
use std::sync::Wait;
use std::thread::{Threads, join};
use swap_future::Rolled;

/// How many calls each pass makes.
pub(super) const CALLS: u32 = 200;

/// Adds to the four counters in turn.
struct AddToAll;

fn add_to_all<R: Wait>(
    rt: &R,
    alloc: Global,
    system: &System,
    pass: &mut Pass,
) -> Result<(), Memory>
    requires { IsFree system.now pass.old }
    ensures { StaysFree system.now pass.old pass.new }
{
    for number in 0..CALLS {
        call_once(rt, alloc, system, pass, number % 4, Op::Add(1)).map_err(|_| Memory)?;
    }
    Ok(())
}

impl Work for AddToAll {
    fn work<R: Wait>(
        &self,
        rt: &R,
        alloc: Global,
        system: &System,
        pass: &mut Pass,
    ) -> Result<(), Memory> {
        add_to_all(rt, alloc, system, pass)
    }
}

/// Rolls the plan by some passes, while each of others adds on a thread of its own.
pub(super) fn roll_beside_calls<R: Abort + Threads + Wait + RandomSource + AllocGlobal + Sync>(
    rt: &R,
    alloc: Global,
    system: &System,
    passes: Vec<Pass>,
    plan: Vec<(u32, To)>,
    mut callers: Vec<Pass>,
) -> (Rolled, Vec<Pass>)
    requires passes { AreFree system.now passes.items }
    requires callers { AreFree system.now callers.items }
    ensures rolled { AreFree system.now result.0.passes.items }
    ensures callers { AreFree system.now result.1.items }
{
    let (end, (called, callers)) = join(
        rt,
        || -> Rolled
            requires { IsSync R.row × AreFree system.now passes.items }
            ensures { AreFree system.entry.now result.passes.items }
        { roll_through(rt, alloc, system, passes, plan) },
        || -> (Result<(), Memory>, Vec<Pass>)
            requires { IsSync R.row × AreFree system.now callers.items }
            ensures { AreFree system.entry.now result.1.items }
        {
            let called = work_all(rt, alloc, system, &AddToAll, callers.as_mut_slice());
            (called, callers)
        },
    );
    called.expect(rt, "memory");
    (end, callers)
}
