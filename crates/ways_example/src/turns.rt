//! What each of the passes does.
ghost use Rattle.std.specs.Prelude.{◌<◌, ℕ};
ghost use Rattle.k42_crews.specs.Ready.{IsFree, StaysFree};
ghost use Rattle.k42_kinds.specs.declared.entry.To.TheVariants as To;
ghost use Rattle.k42_runtime.specs.Systems.{MayLead};

use k42_clustered::Clustered;
use k42_crews::{call_once, swap_once};
use k42_memory::Memory;
use k42_runtime::{Pass, System};
use std::alloc::Global;
use std::sync::Wait;

/// The number of the only object.
pub(crate) const OBJECT: u32 = 0;

/// What the passes do: the first has the object kept in each of its ways, one after the other and again, and each other
/// asks the same of it.
#[derive(Drop)]
pub(crate) struct Turns<O> {
    /// How many ways the object has, and some.
    pub(crate) ways: u8,
    pub(crate) swaps: u32,
    pub(crate) op: O,
    pub(crate) calls: u32,
}

/// Has the object kept in one way after the other.
fn swap_round<L: Clustered, R: Wait>(
    rt: &R,
    alloc: Global,
    system: &System<L>,
    turns: &Turns<L::Op>,
    pass: &mut Pass<L>,
) -> Result<(), Memory>
    requires free { IsFree system.now pass.old }
    requires some { 0 < turns.now.ways }
    requires leads { (way : ℕ) → way < turns.now.ways → MayLead L.leads system.now.plan.objects OBJECT (To.Layout way) }
    ensures { StaysFree system.now pass.old pass.new }
{
    let mut way = 0u8;
    for _ in 0..turns.swaps {
        swap_once(rt, alloc, system, pass, OBJECT, way).map_err(|_| Memory)?;
        way = if turns.ways - way > 1 { way + 1 } else { 0 };
    }
    Ok(())
}

/// Asks so often.
fn call_often<L: Clustered, R: Wait>(
    rt: &R,
    alloc: Global,
    system: &System<L>,
    turns: &Turns<L::Op>,
    pass: &mut Pass<L>,
) -> Result<(), Memory>
where
    L::Op: Copy,
    requires { IsFree system.now pass.old }
    ensures { StaysFree system.now pass.old pass.new }
{
    for _ in 0..turns.calls {
        call_once(rt, alloc, system, pass, OBJECT, turns.op).map_err(|_| Memory)?;
    }
    Ok(())
}

/// The first pass swaps, and each other calls.
pub(crate) fn work<L: Clustered, R: Wait>(
    rt: &R,
    alloc: Global,
    system: &System<L>,
    turns: &Turns<L::Op>,
    pass: &mut Pass<L>,
) -> Result<(), Memory>
where
    L::Op: Copy,
    requires free { IsFree system.now pass.old }
    requires some { 0 < turns.now.ways }
    requires leads { (way : ℕ) → way < turns.now.ways → MayLead L.leads system.now.plan.objects OBJECT (To.Layout way) }
    ensures { StaysFree system.now pass.old pass.new }
{
    if pass.caller() == 0 {
        swap_round(rt, alloc, system, turns, pass)
    } else {
        call_often(rt, alloc, system, turns, pass)
    }
}
