//! What the passes do, and whether it is answered as it is due.
ghost use Rattle.std.specs.Prelude.{OnOk, IfOk};
ghost use Rattle.k42_crews.specs.Ready.{IsFree, IsIn};
ghost use Rattle.swap_probe.specs.Ready.{IsSwapping};

use co_system::{NoCall, NoSwap, Pass, Step, Swap, System};
use k42_kinds::{Op, Reply, To};
use k42_limits::PASS_GRACES;
use k42_memory::Memory;
use std::alloc::Global;
use std::sync::Wait;

/// Why the passes do not go on.
#[derive(Clone, Copy, Debug, PartialEq, Eq)]
pub enum Fault {
    Memory,
    /// An answer was not the one that is due.
    Wrong,
}

impl From<Memory> for Fault {
    fn from(_: Memory) -> Fault {
        Fault::Memory
    }
}

impl From<NoCall> for Fault {
    fn from(reason: NoCall) -> Fault {
        match reason {
            NoCall::Memory => Fault::Memory,
            NoCall::Worn => Fault::Wrong,
        }
    }
}

impl From<NoSwap> for Fault {
    fn from(reason: NoSwap) -> Fault {
        match reason {
            NoSwap::Memory => Fault::Memory,
            NoSwap::Worn => Fault::Wrong,
        }
    }
}

/// Goes on only where this holds.
pub(crate) fn due(holds: bool) -> Result<(), Fault> {
    if holds { Ok(()) } else { Err(Fault::Wrong) }
}

/// Makes a call in the activity.
pub(crate) fn ask<R: Wait>(
    rt: &R,
    alloc: Global,
    system: &System,
    pass: &mut Pass,
    op: Op,
    reply: Reply,
) -> Result<(), Fault>
    requires { IsIn system.now pass.old }
    ensures { OnOk result (IsIn system.now pass.new) }
{
    if !system.takes(0, &op) {
        return Err(Fault::Wrong);
    }
    due(system.call(rt, alloc, pass, 0, op)? == reply)
}

/// A swap of the object that has not begun.
pub(crate) fn new_swap(system: &System, pass: &Pass) -> Result<Swap, Fault>
    requires { IsFree system.now pass.now }
    ensures { IfOk result (λ swap. IsSwapping system.now swap pass.now) }
{
    if system.objects() == 0 {
        return Err(Fault::Wrong);
    }
    Ok(Swap::new(0, To::Layout(1)))
}

/// Takes a step of a swap that is not over.
pub(crate) fn step(
    alloc: Global,
    system: &System,
    pass: &mut Pass,
    swap: &mut Swap,
) -> Result<Step, Fault>
    requires { IsSwapping system.now swap.old pass.old }
    ensures { OnOk result (IsSwapping system.now swap.new pass.new) }
{
    if swap.ended() {
        return Err(Fault::Wrong);
    }
    Ok(swap.step(alloc, system, pass))
}

/// Leaves a swap that is over.
pub(crate) fn end_swap(system: &System, pass: &Pass, swap: &Swap) -> Result<(), Fault>
    requires { IsSwapping system.now swap.now pass.now }
    ensures { OnOk result (IsFree system.now pass.now) }
{
    if !swap.ended() {
        return Err(Fault::Wrong);
    }
    Ok(())
}

/// Frees just so many rows.
pub(crate) fn free<R: Wait>(
    rt: &R,
    system: &System,
    pass: &mut Pass,
    rows: u32,
) -> Result<(), Fault>
    requires { IsFree system.now pass.old }
    ensures { OnOk result (IsFree system.now pass.new) }
{
    if pass.graces() >= PASS_GRACES {
        return Err(Fault::Wrong);
    }
    due(system.reclaim(rt, pass) == rows)
}
