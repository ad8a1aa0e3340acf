//! Each pass on a thread of its own.
ghost use Rattle.std.specs.Prelude.{◌≡◌, length, ⊤, OnOk};
ghost use Rattle.std.specs.Thread.{IsSync};
ghost use Rattle.k42_crews.specs.Crews.{EachBecomes};
ghost use Rattle.k42_crews.specs.Ready.{IsFree, AreFree, StaysFree, callers_of};
ghost use Rattle.co_system.specs.Systems.{SystemSeen, SystemPass};

use co_system::{Pass, System};
use k42_memory::Memory;
use std::alloc::Global;
use std::sync::Wait;
use std::thread::{Threads, join_mut};

/// What is done with each pass of a crew.
pub trait Work {
    /// What a pass has become of itself once the work with it is done. Nothing is said where this is left out.
    ghost becomes: { Self → SystemSeen → SystemPass → SystemPass → Type 0 } = { λ work system old new. ⊤ };

    /// Ends with nothing under way, even where there was no memory.
    fn work<R: Wait>(
        &self,
        rt: &R,
        alloc: Global,
        system: &System,
        pass: &mut Pass,
    ) -> Result<(), Memory>
        requires { IsFree system.now pass.old }
        ensures free { StaysFree system.now pass.old pass.new }
        ensures done { OnOk result (becomes self.now system.now pass.old pass.new) };
}

/// Does the work with each pass once, on a thread of its own. Where there was no memory for some of it, all passes are
/// there still, in their order and with nothing under way: the system may be gone on with, or closed.
#[cycle(crew)]
pub fn work_all<R: Threads + Wait + Sync, W: Work + Sync>(
    rt: &R,
    alloc: Global,
    system: &System,
    work: &W,
    passes: &mut [Pass],
) -> Result<(), Memory>
    requires { AreFree system.now passes.old }
    ensures free { AreFree system.now passes.new }
    ensures callers { callers_of passes.new ≡ callers_of passes.old }
    ensures done { OnOk result (EachBecomes (W.becomes work.now system.now) passes.old passes.new) }
{
    let Some((pass, others)) = passes.split_first_mut() else {
        return Ok(());
    };
    let (one, rest) = work_both(rt, alloc, system, work, pass, others);
    one?;
    rest
}

/// Does the work with one pass beside that of the others.
#[cycle(crew)]
fn work_both<R: Threads + Wait + Sync, W: Work + Sync>(
    rt: &R,
    alloc: Global,
    system: &System,
    work: &W,
    pass: &mut Pass,
    others: &mut [Pass],
) -> (Result<(), Memory>, Result<(), Memory>)
    requires one { IsFree system.now pass.old }
    requires others { AreFree system.now others.old }
    ensures one { StaysFree system.now pass.old pass.new }
    ensures one_done { OnOk result.0 (W.becomes work.now system.now pass.old pass.new) }
    ensures others { AreFree system.now others.new }
    ensures callers { callers_of others.new ≡ callers_of others.old }
    ensures others_done { OnOk result.1 (EachBecomes (W.becomes work.now system.now) others.old others.new) }
{
    let mut one = || -> Result<(), Memory>
        requires { IsSync R.row × IsSync W.row × IsFree system.now pass.now }
        ensures { StaysFree system.entry.now pass.entry.now pass.exit.now × OnOk result (W.becomes work.entry.now system.entry.now pass.entry.now pass.exit.now) }
    { work.work(rt, alloc, system, pass) };
    let mut rest = || -> Result<(), Memory>
        requires { IsSync R.row × IsSync W.row × AreFree system.now others.now }
        ensures { AreFree system.entry.now others.exit.now × (callers_of others.exit.now ≡ callers_of others.entry.now)
            × OnOk result (EachBecomes (W.becomes work.entry.now system.entry.now) others.entry.now others.exit.now) }
    { work_all(rt, alloc, system, work, others) };
    join_mut(rt, &mut one, &mut rest)
}
