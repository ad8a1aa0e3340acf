//! Systems of counters, the passes of their callers, and the entries that these keep.
ghost use Rattle.std.specs.Prelude.{◌≡◌};
ghost use Rattle.k42_board.specs.declared.keep.Keep.TheVariants.{All};
ghost use Rattle.k42_crews.specs.Ready.{AreFree, IsFree};

use co_system::{History, Keep, Pass, Plan, System, kept_as};
use k42_crews::{close, last, start};
use k42_kinds::{Entry, KindName, LayoutName, Op, Reply};
use std::alloc::Global;
use std::process::Abort;

/// A system of so many shared counters, and the passes of the callers, each on its processor.
pub(super) fn counters_for(
    rt: &impl Abort,
    alloc: Global,
    procs: u32,
    objects: usize,
    homes: &[u32],
) -> (System, Vec<Pass>)
    ensures free { AreFree result.0 result.1.items }
    ensures keeps { result.0.plan.keep ≡ All }
{
    let counter = kept_as(KindName::Counter, LayoutName::Shared);
    let objects = vec![in alloc; counter; objects].expect(rt, "memory");
    let homes = homes.to_vec(alloc).expect(rt, "memory");
    let plan = Plan::new(procs, objects, homes, Keep::All).expect(rt, "a plan");
    start(alloc, plan).expect(rt, "memory")
}

/// The entries of the history of the passes.
pub(super) fn closed(
    rt: &impl Abort,
    alloc: Global,
    system: System,
    passes: Vec<Pass>,
) -> Vec<Entry<Op, Reply>>
    requires free { AreFree system passes.items }
    requires keeps { system.plan.keep ≡ All }
{
    let history = close(alloc, system, passes).expect(rt, "memory");
    entries_of(rt, alloc, &history.expect(rt, "all passes"))
}

/// The entries of a history.
fn entries_of(rt: &impl Abort, alloc: Global, history: &History) -> Vec<Entry<Op, Reply>>
    ensures { result.items ≡ history.now.entries }
{
    history.collect(alloc).expect(rt, "memory")
}

/// Puts a pass behind the others.
#[tactic(auto, using(crate::proofs::Rolled::one_more_free))]
pub(super) fn put_back(rt: &impl Abort, system: &System, passes: &mut Vec<Pass>, pass: Pass)
    requires others { AreFree system.now passes.old.items }
    requires free { IsFree system.now pass }
    ensures free { AreFree system.now passes.new.items }
{
    let Ok(()) = passes.push(pass) else {
        panic!(rt; "no memory");
    };
}

/// Takes so many passes from the end of one list to that of another, the last one first.
pub(super) fn take_over(
    rt: &impl Abort,
    system: &System,
    from: &mut Vec<Pass>,
    to: &mut Vec<Pass>,
    count: usize,
)
    requires from { AreFree system.now from.old.items }
    requires to { AreFree system.now to.old.items }
    ensures from { AreFree system.now from.new.items }
    ensures to { AreFree system.now to.new.items }
{
    for _ in 0..count {
        let pass = last(system, from).expect(rt, "a pass");
        put_back(rt, system, to, pass);
    }
}
