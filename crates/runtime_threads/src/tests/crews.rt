//! Systems of one spread object, the passes of their callers, and the entries that these keep.
ghost use Rattle.std.specs.Prelude.{◌≡◌};
ghost use Rattle.k42_board.specs.declared.keep.Keep.TheVariants.{All};
ghost use Rattle.k42_crews.specs.Ready.{AreFree};

use co_system::{History, Keep, Pass, Plan, System, kept_as};
use k42_crews::{close, start};
use k42_kinds::{Entry, KindName, LayoutName, Op, Reply};
use std::alloc::Global;
use std::process::Abort;
use std::sync::Wait;
use std::sync::atomic::{AtomicU64, Ordering};
use std::thread::Parker;
use std::time::Duration;

/// A system of one spread object on so many processors, and the passes of the callers on these of them.
pub(super) fn crew_of(
    rt: &impl Abort,
    alloc: Global,
    kind: KindName,
    procs: u32,
    homes: &[u32],
) -> (System, Vec<Pass>)
    ensures free { AreFree result.0 result.1.items }
    ensures keeps { result.0.plan.keep ≡ All }
{
    let objects = vec![in alloc; kept_as(kind, LayoutName::Spread)].expect(rt, "memory");
    let homes = homes.to_vec(alloc).expect(rt, "memory");
    let plan = Plan::new(procs, objects, homes, Keep::All).expect(rt, "a plan");
    start(alloc, plan).expect(rt, "memory")
}

/// The entries of the history of the passes.
pub(super) fn closed(
    rt: &impl Abort,
    alloc: Global,
    system: System,
    passes: Vec<Pass>,
) -> Vec<Entry<Op, Reply>>
    requires free { AreFree system passes.items }
    requires keeps { system.plan.keep ≡ All }
{
    let history = close(alloc, system, passes).expect(rt, "memory");
    entries_of(rt, alloc, &history.expect(rt, "all passes"))
}

/// The entries of a history.
fn entries_of(rt: &impl Abort, alloc: Global, history: &History) -> Vec<Entry<Op, Reply>>
    ensures { result.items ≡ history.now.entries }
{
    history.collect(alloc).expect(rt, "memory")
}

/// Waits until there are so many, for some ten seconds at most. Once somebody has waited in vain, nobody waits.
pub(super) fn wait_for(rt: &impl Wait, count: &AtomicU64, least: u64, late: &AtomicU64) {
    let sleeper = Parker::new();
    for _ in 0..10_000 {
        if count.load(Ordering::SeqCst) >= least || late.load(Ordering::SeqCst) > 0 {
            return;
        }
        sleeper.park_timeout(rt, Duration::from_millis(1));
    }
    late.fetch_add(1, Ordering::SeqCst);
}
