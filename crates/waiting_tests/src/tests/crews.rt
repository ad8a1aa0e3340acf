//! Systems on one processor, the passes of their callers, and the entries that these keep.
ghost use Rattle.std.specs.Prelude.{◌≡◌};
ghost use Rattle.k42_board.specs.declared.keep.Keep.TheVariants.{All};
ghost use Rattle.k42_crews.specs.Ready.{IsFree};

use co_system::{History, Keep, Pass, Plan, System, kept_as};
use k42_crews::{close, last, start};
use k42_kinds::{Entry, KindName, LayoutName, Op, Reply};
use std::alloc::Global;
use std::process::Abort;

/// Passes of the callers 0 to 2.
#[derive(Drop)]
pub(super) struct Three {
    pub(super) zero: Pass,
    pub(super) one: Pass,
    pub(super) two: Pass,
}

/// A system of one shared counter on one processor, and the passes of its three callers.
pub(super) fn counter(rt: &impl Abort, alloc: Global) -> (System, Three)
    ensures zero { IsFree result.0 result.1.zero }
    ensures one { IsFree result.0 result.1.one }
    ensures two { IsFree result.0 result.1.two }
    ensures keeps { result.0.plan.keep ≡ All }
{
    let counter = kept_as(KindName::Counter, LayoutName::Shared);
    let objects = vec![in alloc; counter].expect(rt, "memory");
    let homes = vec![in alloc; 0, 0, 0].expect(rt, "memory");
    let plan = Plan::new(1, objects, homes, Keep::All).expect(rt, "a plan");
    let (system, mut passes) = start(alloc, plan).expect(rt, "memory");
    let two = last(&system, &mut passes).expect(rt, "a pass");
    let one = last(&system, &mut passes).expect(rt, "a pass");
    let zero = last(&system, &mut passes).expect(rt, "a pass");
    (system, Three { zero, one, two })
}

/// The entries of the history of the three.
pub(super) fn closed(
    rt: &impl Abort,
    alloc: Global,
    system: System,
    zero: Pass,
    one: Pass,
    two: Pass,
) -> Vec<Entry<Op, Reply>>
    requires zero { IsFree system zero }
    requires one { IsFree system one }
    requires two { IsFree system two }
    requires keeps { system.plan.keep ≡ All }
{
    let passes = vec![in alloc; zero, one, two].expect(rt, "memory");
    let history = close(alloc, system, passes).expect(rt, "memory");
    entries_of(rt, alloc, &history.expect(rt, "all passes"))
}

/// The entries of a history.
fn entries_of(rt: &impl Abort, alloc: Global, history: &History) -> Vec<Entry<Op, Reply>>
    ensures { result.items ≡ history.now.entries }
{
    history.collect(alloc).expect(rt, "memory")
}
