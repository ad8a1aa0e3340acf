//! Systems on one processor, and the passes of their callers.
ghost use Rattle.std.specs.Prelude.{◌≡◌};
ghost use Rattle.k42_board.specs.declared.keep.Keep.TheVariants.{All};
ghost use Rattle.k42_crews.specs.Ready.{IsFree};

use co_system::{History, Keep, Pass, Plan, System, kept_as};
use k42_crews::{close, last, start};
use k42_kinds::{KindName, LayoutName};
use std::alloc::Global;
use std::process::Abort;

/// Passes of the callers 0 to 2.
#[derive(Drop)]
pub(super) struct Three {
    pub(super) zero: Pass,
    pub(super) one: Pass,
    pub(super) two: Pass,
}

/// A system of so many shared counters on one processor, and the passes of its three callers.
pub(super) fn counters(rt: &impl Abort, alloc: Global, objects: u32) -> (System, Three)
    ensures keeps { result.0.plan.keep ≡ All }
    ensures zero { IsFree result.0 result.1.zero }
    ensures one { IsFree result.0 result.1.one }
    ensures two { IsFree result.0 result.1.two }
{
    let counter = kept_as(KindName::Counter, LayoutName::Shared);
    let objects = vec![in alloc; counter; objects as usize].expect(rt, "memory");
    let homes = vec![in alloc; 0, 0, 0].expect(rt, "memory");
    let plan = Plan::new(1, objects, homes, Keep::All).expect(rt, "a plan");
    let (system, mut passes) = start(alloc, plan).expect(rt, "memory");
    let two = last(&system, &mut passes).expect(rt, "a pass");
    let one = last(&system, &mut passes).expect(rt, "a pass");
    let zero = last(&system, &mut passes).expect(rt, "a pass");
    (system, Three { zero, one, two })
}

/// The history of the three.
pub(super) fn closed(
    rt: &impl Abort,
    alloc: Global,
    system: System,
    zero: Pass,
    one: Pass,
    two: Pass,
) -> History
    requires keeps { system.plan.keep ≡ All }
    requires zero { IsFree system zero }
    requires one { IsFree system one }
    requires two { IsFree system two }
{
    let passes = vec![in alloc; zero, one, two].expect(rt, "memory");
    let history = close(alloc, system, passes).expect(rt, "memory");
    history.expect(rt, "all passes")
}
