//! Systems on one processor or two, the passes of their callers, and the entries that these keep.
ghost use Rattle.std.specs.Prelude.{◌≡◌};
ghost use Rattle.k42_board.specs.declared.keep.Keep.TheVariants.{All};
ghost use Rattle.k42_crews.specs.Ready.{AreFree, IsFree};

use co_system::{History, Keep, Pass, Plan, System, SystemLayout, kept_as};
use k42_crews::{close, end, last, section, start};
use k42_kinds::{Entry, KindName, LayoutName, Op, Reply};
use std::alloc::Global;
use std::process::Abort;

/// Passes of the callers 0 to 2.
#[derive(Drop)]
pub(super) struct Three {
    pub(super) zero: Pass,
    pub(super) one: Pass,
    pub(super) two: Pass,
}

/// A system of so many such objects on so many processors, and the passes of its three callers, which keep these entries.
/// Where there are two processors, the pass `one` is on the second.
pub(super) fn started(
    rt: &impl Abort,
    alloc: Global,
    object: SystemLayout,
    objects: usize,
    procs: u32,
    keep: Keep,
) -> (System, Three)
    ensures zero { IsFree result.0 result.1.zero }
    ensures one { IsFree result.0 result.1.one }
    ensures two { IsFree result.0 result.1.two }
    ensures keeps { result.0.plan.keep ≡ keep }
{
    let objects = vec![in alloc; object; objects].expect(rt, "memory");
    let homes = vec![in alloc; 0, procs / 2, 0].expect(rt, "memory");
    let plan = Plan::new(procs, objects, homes, keep).expect(rt, "a plan");
    let (system, passes) = start(alloc, plan).expect(rt, "memory");
    let crew = take_three(rt, &system, passes);
    (system, crew)
}

/// The passes of the last three callers.
pub(super) fn take_three(rt: &impl Abort, system: &System, mut passes: Vec<Pass>) -> Three
    requires { AreFree system.now passes.items }
    ensures zero { IsFree system.now result.zero }
    ensures one { IsFree system.now result.one }
    ensures two { IsFree system.now result.two }
{
    let two = last(system, &mut passes).expect(rt, "a pass");
    let one = last(system, &mut passes).expect(rt, "a pass");
    let zero = last(system, &mut passes).expect(rt, "a pass");
    Three { zero, one, two }
}

/// How a shared counter starts.
pub(super) fn counter() -> SystemLayout {
    kept_as(KindName::Counter, LayoutName::Shared)
}

/// So many shared counters on one processor, and passes that keep these entries.
pub(super) fn counters(
    rt: &impl Abort,
    alloc: Global,
    objects: usize,
    keep: Keep,
) -> (System, Three)
    ensures zero { IsFree result.0 result.1.zero }
    ensures one { IsFree result.0 result.1.one }
    ensures two { IsFree result.0 result.1.two }
    ensures keeps { result.0.plan.keep ≡ keep }
{
    started(rt, alloc, counter(), objects, 1, keep)
}

/// The three in one list.
pub(super) fn listed(
    rt: &impl Abort,
    alloc: Global,
    system: &System,
    zero: Pass,
    one: Pass,
    two: Pass,
) -> Vec<Pass>
    requires zero { IsFree system.now zero }
    requires one { IsFree system.now one }
    requires two { IsFree system.now two }
    ensures { AreFree system.now result.items }
{
    vec![in alloc; zero, one, two].expect(rt, "memory")
}

/// The entries of the history of the three.
pub(super) fn closed(
    rt: &impl Abort,
    alloc: Global,
    system: System,
    zero: Pass,
    one: Pass,
    two: Pass,
) -> Vec<Entry<Op, Reply>>
    requires zero { IsFree system zero }
    requires one { IsFree system one }
    requires two { IsFree system two }
    requires keeps { system.plan.keep ≡ All }
{
    let passes = listed(rt, alloc, &system, zero, one, two);
    let history = close(alloc, system, passes).expect(rt, "memory");
    entries_of(rt, alloc, &history.expect(rt, "all passes"))
}

/// Ends the system with the three.
pub(super) fn ended(
    rt: &impl Abort,
    alloc: Global,
    system: System,
    zero: Pass,
    one: Pass,
    two: Pass,
)
    requires zero { IsFree system zero }
    requires one { IsFree system one }
    requires two { IsFree system two }
{
    let passes = listed(rt, alloc, &system, zero, one, two);
    assert!(rt; end(system, passes));
}

/// The entries of a history.
fn entries_of(rt: &impl Abort, alloc: Global, history: &History) -> Vec<Entry<Op, Reply>>
    ensures { result.items ≡ history.now.entries }
{
    history.collect(alloc).expect(rt, "memory")
}

/// The entries of the next section.
pub(super) fn sectioned(
    rt: &impl Abort,
    alloc: Global,
    system: &System,
    passes: &mut Vec<Pass>,
) -> Vec<Entry<Op, Reply>>
    requires free { AreFree system.now passes.old.items }
    ensures free { AreFree system.now passes.new.items }
{
    let section = section(alloc, system, passes.as_mut_slice()).expect(rt, "memory");
    let journal = section.expect(rt, "all passes");
    journal.collect(alloc).expect(rt, "memory")
}

/// How many entries the pass has kept.
pub(super) fn kept_of(pass: &Pass) -> usize {
    pass.log().len()
}
