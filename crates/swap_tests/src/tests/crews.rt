//! Systems of one counter on one processor, and the passes of their three callers.
ghost use Rattle.std.specs.Prelude.{◌≡◌, length};
ghost use Rattle.table_crews.specs.Ready.{HoldsNoCell};

use co_any::AnyLayout;
use k42_kinds::{Entry, LayoutName, Op, Reply};
use k42_rule::Sys;
use std::alloc::Global;
use std::process::Abort;
use table_crews::{Walk, last, start_counter};

/// A system, and the passes of its callers 0 to 2.
pub(super) fn start(rt: &impl Abort, alloc: Global) -> (Sys<AnyLayout>, Walk, Walk, Walk)
    ensures callers { length result.0.callers ≡ 3 }
    ensures zero { HoldsNoCell result.0 result.1 }
    ensures one { HoldsNoCell result.0 result.2 }
    ensures two { HoldsNoCell result.0 result.3 }
{
    let callers = vec![in alloc; 0, 0, 0].expect(rt, "memory");
    let started = start_counter(alloc, LayoutName::Shared, 1, callers);
    let (sys, mut passes) = started.expect(rt, "memory");
    let two = last(&sys, &mut passes).expect(rt, "a pass");
    let one = last(&sys, &mut passes).expect(rt, "a pass");
    let zero = last(&sys, &mut passes).expect(rt, "a pass");
    (sys, zero, one, two)
}

/// What the three, which are to rest, have drawn.
pub(super) fn finish(
    rt: &impl Abort,
    alloc: Global,
    sys: Sys<AnyLayout>,
    zero: Walk,
    one: Walk,
    two: Walk,
) -> Vec<Vec<Entry<Op, Reply>>>
    requires callers { length sys.callers ≡ 3 }
    requires free { HoldsNoCell sys zero × HoldsNoCell sys one × HoldsNoCell sys two }
{
    let passes = vec![in alloc; zero, one, two].expect(rt, "memory");
    let lists = table_crews::finish(alloc, sys, passes).expect(rt, "memory");
    lists.expect(rt, "passes at rest")
}

/// Calls the first object in an activity of its own, and answers the stamp of the entry.
pub(super) fn call(
    rt: &impl Abort,
    alloc: Global,
    sys: &Sys<AnyLayout>,
    pass: &mut Walk,
    op: &Op,
) -> u64
    requires free { HoldsNoCell sys.now pass.old }
    ensures free { HoldsNoCell sys.now pass.new }
{
    let made = table_crews::call(alloc, sys, pass, 0, op).expect(rt, "memory");
    made.expect(rt, "an open object")
}
