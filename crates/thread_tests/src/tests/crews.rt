//! Systems of one counter on two processors, and the passes of their four callers.
ghost use Rattle.std.specs.Prelude.{◌≡◌, length};
ghost use Rattle.table_crews.specs.Ready.{HoldsNoCell};

use co_any::AnyLayout;
use k42_kinds::{Entry, LayoutName, Op, Reply};
use k42_rule::Sys;
use std::alloc::Global;
use std::process::Abort;
use table_crews::{Walk, last, start_counter};

/// How much the caller adds with each call. A thousand adds of one fill no digit of those of another.
pub(super) fn amount_of(caller: u32) -> u32 {
    match caller {
        0 => 1,
        1 => 10_000,
        _ => 100_000_000,
    }
}

/// A system, and the passes of its callers 0 and 1, and 2 and 3.
pub(super) fn start(rt: &impl Abort, alloc: Global) -> (Sys<AnyLayout>, (Walk, Walk), (Walk, Walk))
    ensures callers { length result.0.callers ≡ 4 }
    ensures front { HoldsNoCell result.0 result.1.0 × HoldsNoCell result.0 result.1.1 }
    ensures back { HoldsNoCell result.0 result.2.0 × HoldsNoCell result.0 result.2.1 }
{
    let callers = vec![in alloc; 0, 1, 0, 1].expect(rt, "memory");
    let started = start_counter(alloc, LayoutName::Spread, 2, callers);
    let (sys, mut passes) = started.expect(rt, "memory");
    let three = last(&sys, &mut passes).expect(rt, "a pass");
    let two = last(&sys, &mut passes).expect(rt, "a pass");
    let one = last(&sys, &mut passes).expect(rt, "a pass");
    let zero = last(&sys, &mut passes).expect(rt, "a pass");
    (sys, (zero, one), (two, three))
}

/// What the four, which are to rest, have drawn.
pub(super) fn finish(
    rt: &impl Abort,
    alloc: Global,
    sys: Sys<AnyLayout>,
    front: (Walk, Walk),
    back: (Walk, Walk),
) -> Vec<Vec<Entry<Op, Reply>>>
    requires callers { length sys.callers ≡ 4 }
    requires front { HoldsNoCell sys front.0 × HoldsNoCell sys front.1 }
    requires back { HoldsNoCell sys back.0 × HoldsNoCell sys back.1 }
{
    let (zero, one) = front;
    let (two, three) = back;
    let passes = vec![in alloc; zero, one, two, three].expect(rt, "memory");
    let lists = table_crews::finish(alloc, sys, passes).expect(rt, "memory");
    lists.expect(rt, "passes at rest")
}
