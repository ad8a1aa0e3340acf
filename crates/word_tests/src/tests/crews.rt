//! A system of one shared counter on six processors, and the passes of its four callers.
ghost use Rattle.table_crews.specs.Ready.{HoldsNoCell};

use co_any::AnyLayout;
use k42_kinds::LayoutName;
use k42_rule::Sys;
use std::alloc::Global;
use std::process::Abort;
use table_crews::{Walk, last, start_counter};

/// A system, and the passes of its callers 0 to 3.
pub(super) fn start(rt: &impl Abort, alloc: Global) -> (Sys<AnyLayout>, Walk, Walk, Walk, Walk)
    ensures zero { HoldsNoCell result.0 result.1 }
    ensures one { HoldsNoCell result.0 result.2 }
    ensures two { HoldsNoCell result.0 result.3 }
    ensures three { HoldsNoCell result.0 result.4 }
{
    let callers = vec![in alloc; 0, 5, 2, 1].expect(rt, "memory");
    let started = start_counter(alloc, LayoutName::Shared, 6, callers);
    let (sys, mut passes) = started.expect(rt, "memory");
    let three = last(&sys, &mut passes).expect(rt, "a pass");
    let two = last(&sys, &mut passes).expect(rt, "a pass");
    let one = last(&sys, &mut passes).expect(rt, "a pass");
    let zero = last(&sys, &mut passes).expect(rt, "a pass");
    (sys, zero, one, two, three)
}
