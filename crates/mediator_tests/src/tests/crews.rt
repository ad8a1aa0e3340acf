//! Systems of one object on one processor, and the passes of their two callers.
ghost use Rattle.std.specs.Prelude.{◌≡◌, length};
ghost use Rattle.k42_rule.specs.Tags.{HasTags};
ghost use Rattle.k42_shapes.specs.Shapes.{IsLiveTag};
ghost use Rattle.table_crews.specs.Ready.{HoldsNoCell};

use k42_kinds::{Entry, Layout};
use k42_rule::{Keep, Pass, Sys};
use std::alloc::Global;
use std::process::Abort;

/// A system of that object, and the passes of its callers 0 and 1.
pub(super) fn start<L: Layout>(
    rt: &impl Abort,
    alloc: Global,
    layout: L,
) -> (Sys<L>, Pass<L>, Pass<L>)
    requires live { IsLiveTag (L.shapes layout) (L.tag_of layout) }
    requires tags { HasTags L.shapes L.has_tag layout }
    ensures callers { length result.0.callers ≡ 2 }
    ensures zero { HoldsNoCell result.0 result.1 }
    ensures one { HoldsNoCell result.0 result.2 }
{
    let mut layouts = Vec::new(alloc);
    layouts.push(layout).expect(rt, "memory");
    let callers = vec![in alloc; 0, 0].expect(rt, "memory");
    let started = table_crews::start(alloc, layouts, 1, callers, Keep::All);
    let (sys, mut passes) = started.expect(rt, "memory");
    let one = table_crews::last(&sys, &mut passes).expect(rt, "a pass");
    let zero = table_crews::last(&sys, &mut passes).expect(rt, "a pass");
    (sys, zero, one)
}

/// What the pass has drawn so far.
pub(super) fn drawn<L: Layout>(
    rt: &impl Abort,
    alloc: Global,
    pass: &Pass<L>,
) -> Vec<Entry<L::Op, L::Reply>> {
    pass.log().unread().collect(alloc).expect(rt, "memory")
}

/// What the two callers, which are to rest, have drawn.
pub(super) fn finish<L: Layout>(
    rt: &impl Abort,
    alloc: Global,
    sys: Sys<L>,
    zero: Pass<L>,
    one: Pass<L>,
) -> Vec<Vec<Entry<L::Op, L::Reply>>>
    requires callers { length sys.callers ≡ 2 }
    requires free { HoldsNoCell sys zero × HoldsNoCell sys one }
{
    let passes = vec![in alloc; zero, one].expect(rt, "memory");
    let lists = table_crews::finish(alloc, sys, passes).expect(rt, "memory");
    lists.expect(rt, "passes at rest")
}
