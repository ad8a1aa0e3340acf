//! Systems of one counter on one processor, and the pass of their only caller.
ghost use Rattle.std.specs.Prelude.{◌≡◌, length};
ghost use Rattle.table_crews.specs.Ready.{HoldsNoCell};

use co_any::AnyLayout;
use k42_kinds::{Entry, KindName, LayoutName, Op, Reply};
use k42_rule::{Keep, Sys};
use std::alloc::Global;
use std::process::Abort;
use table_crews::{Walk, last};

/// A system that keeps so much, and its pass.
#[tactic(auto, using(table_crews::proofs::PassLists::any_tags))]
pub(super) fn start(rt: &impl Abort, alloc: Global, keep: Keep) -> (Sys<AnyLayout>, Walk)
    ensures callers { length result.0.callers ≡ 1 }
    ensures free { HoldsNoCell result.0 result.1 }
    ensures keeps { result.0.keep ≡ keep }
{
    let counter = AnyLayout::of(KindName::Counter, LayoutName::Shared);
    let layouts = vec![in alloc; counter].expect(rt, "memory");
    let callers = vec![in alloc; 0].expect(rt, "memory");
    let started = table_crews::start(alloc, layouts, 1, callers, keep);
    let (sys, mut passes) = started.expect(rt, "memory");
    let pass = last(&sys, &mut passes).expect(rt, "a pass");
    (sys, pass)
}

/// How many entries the pass has kept.
pub(super) fn kept(pass: &Walk) -> usize {
    pass.log().len()
}

/// What the pass, which is to rest, has drawn.
pub(super) fn finish(
    rt: &impl Abort,
    alloc: Global,
    sys: Sys<AnyLayout>,
    pass: Walk,
) -> Vec<Vec<Entry<Op, Reply>>>
    requires callers { length sys.callers ≡ 1 }
    requires free { HoldsNoCell sys pass }
{
    let passes = vec![in alloc; pass].expect(rt, "memory");
    let lists = table_crews::finish(alloc, sys, passes).expect(rt, "memory");
    lists.expect(rt, "a pass at rest")
}

/// Calls the object in an activity of its own, and answers the stamp of the entry.
pub(super) fn call(
    rt: &impl Abort,
    alloc: Global,
    sys: &Sys<AnyLayout>,
    pass: &mut Walk,
    op: &Op,
) -> u64
    requires free { HoldsNoCell sys.now pass.old }
    ensures free { HoldsNoCell sys.now pass.new }
{
    let made = table_crews::call(alloc, sys, pass, 0, op).expect(rt, "memory");
    made.expect(rt, "an open object")
}
