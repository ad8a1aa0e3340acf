//! A caller that meets a mediator while an object is swapped and the swap is given up.
ghost use Rattle.table_crews.specs.Ready.{HoldsNoCell};

use crate::tests::calls::{end, end_activity, find_busy, keep_out, let_in, look, start_activity};
use crate::tests::crews::{finish, start};
use crate::tests::phases::{close, give_up, move_now, send_to_mediator, try_early, wait_quiet};
use co_any::AnyLayout;
use k42_kinds::{Act, Answer, Entry, KindName, LayoutName, Op, Reply, To};
use k42_mediator::Phase;
use k42_rule::{Pass, Sys};
use std::process::Abort;

mod balky;
mod calls;
mod crews;
mod over;
mod phases;
mod refused;

/// One pass swaps an object and gives up. Another one meets it three times.
fn meet(
    rt: &impl Abort,
    sys: &Sys<AnyLayout>,
    caller: &mut Pass<AnyLayout>,
    swapper: &mut Pass<AnyLayout>,
)
    requires caller { HoldsNoCell sys.now caller.old }
    requires swapper { HoldsNoCell sys.now swapper.old }
    ensures caller { HoldsNoCell sys.now caller.new }
    ensures swapper { HoldsNoCell sys.now swapper.new }
{
    send_to_mediator(rt, sys, swapper);
    find_busy(rt, sys, caller, Phase::Forward);
    wait_quiet(rt, sys, swapper);
    start_activity(rt, sys, caller);
    look(rt, sys, caller);
    let_in(rt, sys, caller);
    close(rt, sys, swapper);
    try_early(rt, sys, swapper);
    end(sys, caller);
    look(rt, sys, caller);
    keep_out(rt, sys, caller);
    end_activity(sys, caller);
    move_now(rt, sys, swapper);
    let spread = AnyLayout::of(KindName::Counter, LayoutName::Spread);
    give_up(rt, sys, swapper, &spread);
}

/// Whether the entry tells that the first swap of the first object was given up.
fn is_given_up(entry: &Entry<Op, Reply>) -> bool {
    entry.object == 0
        && entry.incarnation == 0
        && entry.act == Act::Swap(To::Layout(1))
        && entry.answer == Answer::Abandoned(1)
}

#[test]
fn callers_meet_a_mediator(rt: HostRuntime) {
    let counter = AnyLayout::of(KindName::Counter, LayoutName::Shared);
    let (sys, mut zero, mut one) = start(&rt, rt.alloc(), counter);
    meet(&rt, &sys, &mut zero, &mut one);
    let lists = finish(&rt, rt.alloc(), sys, zero, one);
    assert_eq!(rt; lists.len(), 2);
    assert!(rt; lists[0].is_empty());
    assert_eq!(rt; lists[1].len(), 1);
    assert!(rt; is_given_up(&lists[1][0]));
}
