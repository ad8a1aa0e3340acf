//! A swap under which calls are in the row.
ghost use Rattle.std.specs.Prelude.{◌≡◌, true, false};
ghost use Rattle.table_crews.specs.Ready.{HoldsNoCell, IsIn, IsServing};

use crate::tests::crews::{finish, start};
use crate::tests::phases::{close, lead_in, move_out, open, transfer_to, try_early, wait_free};
use crate::tests::{called, has_drawn, has_drawn_nothing, swapped};
use co_any::AnyLayout;
use k42_kinds::{LayoutName, Op, Reply};
use k42_rule::Sys;
use std::alloc::Global;
use std::process::Abort;
use table_crews::{Walk, end, enter, leave, look_up, may_enter, step};

/// Begins an activity and a call of the first object, which is let in or not.
fn come_in(rt: &impl Abort, sys: &Sys<AnyLayout>, pass: &mut Walk, served: bool)
    requires free { HoldsNoCell sys.now pass.old }
    ensures free { HoldsNoCell sys.now pass.new }
    ensures serving { served ≡ true → IsServing pass.new.view }
    ensures out { served ≡ false → IsIn pass.new.view }
{
    assert!(rt; sys.objects() > 0 && may_enter::<AnyLayout>(pass));
    enter(sys, pass);
    assert_eq!(rt; look_up(sys, pass, 0).served, served);
}

/// Makes the operation, ends the call and the activity, and answers the stamp of the entry.
fn go_out(rt: &impl Abort, alloc: Global, sys: &Sys<AnyLayout>, pass: &mut Walk, op: &Op) -> u64
    requires free { HoldsNoCell sys.now pass.old }
    requires serving { IsServing pass.old.view }
    ensures free { HoldsNoCell sys.now pass.new }
{
    let made = step(alloc, sys, pass, op).expect(rt, "memory");
    let stamp = made.expect(rt, "a free cell");
    end(sys, pass);
    leave(sys, pass);
    stamp
}

#[test]
fn a_swap_waits_for_the_call_that_is_counted(rt: HostRuntime) {
    let alloc = rt.alloc();
    let (sys, mut zero, mut one, mut two) = start(&rt, alloc);
    lead_in(&rt, &sys, &mut one, 0);
    wait_free(&rt, &sys, &mut one, 0);
    come_in(&rt, &sys, &mut zero, true);
    close(&rt, &sys, &mut one);
    try_early(&rt, &sys, &mut one, 1);
    come_in(&rt, &sys, &mut two, false);
    leave(&sys, &mut two);
    assert!(rt; go_out(&rt, alloc, &sys, &mut zero, &Op::Add(5)) == 1);
    move_out(&rt, &sys, &mut one);
    transfer_to(&rt, alloc, &sys, &mut one, 0, 1);
    open(&rt, &sys, &mut one);
    let lists = finish(&rt, alloc, sys, zero, one, two);
    assert!(rt; lists.len() == 3);
    let mut call = called(1, 0, 0, Op::Add(5), Reply::Done);
    // It began after the grace of the swap.
    call.generation = Some(1);
    assert!(rt; has_drawn(lists.as_slice(), 0, [call].as_slice()));
    let swap = swapped(1, 2, 0, 0, LayoutName::Spread);
    assert!(rt; has_drawn(lists.as_slice(), 1, [swap].as_slice()));
    assert!(rt; has_drawn_nothing(lists.as_slice(), 2));
}
