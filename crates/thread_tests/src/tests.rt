//! Three passes call on two processors while a fourth swaps, each on a thread of its own.
ghost use Rattle.std.specs.Thread.{IsSync};
ghost use Rattle.table_crews.specs.Ready.{HoldsNoCell};

use crate::tests::crews::{finish, start};
use crate::tests::lists::{are_adds, calls_in, is_sum, is_swap, stand_once};
use crate::tests::rounds::{Called, Progress, add_all, swap_all};
use crate::tests::visits::visit_once;
use co_any::AnyLayout;
use k42_kinds::Op;
use k42_rule::Sys;
use std::alloc::Global;
use std::process::Abort;
use std::sync::Wait;
use std::thread;
use std::thread::Threads;
use table_crews::Walk;

mod crews;
mod lists;
mod phases;
mod rounds;
mod steps;
mod visits;

/// Two passes add.
fn add_twice<R: Threads + Abort + Wait + Sync>(
    rt: &R,
    alloc: Global,
    sys: &Sys<AnyLayout>,
    one: Walk,
    other: Walk,
    progress: &Progress,
) -> (Called, Called)
    requires { HoldsNoCell sys.now one × HoldsNoCell sys.now other }
    ensures { HoldsNoCell sys.now result.0.0 × HoldsNoCell sys.now result.1.0 }
{
    thread::join(
        rt,
        move || -> Called
            requires { HoldsNoCell sys.now one }
            ensures { HoldsNoCell sys.entry.now result.0 }
        { add_all(rt, alloc, sys, one, progress) },
        move || -> Called
            requires { HoldsNoCell sys.now other }
            ensures { HoldsNoCell sys.entry.now result.0 }
        { add_all(rt, alloc, sys, other, progress) },
    )
}

/// One pass adds, and another swaps.
fn add_and_swap<R: Threads + Abort + Wait + Sync>(
    rt: &R,
    alloc: Global,
    sys: &Sys<AnyLayout>,
    one: Walk,
    other: Walk,
    progress: &Progress,
) -> (Called, Walk)
    requires { HoldsNoCell sys.now one × HoldsNoCell sys.now other }
    ensures { HoldsNoCell sys.now result.0.0 × HoldsNoCell sys.now result.1 }
{
    thread::join(
        rt,
        move || -> Called
            requires { HoldsNoCell sys.now one }
            ensures { HoldsNoCell sys.entry.now result.0 }
        { add_all(rt, alloc, sys, one, progress) },
        move || -> Walk
            requires { HoldsNoCell sys.now other }
            ensures { HoldsNoCell sys.entry.now result }
        { swap_all(rt, alloc, sys, other, progress) },
    )
}

/// All four at once.
fn run<R: Threads + Abort + Wait + Sync>(
    rt: &R,
    alloc: Global,
    sys: &Sys<AnyLayout>,
    front: (Walk, Walk),
    back: (Walk, Walk),
    progress: &Progress,
) -> ((Called, Called), (Called, Walk))
    requires front { HoldsNoCell sys.now front.0 × HoldsNoCell sys.now front.1 }
    requires back { HoldsNoCell sys.now back.0 × HoldsNoCell sys.now back.1 }
    ensures front { HoldsNoCell sys.now result.0.0.0 × HoldsNoCell sys.now result.0.1.0 }
    ensures back { HoldsNoCell sys.now result.1.0.0 × HoldsNoCell sys.now result.1.1 }
{
    thread::join(
        rt,
        move || -> (Called, Called)
            requires { IsSync R.row × HoldsNoCell sys.now front.0 × HoldsNoCell sys.now front.1 }
            ensures { HoldsNoCell sys.entry.now result.0.0 × HoldsNoCell sys.entry.now result.1.0 }
        { add_twice(rt, alloc, sys, front.0, front.1, progress) },
        move || -> (Called, Walk)
            requires { IsSync R.row × HoldsNoCell sys.now back.0 × HoldsNoCell sys.now back.1 }
            ensures { HoldsNoCell sys.entry.now result.0.0 × HoldsNoCell sys.entry.now result.1 }
        { add_and_swap(rt, alloc, sys, back.0, back.1, progress) },
    )
}

#[test]
fn calls_and_swaps_on_two_processors_leave_every_entry_once(rt: HostRuntime) {
    let (sys, front, back) = start(&rt, rt.alloc());
    let progress = Progress::new();
    let (front, back) = run(&rt, rt.alloc(), &sys, front, back, &progress);
    let ((mut zero, firsts), (one, seconds)) = front;
    let ((two, thirds), three) = back;
    assert_eq!(rt; three.graces(), 3);
    let stamp = visit_once(&rt, rt.alloc(), &sys, &mut zero, 0, &Op::Get);
    let mut lists = finish(&rt, rt.alloc(), sys, (zero, one), (two, three));
    assert_eq!(rt; lists.len(), 4);
    assert!(rt; stand_once(&rt, rt.alloc(), lists.as_slice()));
    let sum = lists[0].pop().expect(&rt, "the entry of the sum");
    assert!(rt; is_sum(&sum, 0, 1000, 100_010_001_000) && sum.stamp == stamp);
    assert!(rt; firsts.len() == 1000 && are_adds(lists[0].as_slice(), 0, firsts.as_slice()));
    assert!(rt; seconds.len() == 1000 && are_adds(lists[1].as_slice(), 1, seconds.as_slice()));
    assert!(rt; thirds.len() == 1000 && are_adds(lists[2].as_slice(), 2, thirds.as_slice()));
    assert_eq!(rt; lists[3].len(), 3);
    assert!(rt; is_swap(&lists[3][0], 1) && is_swap(&lists[3][1], 2) && is_swap(&lists[3][2], 3));
    for row in 0..4 {
        assert!(rt; calls_in(lists.as_slice(), row) >= 100);
    }
}
