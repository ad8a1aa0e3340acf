//! Three passes add in rounds, and a fourth swaps in each round but the last.
ghost use Rattle.table_crews.specs.Ready.{HoldsNoCell};

use crate::tests::crews::amount_of;
use crate::tests::phases::swap;
use crate::tests::visits::visit_once;
use co_any::AnyLayout;
use crossbeam_utils::Backoff;
use k42_kinds::Op;
use k42_rule::Sys;
use std::alloc::Global;
use std::process::Abort;
use std::sync::Wait;
use std::sync::atomic::{AtomicU64, Ordering};
use table_crews::Walk;

/// How many calls were answered, and how many swaps are done.
#[derive(Drop)]
pub(super) struct Progress {
    calls: AtomicU64,
    swaps: AtomicU64,
}

impl Progress {
    pub(super) fn new() -> Progress {
        Progress {
            calls: AtomicU64::new(0),
            swaps: AtomicU64::new(0),
        }
    }
}

/// A pass whose calls are over, and the stamps that they were answered with.
pub(super) type Called = (Walk, Vec<u64>);

/// Waits until there are so many.
fn wait_for(rt: &impl Wait, count: &AtomicU64, least: u64) {
    let backoff = Backoff::new();
    for _ in rt.forever() {
        if count.load(Ordering::SeqCst) >= least {
            return;
        }
        backoff.snooze();
    }
    unreachable!()
}

/// Adds the caller's amount to the first object, 250 times.
fn add_round<R: Abort + Wait>(
    rt: &R,
    alloc: Global,
    sys: &Sys<AnyLayout>,
    pass: &mut Walk,
    stamps: &mut Vec<u64>,
    progress: &Progress,
)
    requires free { HoldsNoCell sys.now pass.old }
    ensures free { HoldsNoCell sys.now pass.new }
{
    let op = Op::Add(amount_of(pass.caller()));
    for _ in 0..250 {
        let stamp = visit_once(rt, alloc, sys, pass, 0, &op);
        stamps.push(stamp).expect(rt, "memory");
        progress.calls.fetch_add(1, Ordering::SeqCst);
    }
}

/// Adds in four rounds, each of which begins when the swap of the one before is done.
pub(super) fn add_all<R: Abort + Wait>(
    rt: &R,
    alloc: Global,
    sys: &Sys<AnyLayout>,
    mut pass: Walk,
    progress: &Progress,
) -> Called
    requires free { HoldsNoCell sys.now pass }
    ensures free { HoldsNoCell sys.now result.0 }
{
    let mut stamps = Vec::new(alloc);
    for round in 0..4 {
        wait_for(rt, &progress.swaps, round);
        add_round(rt, alloc, sys, &mut pass, &mut stamps, progress);
    }
    (pass, stamps)
}

/// Swaps the first object to the layout of that tag, once so many calls were answered. The grace of the swap is to free
/// so many rows.
fn swap_after<R: Abort + Wait>(
    rt: &R,
    alloc: Global,
    sys: &Sys<AnyLayout>,
    pass: &mut Walk,
    progress: &Progress,
    calls: u64,
    tag: u32,
    freed: u32,
)
    requires free { HoldsNoCell sys.now pass.old }
    ensures free { HoldsNoCell sys.now pass.new }
{
    wait_for(rt, &progress.calls, calls);
    swap(rt, alloc, sys, pass, 0, tag, freed);
    progress.swaps.fetch_add(1, Ordering::SeqCst);
}

/// Swaps to the shared layout, to the spread one, and to the shared one again, each time after a hundred calls of a
/// round, which has 750. Each swap but the first frees the row of the one before.
pub(super) fn swap_all<R: Abort + Wait>(
    rt: &R,
    alloc: Global,
    sys: &Sys<AnyLayout>,
    mut pass: Walk,
    progress: &Progress,
) -> Walk
    requires free { HoldsNoCell sys.now pass }
    ensures free { HoldsNoCell sys.now result }
{
    swap_after(rt, alloc, sys, &mut pass, progress, 100, 0, 0);
    swap_after(rt, alloc, sys, &mut pass, progress, 850, 1, 1);
    swap_after(rt, alloc, sys, &mut pass, progress, 1600, 0, 1);
    pass
}
