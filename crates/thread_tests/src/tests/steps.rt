//! An operation at the one cell that it needs.
ghost use Rattle.table_crews.specs.Ready.{HoldsNoCell, IsServing};

use co_any::AnyLayout;
use crossbeam_utils::Backoff;
use k42_kinds::Op;
use k42_limits::PASS_ENTRIES;
use k42_rule::Sys;
use std::alloc::Global;
use std::process::Abort;
use std::sync::Wait;
use table_crews::Walk;

/// Tries to make an operation of the object whose row the call is in. There is no stamp where another caller holds the
/// cell.
fn try_step(
    rt: &impl Abort,
    alloc: Global,
    sys: &Sys<AnyLayout>,
    pass: &mut Walk,
    op: &Op,
) -> Option<u64>
    requires free { HoldsNoCell sys.now pass.old }
    requires serving { IsServing pass.old.view }
    ensures free { HoldsNoCell sys.now pass.new }
    ensures serving { IsServing pass.new.view }
{
    assert!(rt; pass.drawn() < PASS_ENTRIES);
    table_crews::step(alloc, sys, pass, op).expect(rt, "memory")
}

/// Makes the operation, and waits while another caller holds the cell. Answers the stamp of the entry.
pub(super) fn step<R: Abort + Wait>(
    rt: &R,
    alloc: Global,
    sys: &Sys<AnyLayout>,
    pass: &mut Walk,
    op: &Op,
) -> u64
    requires free { HoldsNoCell sys.now pass.old }
    requires serving { IsServing pass.old.view }
    ensures free { HoldsNoCell sys.now pass.new }
    ensures serving { IsServing pass.new.view }
{
    let backoff = Backoff::new();
    for _ in rt.forever() {
        if let Some(stamp) = try_step(rt, alloc, sys, pass, op) {
            return stamp;
        }
        backoff.snooze();
    }
    unreachable!()
}
