//! Activities in which an object is called.
ghost use Rattle.std.specs.Prelude.{◌≡◌, ◌<◌, true, false, length, is_some};
ghost use Rattle.phase_core.specs.Stages.{is_missed, is_at_mediator};
ghost use Rattle.table_crews.specs.Ready.{HoldsNoCell, IsIn, IsServing};

use crate::tests::steps::step;
use co_any::AnyLayout;
use crossbeam_utils::Backoff;
use k42_kinds::Op;
use k42_mediator::{Knocked, knock};
use k42_quiesce::{enter, leave};
use k42_rule::Sys;
use k42_tables::{Entered, Filled, finish_call, look_up, miss};
use std::alloc::Global;
use std::process::Abort;
use std::sync::Wait;
use table_crews::Walk;

/// Begins an activity.
fn come_in(rt: &impl Abort, sys: &Sys<AnyLayout>, pass: &mut Walk)
    requires free { HoldsNoCell sys.now pass.old }
    ensures free { HoldsNoCell sys.now pass.new }
    ensures entered { IsIn pass.new.view }
{
    assert!(rt; pass.is_idle());
    enter(sys, pass);
}

/// Has a miss handled, and answers whether the call is in the row then.
fn fill_in<R: Abort + Wait>(
    rt: &R,
    alloc: Global,
    sys: &Sys<AnyLayout>,
    pass: &mut Walk,
    object: u32,
) -> bool
    requires free { HoldsNoCell sys.now pass.old }
    requires active { is_some pass.old.view.turn.active ≡ true }
    requires missed { (is_missed pass.old.view.visitor.place object ≡ true) × (object < length sys.now.layouts) }
    ensures free { HoldsNoCell sys.now pass.new }
    ensures served { result ≡ true → IsServing pass.new.view }
    ensures out { result ≡ false → IsIn pass.new.view }
{
    let filled = miss(rt, alloc, sys, pass, object).expect(rt, "memory");
    matches!(filled, Filled::Installed { .. })
}

/// Knocks at the mediator, and answers whether it has let the call in.
fn knock_at(sys: &Sys<AnyLayout>, pass: &mut Walk, object: u32) -> bool
    requires free { HoldsNoCell sys.now pass.old }
    requires active { is_some pass.old.view.turn.active ≡ true }
    requires sent { (is_at_mediator pass.old.view.visitor.place object ≡ true) × (object < length sys.now.layouts) }
    ensures free { HoldsNoCell sys.now pass.new }
    ensures served { result ≡ true → IsServing pass.new.view }
    ensures out { result ≡ false → IsIn pass.new.view }
{
    matches!(knock(sys, pass, object), Knocked::Admitted { .. })
}

/// Looks the object up, goes wherever its entry leads, and answers whether the call is in a row then.
fn call<R: Abort + Wait>(
    rt: &R,
    alloc: Global,
    sys: &Sys<AnyLayout>,
    pass: &mut Walk,
    object: u32,
) -> bool
    requires free { HoldsNoCell sys.now pass.old }
    requires entered { IsIn pass.old.view }
    requires there { object < length sys.now.layouts }
    ensures free { HoldsNoCell sys.now pass.new }
    ensures served { result ≡ true → IsServing pass.new.view }
    ensures out { result ≡ false → IsIn pass.new.view }
{
    match look_up(sys, pass, object) {
        Entered::Direct { .. } => true,
        Entered::Missed => fill_in(rt, alloc, sys, pass, object),
        Entered::Mediated => knock_at(sys, pass, object),
    }
}

/// Ends a call that is in a row.
fn go_out(sys: &Sys<AnyLayout>, pass: &mut Walk)
    requires free { HoldsNoCell sys.now pass.old }
    requires served { IsServing pass.old.view }
    ensures free { HoldsNoCell sys.now pass.new }
    ensures out { IsIn pass.new.view }
{
    finish_call(sys, pass);
}

/// Ends the activity.
fn go_home(sys: &Sys<AnyLayout>, pass: &mut Walk)
    requires free { HoldsNoCell sys.now pass.old }
    requires out { IsIn pass.old.view }
    ensures free { HoldsNoCell sys.now pass.new }
{
    leave(sys, pass);
}

/// Makes the operation in an activity that is under way, and ends both. Answers the stamp of the entry, where the call
/// was let in.
fn stay<R: Abort + Wait>(
    rt: &R,
    alloc: Global,
    sys: &Sys<AnyLayout>,
    pass: &mut Walk,
    object: u32,
    op: &Op,
) -> Option<u64>
    requires free { HoldsNoCell sys.now pass.old }
    requires entered { IsIn pass.old.view }
    requires there { object < length sys.now.layouts }
    ensures free { HoldsNoCell sys.now pass.new }
{
    let mut stamp = None;
    if call(rt, alloc, sys, pass, object) {
        stamp = Some(step(rt, alloc, sys, pass, op));
        go_out(sys, pass);
    }
    go_home(sys, pass);
    stamp
}

/// The same in an activity of its own.
fn visit<R: Abort + Wait>(
    rt: &R,
    alloc: Global,
    sys: &Sys<AnyLayout>,
    pass: &mut Walk,
    object: u32,
    op: &Op,
) -> Option<u64>
    requires free { HoldsNoCell sys.now pass.old }
    ensures free { HoldsNoCell sys.now pass.new }
{
    assert!(rt; object < sys.objects());
    come_in(rt, sys, pass);
    stay(rt, alloc, sys, pass, object, op)
}

/// Visits the object until the operation is made, and answers the stamp of its entry.
pub(super) fn visit_once<R: Abort + Wait>(
    rt: &R,
    alloc: Global,
    sys: &Sys<AnyLayout>,
    pass: &mut Walk,
    object: u32,
    op: &Op,
) -> u64
    requires free { HoldsNoCell sys.now pass.old }
    ensures free { HoldsNoCell sys.now pass.new }
{
    let backoff = Backoff::new();
    for _ in rt.forever() {
        if let Some(stamp) = visit(rt, alloc, sys, pass, object, op) {
            return stamp;
        }
        backoff.snooze();
    }
    unreachable!()
}
