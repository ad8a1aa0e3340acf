//! Graces that wait for an activity, on one thread and on two, and rows that nobody holds.
ghost use Rattle.std.specs.Prelude.{◌≡◌, true, length};
ghost use Rattle.gen_core.specs.declared.state.GraceAt.TheVariants.{Looking, Quiet};
ghost use Rattle.k42_board.specs.Generating.{CanLeave};
ghost use Rattle.k42_board.specs.Gracing.{MayTakeRole};
ghost use Rattle.k42_quiesce.specs.Gracing.{MayStep};
ghost use Rattle.std.specs.Thread.{IsSync};
ghost use Rattle.table_crews.specs.Ready.{HoldsNoCell};

use co_any::AnyLayout;
use k42_kinds::{Entry, LayoutName, Op, Reply};
use k42_limits::PASS_GRACES;
use k42_quiesce::{Grace, GraceStep, Held, collect, enter, grace, hand_over, leave, reclaim};
use k42_rule::Sys;
use std::alloc::Global;
use std::process::Abort;
use std::sync::Wait;
use std::thread;
use std::thread::Threads;
use table_crews::{Walk, last, may_enter, start_counter};

/// A system of one counter on one processor, and the passes of its callers 0 to 2.
fn start(rt: &impl Abort, alloc: Global) -> (Sys<AnyLayout>, Walk, Walk, Walk)
    ensures callers { length result.0.callers ≡ 3 }
    ensures zero { HoldsNoCell result.0 result.1 }
    ensures one { HoldsNoCell result.0 result.2 }
    ensures two { HoldsNoCell result.0 result.3 }
{
    let callers = vec![in alloc; 0, 0, 0].expect(rt, "memory");
    let started = start_counter(alloc, LayoutName::Shared, 1, callers);
    let (sys, mut passes) = started.expect(rt, "memory");
    let two = last(&sys, &mut passes).expect(rt, "a pass");
    let one = last(&sys, &mut passes).expect(rt, "a pass");
    let zero = last(&sys, &mut passes).expect(rt, "a pass");
    (sys, zero, one, two)
}

/// What the three, which are to rest, have drawn.
fn finish(
    rt: &impl Abort,
    alloc: Global,
    sys: Sys<AnyLayout>,
    zero: Walk,
    one: Walk,
    two: Walk,
) -> Vec<Vec<Entry<Op, Reply>>>
    requires callers { length sys.callers ≡ 3 }
    requires free { HoldsNoCell sys zero × HoldsNoCell sys one × HoldsNoCell sys two }
{
    let passes = vec![in alloc; zero, one, two].expect(rt, "memory");
    let lists = table_crews::finish(alloc, sys, passes).expect(rt, "memory");
    lists.expect(rt, "passes at rest")
}

/// Begins an activity.
fn begin(rt: &impl Abort, sys: &Sys<AnyLayout>, pass: &mut Walk)
    requires free { HoldsNoCell sys.now pass.old }
    ensures free { HoldsNoCell sys.now pass.new }
    ensures entered { CanLeave pass.new.view }
{
    assert!(rt; may_enter::<AnyLayout>(pass));
    enter(sys, pass);
}

/// Whether the pass may begin a grace.
fn may_begin(pass: &Walk) -> bool
    ensures { result ≡ true → MayTakeRole pass.now.view }
{
    pass.is_idle() && pass.graces() < PASS_GRACES
}

/// One pass is in an activity. The grace of another waits for it, and holds that of a third up.
fn wait_for_one(
    rt: &impl Abort,
    sys: &Sys<AnyLayout>,
    zero: &mut Walk,
    one: &mut Walk,
    two: &mut Walk,
)
    requires free { HoldsNoCell sys.now zero.old × HoldsNoCell sys.now one.old × HoldsNoCell sys.now two.old }
    ensures free { HoldsNoCell sys.now zero.new × HoldsNoCell sys.now one.new × HoldsNoCell sys.now two.new }
{
    begin(rt, sys, zero);
    assert!(rt; may_begin(one) && may_begin(two));
    let mut first = Grace::new();
    let left = Held::Left { proc: 0, left: 1 };
    assert!(rt; first.step(sys, one) == GraceStep::Again(left));
    let mut second = Grace::new();
    let held = Held::RoleHeld { holder: 1 };
    assert_eq!(rt; second.step(sys, two), GraceStep::Again(held));
    leave(sys, zero);
    assert_eq!(rt; first.step(sys, one), GraceStep::Quiet);
    assert_eq!(rt; reclaim(sys, one), 0);
}

#[test]
fn a_grace_waits_for_the_activity_that_was_open(rt: HostRuntime) {
    let (sys, mut zero, mut one, mut two) = start(&rt, rt.alloc());
    zero.reserve().expect(&rt, "memory");
    wait_for_one(&rt, &sys, &mut zero, &mut one, &mut two);
    let lists = finish(&rt, rt.alloc(), sys, zero, one, two);
    assert_eq!(rt; lists.len(), 3);
    assert!(rt; lists.iter().all(|list| list.is_empty()));
}

/// Ends the activity of the pass.
fn leave_with(sys: &Sys<AnyLayout>, mut pass: Walk) -> Walk
    requires { HoldsNoCell sys.now pass × CanLeave pass.view }
    ensures { HoldsNoCell sys.now result }
{
    leave(sys, &mut pass);
    pass
}

/// Waits until a grace of the pass is quiet, and frees what it noted.
fn wait_with(rt: &impl Wait, sys: &Sys<AnyLayout>, mut pass: Walk) -> Walk
    requires { HoldsNoCell sys.now pass × MayTakeRole pass.view }
    ensures { HoldsNoCell sys.now result }
{
    grace(rt, sys, &mut pass);
    reclaim(sys, &mut pass);
    pass
}

/// One pass leaves while another waits for a grace, each on a thread of its own.
fn leave_meanwhile<R: Threads + Wait + Sync>(
    rt: &R,
    sys: &Sys<AnyLayout>,
    zero: Walk,
    one: Walk,
) -> (Walk, Walk)
    requires free { HoldsNoCell sys.now zero × HoldsNoCell sys.now one }
    requires may { CanLeave zero.view × MayTakeRole one.view }
    ensures free { HoldsNoCell sys.now result.0 × HoldsNoCell sys.now result.1 }
{
    thread::join(
        rt,
        move || -> Walk
            requires { HoldsNoCell sys.now zero × CanLeave zero.view }
            ensures { HoldsNoCell sys.entry.now result }
        { leave_with(sys, zero) },
        move || -> Walk
            requires { HoldsNoCell sys.now one × MayTakeRole one.view }
            ensures { HoldsNoCell sys.entry.now result }
        { wait_with(rt, sys, one) },
    )
}

#[test]
fn a_grace_waits_on_a_thread_of_its_own(rt: HostRuntime) {
    let (sys, mut zero, one, two) = start(&rt, rt.alloc());
    begin(&rt, &sys, &mut zero);
    assert!(rt; may_begin(&one));
    let (zero, one) = leave_meanwhile(&rt, &sys, zero, one);
    finish(&rt, rt.alloc(), sys, zero, one, two);
}

#[test]
fn where_no_row_is_held_none_is_handed_over(rt: HostRuntime) {
    let (sys, _zero, _one, mut pass) = start(&rt, rt.alloc());
    hand_over(&rt, &sys, &mut pass).expect(&rt, "memory");
    assert_eq!(rt; collect(&rt, &sys, &mut pass), 0);
    assert!(rt; pass.rows().is_empty());
}
