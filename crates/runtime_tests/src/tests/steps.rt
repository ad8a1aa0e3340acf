//! What the passes of the tests do, within their bounds.
ghost use Rattle.std.specs.Prelude.{◌≡◌, true};
ghost use Rattle.co_any.specs.Layouts.{LeadsAny};
ghost use Rattle.k42_crews.specs.Ready.{IsFree, IsIn};
ghost use Rattle.k42_watch.specs.WatchedRows.{LeadsWatched};
ghost use Rattle.runtime_tests.specs.Ready.{IsSwapping};

use co_system::{Pass, Step, Swap, Swapped, System, To};
use k42_crews::{call_once, swap_once};
use k42_kinds::{LayoutName, Op, Reply};
use k42_limits::PASS_GRACES;
use std::alloc::Global;
use std::process::Abort;
use std::sync::Wait;

/// Begins an activity.
pub(super) fn come_in(system: &System, pass: &mut Pass)
    requires free { IsFree system.now pass.old }
    ensures inside { IsIn system.now pass.new }
{
    system.enter(pass);
}

/// Ends it.
pub(super) fn go_home(system: &System, pass: &mut Pass)
    requires inside { IsIn system.now pass.old }
    ensures free { IsFree system.now pass.new }
{
    system.leave(pass);
}

/// Makes a call in an activity, which is to be answered so.
pub(super) fn ask<R: Abort + Wait>(
    rt: &R,
    alloc: Global,
    system: &System,
    pass: &mut Pass,
    op: Op,
    due: Reply,
)
    requires inside { IsIn system.now pass.old }
    ensures inside { IsIn system.now pass.new }
{
    assert!(rt; system.takes(0, &op));
    let reply = system.call(rt, alloc, pass, 0, op).expect(rt, "a reply");
    assert!(rt; reply == due);
}

/// Makes a call in an activity of its own, which is to be answered so.
pub(super) fn ask_once<R: Abort + Wait>(
    rt: &R,
    alloc: Global,
    system: &System,
    pass: &mut Pass,
    object: u32,
    op: Op,
    due: Reply,
)
    requires free { IsFree system.now pass.old }
    ensures free { IsFree system.now pass.new }
{
    let reply = call_once(rt, alloc, system, pass, object, op).expect(rt, "a call");
    assert!(rt; reply == Some(due));
}

/// Swaps an object to this layout, which is to end so.
pub(super) fn swap_to_layout<R: Abort + Wait>(
    rt: &R,
    alloc: Global,
    system: &System,
    pass: &mut Pass,
    object: u32,
    to: LayoutName,
    due: Swapped,
)
    requires free { IsFree system.now pass.old }
    ensures free { IsFree system.now pass.new }
{
    let number = to.number();
    assert!(rt; number < 2);
    let end = swap_once(rt, alloc, system, pass, object, number).expect(rt, "a swap");
    assert!(rt; end == Some(due));
}

/// Swaps the first object to whatever it is.
pub(super) fn swap<R: Abort + Wait>(
    rt: &R,
    alloc: Global,
    system: &System,
    pass: &mut Pass,
    to: To,
) -> Swapped
    requires free { IsFree system.now pass.old }
    ensures free { IsFree system.now pass.new }
{
    assert!(rt; system.objects() > 0);
    let end = match to {
        To::Layout(number) => {
            assert!(rt; number < 2);
            system.swap(rt, alloc, pass, 0, number)
        }
        To::Dead => system.destroy(rt, alloc, pass, 0),
        To::Watch => system.watch(rt, alloc, pass, 0),
        To::Unwatch => system.unwatch(rt, alloc, pass, 0),
    };
    end.expect(rt, "an end")
}

/// Frees what the pass may free, which is to be so many rows.
pub(super) fn reclaim<R: Abort + Wait>(rt: &R, system: &System, pass: &mut Pass, due: u32)
    requires free { IsFree system.now pass.old }
    ensures free { IsFree system.now pass.new }
{
    assert!(rt; pass.graces() < PASS_GRACES);
    assert!(rt; system.reclaim(rt, pass) == due);
}

/// Whether a swap may lead there.
fn may_lead(to: To) -> bool
    ensures { result ≡ true → LeadsWatched LeadsAny to }
{
    match to {
        To::Layout(number) => number < 2,
        To::Dead | To::Watch | To::Unwatch => true,
    }
}

/// A swap of the pass that has not begun.
pub(super) fn swap_to(rt: &impl Abort, system: &System, pass: &Pass, object: u32, to: To) -> Swap
    requires free { IsFree system.now pass.now }
    ensures new { IsSwapping system.now result pass.now }
{
    assert!(rt; object < system.objects());
    assert!(rt; may_lead(to));
    Swap::new(object, to)
}

/// Steps a swap that is not over, and this step comes to that.
pub(super) fn step_to(
    rt: &impl Abort,
    alloc: Global,
    system: &System,
    pass: &mut Pass,
    swap: &mut Swap,
    due: Step,
)
    requires swapping { IsSwapping system.now swap.old pass.old }
    ensures swapping { IsSwapping system.now swap.new pass.new }
{
    assert!(rt; !swap.ended());
    let step = swap.step(alloc, system, pass);
    assert!(rt; step == due);
}

/// Leaves a swap that is over.
pub(super) fn end_swap(rt: &impl Abort, system: &System, pass: &Pass, swap: &Swap)
    requires swapping { IsSwapping system.now swap.now pass.now }
    ensures free { IsFree system.now pass.now }
{
    assert!(rt; swap.ended());
}
