//! Plans that are polled by hand, and by an executor.
ghost use Rattle.std.specs.Prelude.{◌≡◌, ◌<◌, true, length, IfOk, IsSomeAnd};
ghost use Rattle.co_any.specs.Layouts.{LeadsAny};
ghost use Rattle.co_system.specs.Systems.{MayLead};
ghost use Rattle.k42_crews.specs.Ready.{AreFree};
ghost use Rattle.k42_places.specs.Places.{EachPlace};
ghost use Rattle.k42_watch.specs.WatchedRows.{LeadsWatched};
ghost use Rattle.swap_future.specs.Rolling.{IsRolling, MayRoll, seen};
ghost use Rattle.roll_tests.specs.Rolls.{AreWithin};

use co_system::{Cause, Pass, System, To};
use futures::Future;
use futures::executor::block_on;
use futures::task::{Doorbell, Queue};
use std::alloc::{AllocGlobal, Global};
use std::io;
use std::process::Abort;
use std::random::RandomSource;
use std::sync::Wait;
use swap_future::{Roll, Rolled};

/// Whether a swap of any object may lead there.
fn leads(to: To) -> bool
    ensures { result ≡ true → LeadsWatched LeadsAny to }
{
    match to {
        To::Layout(number) => number < 2,
        To::Dead | To::Watch | To::Unwatch => true,
    }
}

fn are_within(plan: &[(u32, To)], objects: u32) -> bool
    ensures { result ≡ true → AreWithin objects plan.now }
{
    let Some((asked, others)) = plan.split_first() else {
        return true;
    };
    if asked.0 >= objects || !leads(asked.1) {
        return false;
    }
    are_within(others, objects)
}

/// Whether these passes, which have nothing under way, may roll this plan.
fn may_roll(system: &System, passes: &[Pass], plan: &[(u32, To)]) -> bool
    requires { AreFree system.now passes.now }
    ensures some { result ≡ true → 0 < length passes.now }
    ensures passes { result ≡ true → EachPlace (λ i. MayRoll system.now) passes.now }
    ensures objects { result ≡ true → EachPlace (λ i asked. asked.0 < length system.now.plan.objects) plan.now }
    ensures leads { result ≡ true → EachPlace (λ i asked. MayLead system.now.plan asked.0 asked.1) plan.now }
{
    if !are_within(plan, system.objects()) {
        return false;
    }
    !passes.is_empty()
}

/// A roll of this plan by these passes.
pub(super) fn roll_of<'a>(
    rt: &impl Abort,
    alloc: Global,
    system: &'a System,
    passes: Vec<Pass>,
    plan: Vec<(u32, To)>,
) -> Roll<'a>
    requires free { AreFree system.now passes.items }
    ensures system { result.system.now ≡ system.now }
    ensures rolls { IsSomeAnd result.rolling (λ rolling. IsRolling system.now (seen rolling)) }
{
    if !may_roll(system, passes.as_slice(), plan.as_slice()) {
        panic!(rt; "a plan past its bounds");
    }
    let Ok(roll) = Roll::new(alloc, system, passes, plan) else {
        panic!(rt; "no memory");
    };
    roll
}

/// A poll of the roll, which is held up: these are the causes of its first two passes.
pub(super) fn is_held_up<'a, R: Abort + Wait + RandomSource + AllocGlobal>(
    rt: &R,
    system: &System,
    mut roll: Roll<'a>,
    due: (Option<Cause>, Option<Cause>),
) -> Roll<'a>
    requires system { roll.system.now ≡ system.now }
    requires rolls { IsSomeAnd roll.rolling (λ rolling. IsRolling system.now (seen rolling)) }
    ensures system { result.system.now ≡ system.now }
    ensures rolls { IsSomeAnd result.rolling (λ rolling. IsRolling system.now (seen rolling)) }
{
    let queue = Queue::new(rt, Doorbell::spinning()).expect(rt, "a queue");
    queue.add().expect(rt, "a task").schedule();
    let mut cx = queue.next(rt).expect(rt, "a task");
    let polled = roll.poll(&mut cx);
    cx.end(&polled);
    assert!(rt; polled.is_pending());
    assert!(rt; roll.cause(0) == due.0);
    assert!(rt; roll.cause(1) == due.1);
    roll
}

/// The roll until it is over.
pub(super) fn rolled<R: Wait + RandomSource + AllocGlobal>(
    rt: &R,
    system: &System,
    roll: Roll<'_>,
) -> io::Result<Rolled>
    requires system { roll.system.now ≡ system.now }
    requires rolls { IsSomeAnd roll.rolling (λ rolling. IsRolling system.now (seen rolling)) }
    ensures free { IfOk result (λ end. AreFree system.now end.passes.items) }
{
    let end = block_on(rt, roll)?;
    Ok(end)
}

/// A roll of this plan by these passes, until it is over.
pub(super) fn roll_through<R: Abort + Wait + RandomSource + AllocGlobal>(
    rt: &R,
    alloc: Global,
    system: &System,
    passes: Vec<Pass>,
    plan: Vec<(u32, To)>,
) -> Rolled
    requires free { AreFree system.now passes.items }
    ensures free { AreFree system.now result.passes.items }
{
    let roll = roll_of(rt, alloc, system, passes, plan);
    rolled(rt, system, roll).expect(rt, "an end")
}
