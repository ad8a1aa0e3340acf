//! Swaps that are polled by hand, and by an executor.
ghost use Rattle.std.specs.Prelude.{◌≡◌, length, IfOk, IsSomeAnd};
ghost use Rattle.co_system.specs.Systems.{MayLead};
ghost use Rattle.k42_crews.specs.Ready.{IsFree};
ghost use Rattle.k42_runtime.specs.Swaps.{MayStart, HasEnded};
ghost use Rattle.k42_runtime.specs.Systems.{IsPassHere};
ghost use Rattle.swap_future.specs.Polling.{IsGoing};

use co_system::{Cause, Pass, Swap, System, To};
use futures::Future;
use futures::executor::block_on;
use futures::future::join;
use futures::task::{Doorbell, Poll, Queue};
use std::alloc::{AllocGlobal, Global};
use std::io;
use std::process::Abort;
use std::random::RandomSource;
use std::sync::Wait;
use swap_future::{SwapEnd, SwapFuture};

/// A swap of the pass to the spread layout.
pub(super) fn swap_with<'a>(
    rt: &impl Abort,
    alloc: Global,
    system: &'a System,
    pass: Pass,
    object: u32,
) -> SwapFuture<'a>
    requires free { IsFree system.now pass }
    ensures system { result.system.now ≡ system.now }
    ensures going { IsSomeAnd result.pass (IsGoing system.now result.swap) }
{
    assert!(rt; object < system.objects());
    SwapFuture::new(alloc, system, pass, object, To::Layout(1))
}

/// A poll of the swap, which is held up so.
pub(super) fn waits<'a, R: Abort + Wait + RandomSource + AllocGlobal>(
    rt: &R,
    system: &System,
    mut future: SwapFuture<'a>,
    due: Cause,
) -> SwapFuture<'a>
    requires system { future.system.now ≡ system.now }
    requires going { IsSomeAnd future.pass (IsGoing system.now future.swap) }
    ensures system { result.system.now ≡ system.now }
    ensures going { IsSomeAnd result.pass (IsGoing system.now result.swap) }
{
    let queue = Queue::new(rt, Doorbell::spinning()).expect(rt, "a queue");
    queue.add().expect(rt, "a task").schedule();
    let mut cx = queue.next(rt).expect(rt, "a task");
    let polled = future.poll(&mut cx);
    cx.end(&polled);
    assert!(rt; polled.is_pending());
    assert_eq!(rt; future.cause(), Some(due));
    future
}

/// Both swaps until they have ended.
pub(super) fn both<R: Wait + RandomSource + AllocGlobal>(
    rt: &R,
    system: &System,
    first: SwapFuture<'_>,
    second: SwapFuture<'_>,
) -> io::Result<(SwapEnd, SwapEnd)>
    requires first_system { first.system.now ≡ system.now }
    requires first { IsSomeAnd first.pass (IsGoing system.now first.swap) }
    requires second_system { second.system.now ≡ system.now }
    requires second { IsSomeAnd second.pass (IsGoing system.now second.swap) }
    ensures first { IfOk result (λ ends. IsFree system.now ends.0.pass) }
    ensures second { IfOk result (λ ends. IsFree system.now ends.1.pass) }
{
    block_on(rt, join(first, second))
}

/// The swap as far as it is, and its pass.
pub(super) fn stopped(system: &System, future: SwapFuture<'_>) -> (Swap, Pass)
    requires going { IsSomeAnd future.pass (IsGoing system.now future.swap) }
    ensures going { IsGoing system.now result.0 result.1 }
{
    future.stop()
}

/// What a swap by a future leaves is what a swap leaves.
pub(super) fn swapped<R: Abort + Wait + RandomSource + AllocGlobal>(
    rt: &R,
    alloc: Global,
    system: &System,
    pass: Pass,
    object: u32,
    to: To,
) -> SwapEnd
    requires free { IsFree system.now pass }
    requires leads { MayLead system.now.plan object to }
    ensures ended { HasEnded system.now object to result.result pass result.pass }
    ensures free { IsFree system.now result.pass }
{
    assert!(rt; object < system.objects());
    block_on(rt, SwapFuture::new(alloc, system, pass, object, to)).expect(rt, "an end")
}
