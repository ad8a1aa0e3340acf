//! A swap that is polled.
ghost use Rattle.std.specs.Prelude.{◌≡◌, length, None, Some, IsSome, IsSomeAnd};
ghost use Rattle.co_system.specs.Systems.{MayLead};
ghost use Rattle.futures.specs.Poll.{IfReady, OnPending};
ghost use Rattle.futures.specs.Task.{Covers, Keeps};
ghost use Rattle.k42_runtime.specs.Phases.{last_step};
ghost use Rattle.k42_runtime.specs.Swaps.{MayStart, HasStepped};
ghost use Rattle.k42_runtime.specs.Systems.{IsPassHere};
ghost use Rattle.swap_future.specs.declared.polling.SwapEnd.{SwapEnd};
ghost use Rattle.swap_future.specs.Polling.{IsGoing, Ends, WasHeldUp, new_swap};

use co_system::{Cause, NoSwap, Pass, Step, Swap, Swapped, System, To};
use futures::Future;
use futures::task::{Context, Poll};
use std::alloc::Global;

/// How a swap ended, and its pass.
#[derive(Drop)]
pub struct SwapEnd {
    pub result: Result<Swapped, NoSwap>,
    pub pass: Pass,
}

/// A swap, a step of which is made at each poll. It has its pass until it is ready. If it is let go before, the object
/// stays under the swap, and the system can't be closed: `stop` is for that.
#[derive(Drop)]
pub struct SwapFuture<'a> {
    alloc: Global,
    pub system: &'a System,
    /// None once it was ready.
    pub pass: Option<Pass>,
    pub swap: Swap,
    /// What held it up at its last poll.
    pub cause: Option<Cause>,
}

impl<'a> SwapFuture<'a> {
    /// A swap that has not begun. It takes no memory.
    pub fn new(alloc: Global, system: &'a System, pass: Pass, object: u32, to: To) -> SwapFuture<'a>
        requires ours { IsPassHere system.now pass }
        requires may { MayStart (length system.now.plan.objects) object pass }
        requires leads { MayLead system.now.plan object to }
        ensures system { result.system.now ≡ system.now }
        ensures pass { result.pass ≡ Some pass }
        ensures swap { result.swap ≡ new_swap object to }
        ensures cause { result.cause ≡ None }
    {
        SwapFuture {
            alloc,
            system,
            pass: Some(pass),
            swap: Swap::new(object, to),
            cause: None,
        }
    }

    /// What held it up at its last poll: None before the first, and once it was ready.
    pub fn cause(&self) -> Option<Cause>
        ensures { result ≡ self.now.cause }
    {
        self.cause
    }

    /// The swap as far as it is, and its pass, to be stepped on by hand.
    pub fn stop(self) -> (Swap, Pass)
        requires going { IsSome self.pass }
        ensures swap { result.0 ≡ self.entry.swap }
        ensures pass { Some result.1 ≡ self.entry.pass }
    {
        let SwapFuture { swap, pass, .. } = self;
        let Some(pass) = pass else { unreachable!() };
        (swap, pass)
    }
}

impl Future for SwapFuture<'_> {
    type Output = SwapEnd;

    ghost can_poll = { λ f. IsSomeAnd f.pass (IsGoing f.system.now f.swap) };

    ghost gives = { λ f end. IsSomeAnd f.pass (λ pass. Ends f.system.now f.swap pass end.result end.pass) };

    fn poll(&mut self, cx: &mut Context<'_>) -> Poll<SwapEnd>
        requires { IsSomeAnd self.old.pass (IsGoing self.old.system.now self.old.swap) }
        ensures value { IfReady result (λ end. IsSomeAnd self.old.pass (λ pass. Ends self.old.system.now self.old.swap pass end.result end.pass)) }
        ensures again { OnPending result (IsSomeAnd self.new.pass (IsGoing self.new.system.now self.new.swap)) }
        ensures same { OnPending result ((end : SwapEnd) → IsSomeAnd self.new.pass (λ pass. Ends self.new.system.now self.new.swap pass end.result end.pass)
            → IsSomeAnd self.old.pass (λ pass. Ends self.old.system.now self.old.swap pass end.result end.pass)) }
        ensures registered { OnPending result (Covers cx.new (λ _. ⊥)) }
        ensures kept { Keeps cx.old cx.new }
        ensures system { self.new.system.now ≡ self.old.system.now }
        ensures held_up { OnPending result (WasHeldUp self.old.system.now self.old.pass self.old.swap self.new.pass self.new.swap self.new.cause) }
        ensures stepped { IfReady result (λ end. IsSomeAnd self.old.pass (λ pass.
            HasStepped self.old.system.now (last_step end.result) self.old.swap self.new.swap pass end.pass)) }
        ensures over { IfReady result (λ end. (self.new.pass ≡ None) × (self.new.cause ≡ None)) }
    {
        let Some(mut pass) = self.pass.take() else {
            unreachable!()
        };
        self.cause = None;
        match self.swap.step(self.alloc, self.system, &mut pass) {
            Step::Again(cause) => {
                self.pass = Some(pass);
                self.cause = Some(cause);
                cx.yield_now()
            }
            Step::Ended(end) => Poll::Ready(SwapEnd {
                result: Ok(end),
                pass,
            }),
            Step::Memory => Poll::Ready(SwapEnd {
                result: Err(NoSwap::Memory),
                pass,
            }),
            Step::Worn => Poll::Ready(SwapEnd {
                result: Err(NoSwap::Worn),
                pass,
            }),
        }
    }
}
