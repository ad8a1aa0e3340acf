//! Calls, which may be stepped where nobody may wait.
ghost use Rattle.std.specs.Prelude.{◌≡◌, ◌<◌, ◌↔◌, false, [], length, Err, IfOk};
ghost use Rattle.k42_limits.specs.declared.TheConstants.{PASS_ENTRIES};
ghost use Rattle.k42_board.specs.Seen.{IsPassOf};
ghost use Rattle.k42_board.specs.Tabling.{MayLookUp};
ghost use Rattle.k42_runtime.specs.Calls.{IsAsked, IsWorn, HasCalled, HasNotCalled, HoldsUp, is_last};
ghost use Rattle.k42_runtime.specs.Replies.{CanBeReplied};
ghost use Rattle.k42_runtime.specs.Serving.{IsSameSeat, HasTried, step_with};
ghost use Rattle.k42_runtime.specs.Systems.{IsPassHere, IsAtWork};
ghost use Rattle.k42_runtime.specs.declared.calls.Attempt.TheVariants as Attempt;
ghost use Rattle.k42_runtime.specs.declared.calls.CallCause.{CallCause};
ghost use Rattle.k42_runtime.specs.declared.calls.CallStep.TheVariants as CallStep;
ghost use Rattle.k42_runtime.specs.declared.calls.NoCall.TheVariants as NoCall;
ghost use Rattle.k42_runtime.specs.declared.calls.CallTry.TheVariants as CallTry;

use crate::patience::{wait_for_cell, wait_for_swap};
use crate::serving::{go_inside, serve};
use crate::system::System;
use k42_clustered::Clustered;
use k42_kinds::Layout;
use k42_limits::PASS_ENTRIES;
use k42_memory::Memory;
use k42_rule::{Pass, Sys};
use k42_tables::finish_call;
use std::alloc::Global;
use std::marker::Model;
use std::sync::Wait;

/// What holds a call up.
#[derive(Clone, Copy, Debug, PartialEq, Eq)]
pub enum CallCause {
    /// A swap keeps the object shut.
    Blocked,
    /// The entry led elsewhere by then, which is this word.
    Elsewhere { word: u64 },
    /// The caller of this number held a cell.
    CellHeld { holder: u32 },
}

/// How far a step has brought a call.
#[derive(Clone, Copy, Debug, PartialEq, Eq)]
pub enum CallStep<R> {
    /// The pass is in its activity, inside no call, and holds no cell.
    Again(CallCause),
    Ended(R),
    Memory,
    /// The pass has drawn all the entries that a pass draws. Nothing was done.
    Worn,
}

/// How far one try has brought a call: a `CallStep` without the reply, which is where room for it was lent. A reply is
/// long, and would be copied at each return.
#[derive(Clone, Copy, Debug, PartialEq, Eq)]
pub(crate) enum CallTry {
    Again(CallCause),
    Ended,
    Memory,
    Worn,
}

/// How a call ended that was tried once, without the reply and without what held it up.
#[derive(Clone, Copy, Debug, PartialEq, Eq)]
pub enum Attempt {
    Again,
    Ended,
    Memory,
    Worn,
}

/// Why a call was not made.
#[derive(Clone, Copy, Debug, PartialEq, Eq, thiserror::Error)]
pub enum NoCall {
    #[error("out of memory")]
    Memory,
    #[error("the pass has drawn all its entries")]
    Worn,
}

/// A call of an object.
#[derive(Drop)]
pub struct Call<L: Layout> {
    object: u32,
    op: L::Op,
    ended: bool,
}

impl<L: Layout> Model for Call<L> {
    ghost use Rattle.k42_board.specs.Seen.{IsPassOf};
    ghost use Rattle.k42_board.specs.Tabling.{MayLookUp};
    ghost use Rattle.k42_runtime.specs.Calls.{CallSeen};

    ghost Value = { CallSeen L.Op };

    ghost view = { λ c. record { object = c.object; op = c.op; ended = c.ended } };
}

/// Waits before a call is tried again. It stays out of the way of a call that nothing holds up.
#[inline(never)]
fn wait_a_while(waited: &mut u32, cause: CallCause) {
    match cause {
        CallCause::CellHeld { .. } => wait_for_cell(waited),
        CallCause::Blocked | CallCause::Elsewhere { .. } => wait_for_swap(waited),
    }
}

/// One try of a call.
#[inline(always)]
fn try_once<L: Layout>(
    alloc: Global,
    sys: &Sys<L>,
    pass: &mut Pass<L>,
    object: u32,
    op: &L::Op,
    reply: &mut L::Reply,
) -> CallTry
    requires ours { IsPassOf sys.now pass.old }
    requires may { MayLookUp (length sys.now.layouts) object pass.old.view }
    requires asked { IsAsked L.object sys.now.layouts object op.now }
    requires held { pass.old.view.taker.held ≡ [] }
    requires notes { pass.old.view.notes ≡ [] }
    requires few { length pass.old.view.taker.mine < PASS_ENTRIES }
    ensures same { IsSameSeat pass.old pass.new }
    ensures tried { HasTried (step_with result reply.new) object op.now pass.old.view pass.new.view }
    ensures can { result ≡ CallTry.Ended → CanBeReplied L.object L.serves sys.now.layouts object op.now reply.new }
{
    let Ok(()) = pass.reserve_entry() else {
        return CallTry::Memory;
    };
    match go_inside(alloc, sys, pass, object) {
        Ok(None) => {
            let tried = serve(alloc, sys, pass, op, reply);
            finish_call(sys, pass);
            tried
        }
        Ok(Some(cause)) => CallTry::Again(cause),
        Err(Memory) => CallTry::Memory,
    }
}

impl<L: Clustered> Call<L> {
    /// A call that has not begun.
    pub fn new(object: u32, op: L::Op) -> Call<L>
        ensures { result ≡ record { object = object; op = op; ended = false } }
    {
        Call {
            object,
            op,
            ended: false,
        }
    }

    /// Whether it has answered `Ended`, `Memory` or `Worn`.
    pub fn ended(&self) -> bool
        ensures { result ≡ self.now.ended }
    {
        self.ended
    }

    /// Tries the call once, and does not wait.
    pub fn step(
        &mut self,
        alloc: Global,
        system: &System<L>,
        pass: &mut Pass<L>,
    ) -> CallStep<L::Reply>
        requires ours { IsPassHere system.now pass.old }
        requires works { IsAtWork pass.old.view }
        requires asked { IsAsked L.object system.now.plan.objects self.old.object self.old.op }
        requires going { self.old.ended ≡ false }
        ensures here { IsPassHere system.now pass.new }
        ensures seat { IsSameSeat pass.old pass.new }
        ensures works { IsAtWork pass.new.view }
        ensures same { self.new ≡ record self.old { ended = is_last result } }
        ensures ended { (reply : L.Reply) → result ≡ CallStep.Ended reply → HasCalled self.old.object self.old.op reply pass.old.view pass.new.view }
        ensures can { (reply : L.Reply) → result ≡ CallStep.Ended reply
            → CanBeReplied L.object L.serves system.now.plan.objects self.old.object self.old.op reply }
        ensures again { (cause : CallCause) → result ≡ CallStep.Again cause → HasNotCalled pass.old.view pass.new.view }
        ensures found { (cause : CallCause) → result ≡ CallStep.Again cause
            → HoldsUp cause self.old.object pass.old.view pass.new.view }
        ensures memory { result ≡ CallStep.Memory → HasNotCalled pass.old.view pass.new.view }
        ensures worn { (result ≡ CallStep.Worn) ↔ IsWorn pass.old.view }
        ensures kept { result ≡ CallStep.Worn → pass.new ≡ pass.old }
    {
        let mut reply = L::blank_reply();
        let tried = system.try_call(alloc, pass, self.object, &self.op, &mut reply);
        self.ended = !matches!(tried, CallTry::Again(_));
        match tried {
            CallTry::Again(cause) => CallStep::Again(cause),
            CallTry::Ended => CallStep::Ended(reply),
            CallTry::Memory => CallStep::Memory,
            CallTry::Worn => CallStep::Worn,
        }
    }
}

impl<L: Clustered> System<L> {
    /// One try of a call, which tells how far it came, and leaves the reply where it ended.
    #[inline(always)]
    fn try_call(
        &self,
        alloc: Global,
        pass: &mut Pass<L>,
        object: u32,
        op: &L::Op,
        reply: &mut L::Reply,
    ) -> CallTry
        requires ours { IsPassHere self.now pass.old }
        requires works { IsAtWork pass.old.view }
        requires asked { IsAsked L.object self.now.plan.objects object op.now }
        ensures here { IsPassHere self.now pass.new }
        ensures seat { IsSameSeat pass.old pass.new }
        ensures works { IsAtWork pass.new.view }
        ensures ended { result ≡ CallTry.Ended → HasCalled object op.now reply.new pass.old.view pass.new.view }
        ensures can { result ≡ CallTry.Ended → CanBeReplied L.object L.serves self.now.plan.objects object op.now reply.new }
        ensures again { (cause : CallCause) → result ≡ CallTry.Again cause → HasNotCalled pass.old.view pass.new.view }
        ensures found { (cause : CallCause) → result ≡ CallTry.Again cause → HoldsUp cause object pass.old.view pass.new.view }
        ensures memory { result ≡ CallTry.Memory → HasNotCalled pass.old.view pass.new.view }
        ensures worn { (result ≡ CallTry.Worn) ↔ IsWorn pass.old.view }
        ensures kept { result ≡ CallTry.Worn → pass.new ≡ pass.old }
    {
        if pass.drawn() >= PASS_ENTRIES {
            return CallTry::Worn;
        }
        try_once(alloc, &self.sys, pass, object, op, reply)
    }

    /// Tries the operation once, and does not wait. Where it ended, its reply is where room for it was lent.
    pub fn attempt(
        &self,
        alloc: Global,
        pass: &mut Pass<L>,
        object: u32,
        op: &L::Op,
        reply: &mut L::Reply,
    ) -> Attempt
        requires ours { IsPassHere self.now pass.old }
        requires works { IsAtWork pass.old.view }
        requires asked { IsAsked L.object self.now.plan.objects object op.now }
        ensures here { IsPassHere self.now pass.new }
        ensures seat { IsSameSeat pass.old pass.new }
        ensures works { IsAtWork pass.new.view }
        ensures ended { result ≡ Attempt.Ended → HasCalled object op.now reply.new pass.old.view pass.new.view }
        ensures can { result ≡ Attempt.Ended → CanBeReplied L.object L.serves self.now.plan.objects object op.now reply.new }
        ensures again { result ≡ Attempt.Again → HasNotCalled pass.old.view pass.new.view }
        ensures found { result ≡ Attempt.Again → (cause : CallCause) × HoldsUp cause object pass.old.view pass.new.view }
        ensures memory { result ≡ Attempt.Memory → HasNotCalled pass.old.view pass.new.view }
        ensures worn { (result ≡ Attempt.Worn) ↔ IsWorn pass.old.view }
        ensures kept { result ≡ Attempt.Worn → pass.new ≡ pass.old }
    {
        match self.try_call(alloc, pass, object, op, reply) {
            CallTry::Again(_) => Attempt::Again,
            CallTry::Ended => Attempt::Ended,
            CallTry::Memory => Attempt::Memory,
            CallTry::Worn => Attempt::Worn,
        }
    }

    /// Makes the operation, and answers its reply. Waits while the object is shut for a swap, and while another caller
    /// holds a cell that the operation needs. For want of memory nothing is done, nor by a pass that has drawn all its
    /// entries.
    pub fn call<R: Wait>(
        &self,
        rt: &R,
        alloc: Global,
        pass: &mut Pass<L>,
        object: u32,
        op: L::Op,
    ) -> Result<L::Reply, NoCall>
        requires ours { IsPassHere self.now pass.old }
        requires works { IsAtWork pass.old.view }
        requires asked { IsAsked L.object self.now.plan.objects object op }
        ensures here { IsPassHere self.now pass.new }
        ensures seat { IsSameSeat pass.old pass.new }
        ensures works { IsAtWork pass.new.view }
        ensures called { IfOk result (λ reply. HasCalled object op reply pass.old.view pass.new.view) }
        ensures can { IfOk result (λ reply. CanBeReplied L.object L.serves self.now.plan.objects object op reply) }
        ensures memory { result ≡ Err NoCall.Memory → HasNotCalled pass.old.view pass.new.view }
        ensures worn { (result ≡ Err NoCall.Worn) ↔ IsWorn pass.old.view }
        ensures kept { result ≡ Err NoCall.Worn → pass.new ≡ pass.old }
    {
        let mut reply = L::blank_reply();
        let mut waited = 0u32;
        for _ in rt.forever() {
            match self.try_call(alloc, pass, object, &op, &mut reply) {
                CallTry::Ended => return Ok(reply),
                CallTry::Memory => return Err(NoCall::Memory),
                CallTry::Worn => return Err(NoCall::Worn),
                CallTry::Again(cause) => wait_a_while(&mut waited, cause),
            }
        }
        unreachable!()
    }
}
