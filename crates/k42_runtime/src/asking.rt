//! Questions, each with a reply of its own type.
ghost use Rattle.std.specs.Prelude.{◌≡◌, ◌↔◌, Err, IfOk};
ghost use Rattle.k42_runtime.specs.Calls.{IsAsked, IsWorn, HasNotCalled};
ghost use Rattle.k42_runtime.specs.Replies.{HasAsked, IsReplyTo};
ghost use Rattle.k42_runtime.specs.Serving.{IsSameSeat};
ghost use Rattle.k42_runtime.specs.Systems.{IsPassHere, IsAtWork};
ghost use Rattle.k42_runtime.specs.declared.calls.NoCall.TheVariants as NoCall;

use crate::calls::NoCall;
use crate::system::System;
use k42_clustered::Clustered;
use k42_kinds::Layout;
use k42_rule::Pass;
use std::alloc::Global;
use std::sync::Wait;

/// A question: an operation, and what its reply tells. `told` is given only what some object of these layouts can reply to the
/// operation, and has no other reply to match.
pub trait Question<L: Layout> {
    type Told: Drop;

    /// The operation.
    ghost asks: { Self → L.Op };

    /// What a reply tells.
    ghost tells: { Self → L.Reply → Self.Told };

    fn op(&self) -> L::Op
        ensures { result ≡ asks self.now };

    /// What the reply tells.
    fn told(&self, reply: L::Reply) -> Self::Told
        requires { IsReplyTo L.object L.serves (asks self.now) reply }
        ensures { result ≡ tells self.now reply };
}

impl<L: Clustered> System<L> {
    /// Makes the operation of the question as `call` does, and answers what its reply tells.
    pub fn ask<A: Question<L>, R: Wait>(
        &self,
        rt: &R,
        alloc: Global,
        pass: &mut Pass<L>,
        object: u32,
        question: &A,
    ) -> Result<A::Told, NoCall>
        requires ours { IsPassHere self.now pass.old }
        requires works { IsAtWork pass.old.view }
        requires asked { IsAsked L.object self.now.plan.objects object (A.asks question.now) }
        ensures here { IsPassHere self.now pass.new }
        ensures seat { IsSameSeat pass.old pass.new }
        ensures works { IsAtWork pass.new.view }
        ensures told { IfOk result (λ told. HasAsked object (A.asks question.now) (A.tells question.now) told pass.old.view pass.new.view) }
        ensures memory { result ≡ Err NoCall.Memory → HasNotCalled pass.old.view pass.new.view }
        ensures worn { (result ≡ Err NoCall.Worn) ↔ IsWorn pass.old.view }
        ensures kept { result ≡ Err NoCall.Worn → pass.new ≡ pass.old }
    {
        let reply = self.call(rt, alloc, pass, object, question.op())?;
        Ok(question.told(reply))
    }
}
