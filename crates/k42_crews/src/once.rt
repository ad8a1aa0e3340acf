//! A call, a question or a swap of a pass that has nothing under way.
ghost use Rattle.std.specs.Prelude.{◌≡◌, ◌<◌, ◌↔◌, length, Err, IfNone, IfOk, IfSome, IsSome, OnErr};
ghost use Rattle.k42_crews.specs.Once.{HasAskedOnce, HasCalledOnce};
ghost use Rattle.k42_crews.specs.Ready.{IsFree, StaysFree};
ghost use Rattle.k42_runtime.specs.Calls.{IsAsked, IsWorn};
ghost use Rattle.k42_runtime.specs.Replies.{CanBeReplied};
ghost use Rattle.k42_runtime.specs.Swaps.{EndsWithoutMemory, HasNotBegun, HasSwapped, IsWornOut};
ghost use Rattle.k42_runtime.specs.Systems.{MayLead, live_in};
ghost use Rattle.k42_runtime.specs.declared.calls.NoCall.TheVariants as NoCall;
ghost use Rattle.k42_runtime.specs.declared.swaps.NoSwap.TheVariants as NoSwap;
ghost use Rattle.k42_kinds.specs.declared.entry.To.TheVariants as To;

use k42_clustered::Clustered;
use k42_runtime::{NoCall, NoSwap, Pass, Question, Swapped, System};
use std::alloc::Global;
use std::sync::Wait;

/// Makes the call in an activity of its own. There is no reply, and nothing was done, where the object does not take the
/// operation.
pub fn call_once<L: Clustered, R: Wait>(
    rt: &R,
    alloc: Global,
    system: &System<L>,
    pass: &mut Pass<L>,
    object: u32,
    op: L::Op,
) -> Result<Option<L::Reply>, NoCall>
    requires { IsFree system.now pass.old }
    ensures free { StaysFree system.now pass.old pass.new }
    ensures made { IfOk result (λ reply. IsSome reply ↔ IsAsked L.object system.now.plan.objects object op) }
    ensures called { IfOk result (λ reply. IfSome reply (λ told. HasCalledOnce object op told pass.old.view pass.new.view)) }
    ensures can { IfOk result (λ reply. IfSome reply (λ told. CanBeReplied L.object L.serves system.now.plan.objects object op told)) }
    ensures kept { IfOk result (λ reply. IfNone reply (pass.new ≡ pass.old)) }
    ensures unmade { OnErr result (pass.new.view.taker.mine ≡ pass.old.view.taker.mine) }
    ensures worn { (result ≡ Err NoCall.Worn) ↔ (IsAsked L.object system.now.plan.objects object op × IsWorn pass.old.view) }
{
    if !system.takes(object, &op) {
        return Ok(None);
    }
    system.enter(pass);
    let reply = system.call(rt, alloc, pass, object, op);
    system.leave(pass);
    Ok(Some(reply?))
}

/// Asks the question in an activity of its own. Nothing is told, and nothing was done, where the object does not take its
/// operation.
pub fn ask_once<L: Clustered, A: Question<L>, R: Wait>(
    rt: &R,
    alloc: Global,
    system: &System<L>,
    pass: &mut Pass<L>,
    object: u32,
    question: &A,
) -> Result<Option<A::Told>, NoCall>
    requires { IsFree system.now pass.old }
    ensures free { StaysFree system.now pass.old pass.new }
    ensures made { IfOk result (λ told. IsSome told ↔ IsAsked L.object system.now.plan.objects object (A.asks question.now)) }
    ensures told { IfOk result (λ told. IfSome told (λ it.
        HasAskedOnce object (A.asks question.now) (A.tells question.now) it pass.old.view pass.new.view)) }
    ensures kept { IfOk result (λ told. IfNone told (pass.new ≡ pass.old)) }
    ensures unmade { OnErr result (pass.new.view.taker.mine ≡ pass.old.view.taker.mine) }
    ensures worn { (result ≡ Err NoCall.Worn) ↔ (IsAsked L.object system.now.plan.objects object (A.asks question.now) × IsWorn pass.old.view) }
{
    if !system.takes(object, &question.op()) {
        return Ok(None);
    }
    system.enter(pass);
    let told = system.ask(rt, alloc, pass, object, question);
    system.leave(pass);
    Ok(Some(told?))
}

/// Swaps the object to its layout of that number. There is no end, and nothing was done, where there is no such object.
pub fn swap_once<L: Clustered, R: Wait>(
    rt: &R,
    alloc: Global,
    system: &System<L>,
    pass: &mut Pass<L>,
    object: u32,
    layout: u8,
) -> Result<Option<Swapped>, NoSwap>
    requires free { IsFree system.now pass.old }
    requires leads { MayLead L.leads system.now.plan.objects object (To.Layout layout) }
    ensures free { StaysFree system.now pass.old pass.new }
    ensures made { IfOk result (λ end. IsSome end ↔ (object < length system.now.plan.objects)) }
    ensures swapped { IfOk result (λ end. IfSome end (λ told. HasSwapped object (To.Layout layout) told pass.old.view pass.new.view)) }
    ensures kept { IfOk result (λ end. IfNone end (pass.new ≡ pass.old)) }
    ensures memory { result ≡ Err NoSwap.Memory → EndsWithoutMemory (live_in system.now.sys.shapes object) object (To.Layout layout) pass.old.view pass.new.view }
    ensures worn { (result ≡ Err NoSwap.Worn) ↔ ((object < length system.now.plan.objects) × IsWornOut pass.old.view) }
    ensures unbegun { result ≡ Err NoSwap.Worn → HasNotBegun pass.old.view pass.new.view }
{
    if object >= system.objects() {
        return Ok(None);
    }
    Ok(Some(system.swap(rt, alloc, pass, object, layout)?))
}
