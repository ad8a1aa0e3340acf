//! How a system of one object begins and ends.
ghost use Rattle.std.specs.Prelude.{◌≡◌, ◌<◌, ◌↔◌, [], ◌∷◌, length, IfOk, IfSome, IsSome, slice_get};
ghost use Rattle.k42_board.specs.declared.keep.Keep.TheVariants.{All};
ghost use Rattle.k42_crews.specs.Once.{HasAskedOnce};
ghost use Rattle.k42_crews.specs.Ready.{AreFree, callers_of};
ghost use Rattle.k42_kinds.specs.Legal.{IsLegalHistoryOf};
ghost use Rattle.k42_runtime.specs.Calls.{IsAsked};
ghost use Rattle.ways_example.specs.declared.turns.TheConstants.{OBJECT};

use crate::turns::OBJECT;
use k42_clustered::Clustered;
use k42_crews::{ask_once, close, start};
use k42_kinds::Entry;
use k42_memory::Memory;
use k42_runtime::{Keep, Pass, Plan, Question, System};
use std::alloc::Global;
use std::sync::Wait;

/// A system of an object that starts in this layout, and five passes on five of eight processors. There is none where no system has
/// such an object.
pub(crate) fn begin<L: Clustered>(
    alloc: Global,
    layout: L,
) -> Result<Option<(System<L>, Vec<Pass<L>>)>, Memory>
    ensures free { IfOk result (λ begun. IfSome begun (λ made. AreFree made.0 made.1.items)) }
    ensures keeps { IfOk result (λ begun. IfSome begun (λ made. made.0.plan.keep ≡ All)) }
    ensures object { IfOk result (λ begun. IfSome begun (λ made. made.0.plan.objects ≡ layout ∷ [])) }
{
    let mut objects = Vec::new(alloc);
    objects.push(layout)?;
    let processors = vec![in alloc; 0u32, 2u32, 3u32, 5u32, 7u32]?;
    let Ok(plan) = Plan::new(8, objects, processors, Keep::All) else {
        return Ok(None);
    };
    let (system, passes) = start(alloc, plan)?;
    Ok(Some((system, passes)))
}

/// What the first pass is told. There is none where there is no pass, or the object does not take the operation.
pub(crate) fn ask<L: Clustered, A: Question<L>, R: Wait>(
    rt: &R,
    alloc: Global,
    system: &System<L>,
    passes: &mut [Pass<L>],
    question: &A,
) -> Result<Option<A::Told>, Memory>
    requires { AreFree system.now passes.old }
    ensures free { AreFree system.now passes.new }
    ensures callers { callers_of passes.new ≡ callers_of passes.old }
    ensures made { IfOk result (λ answer. IsSome answer ↔ ((0 < length passes.old) × IsAsked L.object system.now.plan.objects OBJECT (A.asks question.now))) }
    ensures told { IfOk result (λ answer. IfSome answer (λ told. IfSome (slice_get passes.old 0) (λ old. IfSome (slice_get passes.new 0) (λ new.
        HasAskedOnce OBJECT (A.asks question.now) (A.tells question.now) told old.view new.view)))) }
{
    let Some((pass, _others)) = passes.split_first_mut() else {
        return Ok(None);
    };
    ask_once(rt, alloc, system, pass, OBJECT, question).map_err(|_| Memory)
}

/// The history that the passes leave. There is none where they are not all there.
pub(crate) fn end<L: Clustered>(
    alloc: Global,
    system: System<L>,
    passes: Vec<Pass<L>>,
) -> Result<Option<Vec<Entry<L::Op, L::Reply>>>, Memory>
    requires free { AreFree system passes.items }
    requires keeps { system.plan.keep ≡ All }
    ensures legal { IfOk result (λ ended. IfSome ended (λ entries. IsLegalHistoryOf L.object system.plan.objects entries.items)) }
{
    match close(alloc, system, passes)? {
        Some(history) => Ok(Some(history.collect(alloc)?)),
        None => Ok(None),
    }
}
