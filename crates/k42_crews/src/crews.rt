//! Passes that have nothing under way, and the history that they leave.
ghost use Rattle.std.specs.Prelude.{◌≡◌, ◌+◌, ◌<◌, ◌^◌, ◌++◌, ◌↔◌, true, length, IfOk, IfSome, IsSome};
ghost use Rattle.std.specs.List.{range_with_len};
ghost use Rattle.std.specs.Option.{option_to_list};
ghost use Rattle.k42_board.specs.declared.keep.Keep.TheVariants.{All};
ghost use Rattle.k42_crews.specs.Ready.{IsFree, AreFree, AreAll, callers_of};
ghost use Rattle.k42_rule.specs.Finishing.{lists_in};
ghost use Rattle.k42_runtime.specs.Histories.{IsClosed, HasHistory};
ghost use Rattle.k42_runtime.specs.Systems.{HasStarted};

use k42_clustered::Clustered;
use k42_memory::Memory;
use k42_runtime::{History, Pass, Plan, System};
use std::alloc::Global;

/// The system of the plan, and its passes in the order of the plan's callers.
pub fn start<L: Clustered>(
    alloc: Global,
    plan: Plan<L>,
) -> Result<(System<L>, Vec<Pass<L>>), Memory>
    ensures started { IfOk result (λ made. HasStarted L.Layout plan made.0 made.1.items) }
    ensures free { IfOk result (λ made. AreFree made.0 made.1.items) }
    ensures all { IfOk result (λ made. AreAll made.0 made.1.items) }
{
    let (system, passes) = System::start(alloc, plan)?;
    Ok((system, passes))
}

/// Takes the last pass out of the list, if there is one.
pub fn last<L: Clustered>(system: &System<L>, passes: &mut Vec<Pass<L>>) -> Option<Pass<L>>
    requires free { AreFree system.now passes.old.items }
    ensures out { passes.old.items ≡ passes.new.items ++ option_to_list result }
    ensures some { IsSome result ↔ (0 < length passes.old.items) }
    ensures free { IfSome result (λ pass. IsFree system.now pass) }
    ensures others { AreFree system.now passes.new.items }
{
    passes.pop()
}

/// Whether the passes are those of the next callers.
fn are_in_order<L: Clustered>(passes: &[Pass<L>], first: u32) -> bool
    requires { first + length passes.now < 2 ^ 32 }
    ensures { (result ≡ true) ↔ (callers_of passes.now ≡ range_with_len first (length passes.now)) }
{
    let Some((pass, others)) = passes.split_first() else {
        return true;
    };
    pass.caller() == first && are_in_order::<L>(others, first + 1)
}

/// Whether the passes are those of all callers in order.
#[tactic(auto, using(crate::proofs::FreePasses::many_all))]
pub fn are_all<L: Clustered>(system: &System<L>, passes: &[Pass<L>]) -> bool
    ensures { (result ≡ true) ↔ AreAll system.now passes.now }
{
    passes.len() == system.callers() as usize && are_in_order::<L>(passes, 0)
}

/// The history of the passes, which have kept all their entries. There is none where they are not those of all callers in
/// order.
pub fn close<L: Clustered>(
    alloc: Global,
    system: System<L>,
    passes: Vec<Pass<L>>,
) -> Result<Option<History<L>>, Memory>
    requires free { AreFree system passes.items }
    requires keeps { system.plan.keep ≡ All }
    ensures whole { IfOk result (λ closed. IsSome closed ↔ AreAll system passes.items) }
    ensures closed { IfOk result (λ closed. IfSome closed (IsClosed L.object system.plan (lists_in passes.items))) }
{
    if !are_all(&system, passes.as_slice()) {
        return Ok(None);
    }
    match system.close(alloc, passes) {
        Ok(history) => Ok(Some(history)),
        Err(_) => Err(Memory),
    }
}

/// Ends a system of which nobody asks for the history, with no memory. It is not ended where the passes are not those of
/// all callers in order.
pub fn end<L: Clustered>(system: System<L>, passes: Vec<Pass<L>>) -> bool
    requires { AreFree system passes.items }
    ensures whole { (result ≡ true) ↔ AreAll system passes.items }
    ensures history { result ≡ true → HasHistory L.object system.plan (lists_in passes.items) }
{
    let all = are_all(&system, passes.as_slice());
    if all {
        system.end(passes);
    }
    all
}
