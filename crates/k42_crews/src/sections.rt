//! A crew gives its history in sections.
ghost use Rattle.std.specs.Prelude.{◌≡◌, ◌↔◌, ◌==◌, true, IfNone, IfOk, IfSome, IsSome, OnErr};
ghost use Rattle.std.specs.List.{list_all};
ghost use Rattle.k42_crews.specs.Ready.{AreFree, MayGive, callers_of};
ghost use Rattle.k42_rule.specs.Sections.{AreEven};
ghost use Rattle.k42_runtime.specs.Sections.{IsSection};

use crate::crews::are_all;
use k42_clustered::Clustered;
use k42_memory::Memory;
use k42_runtime::{Journal, Keep, Pass, System};
use std::alloc::Global;

/// Whether this was the last section of each.
fn are_since<L: Clustered>(passes: &[Pass<L>], since: u64) -> bool
    ensures { result ≡ list_all (λ pass. pass.keep.since == since) passes.now }
{
    passes.iter().all(|pass| pass.since() == since)
}

/// Whether the last section was one of them all.
fn are_even<L: Clustered>(passes: &[Pass<L>]) -> bool
    ensures { (result ≡ true) ↔ AreEven passes.now }
{
    match passes.first() {
        Some(first) => are_since::<L>(passes, first.since()),
        None => true,
    }
}

/// What the passes have drawn since the last section, as `System::section` gives it; then the system goes on. There is
/// none, and nothing is done, where the plan keeps no sections, the passes are not those of all callers in order, or the
/// last section was not one of them all.
#[tactic(auto, using(crate::proofs::FreePasses::section_free, crate::proofs::FreePasses::section_callers, crate::proofs::FreePasses::give_again))]
pub fn section<L: Clustered>(
    alloc: Global,
    system: &System<L>,
    passes: &mut [Pass<L>],
) -> Result<Option<Journal<L::Op, L::Reply>>, Memory>
    requires { AreFree system.now passes.old }
    ensures whole { IfOk result (λ section. IsSome section ↔ MayGive system.now passes.old) }
    ensures given { IfOk result (λ section. IfSome section (IsSection passes.old passes.new)) }
    ensures again { IfOk result (λ section. IfSome section (λ _. MayGive system.now passes.new)) }
    ensures kept { IfOk result (λ section. IfNone section (passes.new ≡ passes.old)) }
    ensures memory { OnErr result (passes.new ≡ passes.old) }
    ensures free { AreFree system.now passes.new }
    ensures callers { callers_of passes.new ≡ callers_of passes.old }
{
    if system.keep() != Keep::Sections || !are_all(system, passes) || !are_even::<L>(passes) {
        return Ok(None);
    }
    Ok(Some(system.section(alloc, passes)?))
}
