//! The history of the three passes.
ghost use Rattle.std.specs.Prelude.{◌≡◌, [], ◌∷◌, IfOk};
ghost use Rattle.k42_board.specs.declared.keep.Keep.TheVariants.{All};
ghost use Rattle.k42_crews.specs.Ready.{IsFree};

use crate::steps::Fault;
use co_system::{History, Pass, System};
use k42_kinds::{Answer, Entry, Op, Reply};
use k42_memory::Memory;
use std::alloc::Global;

/// The three as a list.
fn listed(alloc: Global, zero: Pass, one: Pass, two: Pass) -> Result<Vec<Pass>, Memory>
    ensures { IfOk result (λ passes. passes.items ≡ zero ∷ one ∷ two ∷ []) }
{
    let passes = vec![in alloc; zero, one, two]?;
    Ok(passes)
}

/// Closes the system. Where there is no memory, it comes back with its passes, and is closed once more.
#[tactic(auto, using(crate::proofs::ThreePasses::may_close))]
pub(crate) fn closed(
    alloc: Global,
    system: System,
    zero: Pass,
    one: Pass,
    two: Pass,
) -> Result<History, Fault>
    requires keeps { system.plan.keep ≡ All }
    requires zero { IsFree system zero }
    requires one { IsFree system one }
    requires two { IsFree system two }
{
    if system.callers() != 3 || zero.caller() != 0 || one.caller() != 1 || two.caller() != 2 {
        return Err(Fault::Wrong);
    }
    let passes = listed(alloc, zero, one, two)?;
    let back = match system.close(alloc, passes) {
        Ok(history) => return Ok(history),
        Err(back) => back,
    };
    match back.system.close(alloc, back.passes) {
        Ok(history) => Ok(history),
        Err(_) => Err(Fault::Wrong),
    }
}

/// Whether the entries have just these answers, in this order. Entries of swaps that were given up are passed over, of which
/// there are to be so many.
pub(crate) fn are_answered(
    entries: &[Entry<Op, Reply>],
    due: &[Answer<Reply>],
    given_up: usize,
) -> bool {
    let mut place: usize = 0;
    for entry in entries {
        if matches!(entry.answer, Answer::Abandoned(_)) {
            continue;
        }
        if due.get(place) != Some(&entry.answer) {
            return false;
        }
        place = place.saturating_add(1);
    }
    place == due.len() && entries.len() == due.len().saturating_add(given_up)
}
