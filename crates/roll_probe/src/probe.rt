//! A plan that is carried out, or comes to want of memory.
ghost use Rattle.std.specs.Prelude.{◌≡◌, ◌<◌, ◌≤◌, length, IfErr, IfOk, IfSome, IsSomeAnd};
ghost use Rattle.k42_board.specs.declared.keep.Keep.TheVariants.{All};
ghost use Rattle.co_any.specs.Layouts.{LeadsAny};
ghost use Rattle.k42_crews.specs.Ready.{AreFree};
ghost use Rattle.k42_places.specs.Places.{EachPlace};
ghost use Rattle.k42_watch.specs.WatchedRows.{LeadsWatched};
ghost use Rattle.swap_future.specs.Rolling.{IsRolling, seen};

use co_system::{History, Keep, NoSwap, Pass, Plan, Swapped, System, kept_as};
use futures::executor::block_on;
use k42_crews::{close, start};
use k42_kinds::{Answer, Entry, KindName, LayoutName, Op, Reply, To};
use k42_memory::Memory;
use std::alloc::{AllocGlobal, Global};
use std::io;
use std::random::RandomSource;
use std::sync::Wait;
use swap_future::{Roll, Rolled, Unrolled};

/// What has come of the plan.
pub enum Found {
    /// Each item has its answer and its entry.
    Whole,
    /// Memory was refused, and the history tells what was done.
    Memory,
    Wrong,
}

/// A system of three counters on one processor, and the passes of its two callers.
fn counters(alloc: Global) -> Result<Option<(System, Vec<Pass>)>, Memory>
    ensures keeps { IfOk result (λ made. IfSome made (λ crew. crew.0.plan.keep ≡ All)) }
    ensures free { IfOk result (λ made. IfSome made (λ crew. AreFree crew.0 crew.1.items)) }
{
    let mut objects = Vec::new(alloc);
    for _ in 0..3 {
        objects.push(kept_as(KindName::Counter, LayoutName::Shared))?;
    }
    let homes = vec![in alloc; 0, 0]?;
    match Plan::new(1, objects, homes, Keep::All) {
        Ok(plan) => Ok(Some(start(alloc, plan)?)),
        Err(_) => Ok(None),
    }
}

/// Four swaps of the three counters, of which one dies.
fn plan_of(alloc: Global) -> Result<Vec<(u32, To)>, Memory>
    ensures within { IfOk result (λ plan. EachPlace (λ i asked. asked.0 < 3) plan.items) }
    ensures leads { IfOk result (λ plan. EachPlace (λ i asked. LeadsWatched LeadsAny asked.1) plan.items) }
{
    let spread = To::Layout(1);
    let shared = To::Layout(0);
    let plan = vec![in alloc; (0, spread), (1, spread), (2, To::Dead), (0, shared)]?;
    Ok(plan)
}

fn tells_of_giving_up(entry: &Entry<Op, Reply>) -> bool {
    matches!(entry.answer, Answer::Abandoned(_))
}

/// Whether there is an entry for each answer, and besides at most one for each other item, which tells that it was given up.
fn is_told(
    alloc: Global,
    history: &History,
    answers: &[Result<Swapped, NoSwap>],
) -> Result<bool, Memory> {
    let entries = history.collect(alloc)?;
    let answered = answers.iter().filter(|answer| answer.is_ok()).count();
    let given_up = entries
        .iter()
        .filter(|entry| tells_of_giving_up(entry))
        .count();
    let told = answered.saturating_add(given_up);
    Ok(entries.len() == told && told <= answers.len())
}

/// One request was refused: where that was in the roll, none is refused to the close.
fn of_rolled(alloc: Global, system: System, end: Rolled) -> Found
    requires keeps { system.plan.keep ≡ All }
    requires free { AreFree system end.passes.items }
{
    let Rolled { answers, passes } = end;
    let is_whole = answers.iter().all(|answer| answer.is_ok());
    let told = match close(alloc, system, passes) {
        Ok(Some(history)) => is_told(alloc, &history, answers.as_slice()),
        Ok(None) => Ok(false),
        Err(Memory) => Err(Memory),
    };
    match told {
        Ok(true) if is_whole => Found::Whole,
        Ok(true) => Found::Memory,
        Err(Memory) if is_whole => Found::Memory,
        _ => Found::Wrong,
    }
}

/// The passes have come back, and have done nothing.
fn of_unrolled(alloc: Global, system: System, back: Unrolled) -> Found
    requires keeps { system.plan.keep ≡ All }
    requires free { AreFree system back.passes.items }
{
    match close(alloc, system, back.passes) {
        Ok(Some(history)) if history.is_empty() => Found::Memory,
        _ => Found::Wrong,
    }
}

/// A roll of four items over three objects.
fn begin<'a>(
    alloc: Global,
    system: &'a System,
    passes: Vec<Pass>,
    plan: Vec<(u32, To)>,
) -> Result<Roll<'a>, Unrolled>
    requires some { 0 < length passes.items }
    requires free { AreFree system.now passes.items }
    requires objects { 3 ≤ length system.now.plan.objects }
    requires within { EachPlace (λ i asked. asked.0 < 3) plan.items }
    requires leads { EachPlace (λ i asked. LeadsWatched LeadsAny asked.1) plan.items }
    ensures system { IfOk result (λ roll. roll.system.now ≡ system.now) }
    ensures rolls { IfOk result (λ roll. IsSomeAnd roll.rolling (λ rolling. IsRolling system.now (seen rolling))) }
    ensures free { IfErr result (λ back. AreFree system.now back.passes.items) }
{
    match Roll::new(alloc, system, passes, plan) {
        Ok(roll) => Ok(roll),
        Err(back) => Err(back),
    }
}

/// The roll until it is over.
fn rolled<R: Wait + RandomSource + AllocGlobal>(
    rt: &R,
    system: &System,
    roll: Roll<'_>,
) -> io::Result<Rolled>
    requires system { roll.system.now ≡ system.now }
    requires rolls { IsSomeAnd roll.rolling (λ rolling. IsRolling system.now (seen rolling)) }
    ensures free { IfOk result (λ end. AreFree system.now end.passes.items) }
{
    let end = block_on(rt, roll)?;
    Ok(end)
}

fn try_probe<R: Wait + RandomSource + AllocGlobal>(rt: &R, alloc: Global) -> Result<Found, Memory> {
    let Some((system, passes)) = counters(alloc)? else {
        return Ok(Found::Wrong);
    };
    if passes.is_empty() {
        return Ok(Found::Wrong);
    }
    if system.objects() < 3 {
        return Ok(Found::Wrong);
    }
    let plan = plan_of(alloc)?;
    match begin(alloc, &system, passes, plan) {
        Ok(roll) => match rolled(rt, &system, roll) {
            Ok(end) => Ok(of_rolled(alloc, system, end)),
            Err(_) => Err(Memory),
        },
        Err(back) => Ok(of_unrolled(alloc, system, back)),
    }
}

/// What comes of four swaps by two passes.
pub fn probe<R: Wait + RandomSource + AllocGlobal>(rt: &R, alloc: Global) -> Found {
    match try_probe(rt, alloc) {
        Ok(found) => found,
        Err(Memory) => Found::Memory,
    }
}
