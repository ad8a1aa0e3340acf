//! A swap beside an activity, from the start of the system to its close.
ghost use Rattle.std.specs.Prelude.{◌≡◌, OnOk, IfOk, IfSome};
ghost use Rattle.k42_board.specs.declared.keep.Keep.TheVariants.{All};
ghost use Rattle.k42_crews.specs.Ready.{AreFree, IsFree};
ghost use Rattle.swap_probe.specs.Ready.{IsSwapping};

use crate::closing::{are_answered, closed};
use crate::steps::{Fault, ask, due, end_swap, free, new_swap, step};
use co_system::{Cause, Keep, Pass, Plan, Step, Swap, Swapped, System, kept_as};
use k42_crews::{call_once, last, start, swap_once};
use k42_kinds::{Answer, Entry, KindName, LayoutName, Op, Reply};
use k42_memory::Memory;
use std::alloc::Global;
use std::sync::Wait;

/// What the entries answer but for those of swaps that were given up.
const DONE_AT_ONCE: [Answer<Reply>; 5] = [
    Answer::Replied(Reply::Done),
    Answer::Busy(1),
    Answer::Replied(Reply::Number(5)),
    Answer::Swapped(1),
    Answer::Replied(Reply::Number(5)),
];

/// The same where one was given up, after which the counter was found open once more.
const DONE_AT_LAST: [Answer<Reply>; 6] = [
    Answer::Replied(Reply::Done),
    Answer::Busy(1),
    Answer::Replied(Reply::Number(5)),
    Answer::Replied(Reply::Number(5)),
    Answer::Swapped(1),
    Answer::Replied(Reply::Number(5)),
];

/// Passes of the callers 0 to 2.
#[derive(Drop)]
struct Three {
    zero: Pass,
    one: Pass,
    two: Pass,
}

/// One counter on one processor, for three callers.
fn plan_of(alloc: Global) -> Result<Option<Plan>, Memory>
    ensures keeps { IfOk result (λ made. IfSome made (λ plan. plan.keep ≡ All)) }
{
    let objects = vec![in alloc; kept_as(KindName::Counter, LayoutName::Shared)]?;
    let homes = vec![in alloc; 0, 0, 0]?;
    Ok(Plan::new(1, objects, homes, Keep::All).ok())
}

/// Takes the passes of the last three callers.
fn take_three(system: &System, passes: &mut Vec<Pass>) -> Option<Three>
    requires { AreFree system.now passes.old.items }
    ensures zero { IfSome result (λ crew. IsFree system.now crew.zero) }
    ensures one { IfSome result (λ crew. IsFree system.now crew.one) }
    ensures two { IfSome result (λ crew. IsFree system.now crew.two) }
{
    let two = last(system, passes)?;
    let one = last(system, passes)?;
    let zero = last(system, passes)?;
    Some(Three { zero, one, two })
}

/// A system of this plan, and the passes of its callers.
fn started(alloc: Global) -> Result<(System, Three), Fault>
    ensures keeps { IfOk result (λ made. made.0.plan.keep ≡ All) }
    ensures zero { IfOk result (λ made. IsFree made.0 made.1.zero) }
    ensures one { IfOk result (λ made. IsFree made.0 made.1.one) }
    ensures two { IfOk result (λ made. IsFree made.0 made.1.two) }
{
    let Some(plan) = plan_of(alloc)? else {
        return Err(Fault::Wrong);
    };
    let (system, mut passes) = start(alloc, plan)?;
    match take_three(&system, &mut passes) {
        Some(crew) => Ok((system, crew)),
        None => Err(Fault::Wrong),
    }
}

/// A new swap, and how far its first step has come.
fn begun(alloc: Global, system: &System, pass: &mut Pass) -> Result<(Swap, Step), Fault>
    requires { IsFree system.now pass.old }
    ensures { IfOk result (λ made. IsSwapping system.now made.0 pass.new) }
{
    let mut swap = new_swap(system, pass)?;
    let step = step(alloc, system, pass, &mut swap)?;
    Ok((swap, step))
}

/// A swap that finds one activity open. Where there was no memory, nothing has begun.
fn find_left(alloc: Global, system: &System, pass: &mut Pass) -> Result<Swap, Fault>
    requires { IsFree system.now pass.old }
    ensures { IfOk result (λ swap. IsSwapping system.now swap pass.new) }
{
    let left = Step::Again(Cause::Left { proc: 0, left: 1 });
    let (swap, found) = begun(alloc, system, pass)?;
    if found != Step::Memory {
        due(found == left)?;
        return Ok(swap);
    }
    end_swap(system, pass, &swap)?;
    due(pass.drawn() == 0)?;
    let (swap, found) = begun(alloc, system, pass)?;
    due(found == left)?;
    Ok(swap)
}

/// Another swap of the object is refused. Where there was no memory, it has left no entry.
fn find_busy<R: Wait>(rt: &R, alloc: Global, system: &System, pass: &mut Pass) -> Result<(), Fault>
    requires { IsFree system.now pass.old }
    ensures { OnOk result (IsFree system.now pass.new) }
{
    let busy = Some(Swapped::Busy(1));
    if let Ok(end) = swap_once(rt, alloc, system, pass, 0, LayoutName::Spread.number()) {
        return due(end == busy);
    }
    due(pass.drawn() == 0)?;
    due(swap_once(rt, alloc, system, pass, 0, LayoutName::Spread.number())? == busy)
}

/// Finds the counter's value in an activity of its own.
fn find<R: Wait>(rt: &R, alloc: Global, system: &System, pass: &mut Pass) -> Result<(), Fault>
    requires { IsFree system.now pass.old }
    ensures { OnOk result (IsFree system.now pass.new) }
{
    let found = call_once(rt, alloc, system, pass, 0, Op::Get)?;
    due(found == Some(Reply::Number(5)))
}

/// The swap is done. Where there was no memory, it is given up, as its entry tells: the counter is open as before, and
/// the next swap has the same number. Answers how many were given up.
fn find_done<R: Wait>(
    rt: &R,
    alloc: Global,
    system: &System,
    pass: &mut Pass,
    other: &mut Pass,
    swap: Swap,
) -> Result<usize, Fault>
    requires swapping { IsSwapping system.now swap pass.old }
    requires other { IsFree system.now other.old }
    ensures free { OnOk result (IsFree system.now pass.new) }
    ensures other { OnOk result (IsFree system.now other.new) }
{
    let done = Step::Ended(Swapped::Done(1));
    let mut swap = swap;
    let found = step(alloc, system, pass, &mut swap)?;
    end_swap(system, pass, &swap)?;
    if found != Step::Memory {
        due(found == done)?;
        return Ok(0);
    }
    let drawn = pass.log().unread().collect(alloc)?;
    due(are_answered(drawn.as_slice(), &[], 1))?;
    find(rt, alloc, system, other)?;
    let (swap, found) = begun(alloc, system, pass)?;
    due(found == done)?;
    end_swap(system, pass, &swap)?;
    Ok(1)
}

/// One pass swaps while another is in an activity, which calls on. A third one is refused. Answers how many swaps were
/// given up.
fn swap_beside<R: Wait>(
    rt: &R,
    alloc: Global,
    system: &System,
    crew: &mut Three,
) -> Result<usize, Fault>
    requires zero { IsFree system.now crew.old.zero }
    requires one { IsFree system.now crew.old.one }
    requires two { IsFree system.now crew.old.two }
    ensures zero { OnOk result (IsFree system.now crew.new.zero) }
    ensures one { OnOk result (IsFree system.now crew.new.one) }
    ensures two { OnOk result (IsFree system.now crew.new.two) }
{
    system.enter(&mut crew.zero);
    ask(rt, alloc, system, &mut crew.zero, Op::Add(5), Reply::Done)?;
    let swap = find_left(alloc, system, &mut crew.one)?;
    find_busy(rt, alloc, system, &mut crew.two)?;
    ask(rt, alloc, system, &mut crew.zero, Op::Get, Reply::Number(5))?;
    system.leave(&mut crew.zero);
    let given_up = find_done(rt, alloc, system, &mut crew.one, &mut crew.zero, swap)?;
    // The old row is with the pass whose swap was stepped, which has handed nothing over.
    free(rt, system, &mut crew.two, 0)?;
    free(rt, system, &mut crew.one, 1)?;
    free(rt, system, &mut crew.one, 0)?;
    find(rt, alloc, system, &mut crew.zero)?;
    Ok(given_up)
}

/// Whether the history tells what was answered, where so many swaps were given up.
fn is_told(entries: &[Entry<Op, Reply>], given_up: usize) -> bool {
    let last_at = entries.last().map_or(0, |entry| entry.incarnation);
    if given_up == 0 {
        last_at == 1 && are_answered(entries, &DONE_AT_ONCE, 0)
    } else {
        last_at == 1 && are_answered(entries, &DONE_AT_LAST, given_up)
    }
}

/// Whether all is answered as it is due, and the history tells it.
pub fn probe<R: Wait>(rt: &R, alloc: Global) -> Result<(), Fault> {
    let (system, mut crew) = started(alloc)?;
    let given_up = swap_beside(rt, alloc, &system, &mut crew)?;
    let Three { zero, one, two } = crew;
    let history = closed(alloc, system, zero, one, two)?;
    let entries = history.collect(alloc)?;
    due(is_told(entries.as_slice(), given_up))
}
