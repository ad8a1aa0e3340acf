//! A counter that is swapped as often as it may be, and more.
ghost use Rattle.std.specs.Prelude.{◌≡◌, IfOk, IfSome};
ghost use Rattle.k42_board.specs.declared.keep.Keep.TheVariants.{All};
ghost use Rattle.k42_crews.specs.Ready.{AreFree, IsFree};

use co_system::{Keep, NoCall, NoSwap, Pass, Plan, Swapped, System, kept_as};
use k42_crews::{call_once, close, last, start, swap_once};
use k42_kinds::{Answer, Entry, KindName, LayoutName, Op, Reply};
use k42_memory::Memory;
use std::alloc::Global;
use std::sync::Wait;

/// The last incarnation of an object.
const LAST: u32 = 1_048_575;

/// What the history tells: how many swaps were done, how many were refused after them, and the counter's value then.
#[derive(Drop)]
pub struct Told {
    pub done: u32,
    pub spent: u32,
    pub value: u64,
}

/// A system of one counter on one processor, and the passes of its two callers.
fn counter(alloc: Global) -> Result<Option<(System, Vec<Pass>)>, Memory>
    ensures free { IfOk result (λ made. IfSome made (λ crew. AreFree crew.0 crew.1.items)) }
    ensures keeps { IfOk result (λ made. IfSome made (λ crew. crew.0.plan.keep ≡ All)) }
{
    let objects = vec![in alloc; kept_as(KindName::Counter, LayoutName::Shared)]?;
    let homes = vec![in alloc; 0, 0]?;
    match Plan::new(1, objects, homes, Keep::All) {
        Ok(plan) => Ok(Some(start(alloc, plan)?)),
        Err(_) => Ok(None),
    }
}

/// Whether a swap by each of the passes, one after the other, is answered so.
fn are_answered<R: Wait>(
    rt: &R,
    alloc: Global,
    system: &System,
    zero: &mut Pass,
    one: &mut Pass,
    first: Swapped,
    second: Swapped,
) -> Result<bool, NoSwap>
    requires zero { IsFree system.now zero.old }
    requires one { IsFree system.now one.old }
    ensures zero { IsFree system.now zero.new }
    ensures one { IsFree system.now one.new }
{
    let end = swap_once(rt, alloc, system, zero, 0, LayoutName::Spread.number())?;
    let other = swap_once(rt, alloc, system, one, 0, LayoutName::Shared.number())?;
    Ok(end == Some(first) && other == Some(second))
}

/// Whether the swaps by turns are done up to the last incarnation, and none is after that.
fn are_done_to_the_last<R: Wait>(
    rt: &R,
    alloc: Global,
    system: &System,
    zero: &mut Pass,
    one: &mut Pass,
) -> Result<bool, NoSwap>
    requires zero { IsFree system.now zero.old }
    requires one { IsFree system.now one.old }
    ensures zero { IsFree system.now zero.new }
    ensures one { IsFree system.now one.new }
{
    for turn in 0..LAST / 2 {
        let first = Swapped::Done(turn * 2 + 1);
        let second = Swapped::Done(turn * 2 + 2);
        if !are_answered(rt, alloc, system, zero, one, first, second)? {
            return Ok(false);
        }
    }
    let done = Swapped::Done(LAST);
    let ends = are_answered(rt, alloc, system, zero, one, done, Swapped::Spent)?;
    let stays = are_answered(rt, alloc, system, zero, one, Swapped::Spent, Swapped::Spent)?;
    Ok(ends && stays)
}

/// There is nothing to tell where a swap has another number than the one after those before it, or is done after one that
/// was refused.
fn told_by(entries: &[Entry<Op, Reply>], value: u64) -> Option<Told> {
    let mut told = Told {
        done: 0,
        spent: 0,
        value,
    };
    for entry in entries {
        match entry.answer {
            Answer::Swapped(number) if told.spent == 0 && number == told.done.saturating_add(1) => {
                told.done = number
            }
            Answer::Spent if entry.incarnation == LAST => told.spent = told.spent.saturating_add(1),
            Answer::Replied(_) => (),
            _ => return None,
        }
    }
    Some(told)
}

/// What the history of the two passes tells. The counter is called before the swaps, and after them.
pub fn probe<R: Wait>(rt: &R, alloc: Global) -> Result<Option<Told>, Memory> {
    let Some((system, mut passes)) = counter(alloc)? else {
        return Ok(None);
    };
    let Some(mut one) = last(&system, &mut passes) else {
        return Ok(None);
    };
    let Some(mut zero) = last(&system, &mut passes) else {
        return Ok(None);
    };
    let added = call_once(rt, alloc, &system, &mut one, 0, Op::Add(5));
    if added == Err(NoCall::Memory) {
        return Err(Memory);
    }
    let done = are_done_to_the_last(rt, alloc, &system, &mut zero, &mut one);
    let found = call_once(rt, alloc, &system, &mut zero, 0, Op::Get);
    if done == Err(NoSwap::Memory) || found == Err(NoCall::Memory) {
        return Err(Memory);
    }
    let both = vec![in alloc; zero, one]?;
    let history = close(alloc, system, both)?;
    match (history, found) {
        (Some(history), Ok(Some(Reply::Number(value))))
            if done == Ok(true) && added == Ok(Some(Reply::Done)) => {
            let entries = history.collect(alloc)?;
            Ok(told_by(entries.as_slice(), value))
        }
        _ => Ok(None),
    }
}
