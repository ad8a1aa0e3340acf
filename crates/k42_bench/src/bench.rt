//! How the library is used: a system is started, its passes call and swap on threads, and it is closed.
ghost use Rattle.std.specs.Prelude.{◌≡◌, ◌<◌, IfOk, IfSome};
ghost use Rattle.k42_board.specs.declared.keep.Keep.TheVariants.{All};
ghost use Rattle.k42_crews.specs.Ready.{IsFree, IsIn, AreFree, StaysFree};
ghost use Rattle.k42_bench.specs.Staying.{StaysIn};

use crate::load::{Load, Round, size_due, size_of};
use co_system::{History, Keep, NoCall, NoSwap, Pass, Plan, System, kept_as};
use k42_crews::{Work, call_once, close, end, start, work_all};
use k42_kinds::{Answer, KindName, LayoutName, Reply};
use k42_limits::LAST_INCARNATION;
use k42_memory::Memory;
use std::alloc::Global;
use std::sync::Wait;
use std::thread::Threads;

/// How many calls and swaps were done, and whether the history has just the entries of the passes, or, where there is
/// none, the object what the calls have left in it.
#[derive(Clone, Copy, Debug, PartialEq, Eq)]
pub struct Done {
    pub calls: usize,
    pub swaps: usize,
    pub whole: bool,
}

/// How many swaps the last call of the pass has seen, or all of them where its entries do not tell.
fn swaps_seen(pass: &Pass, load: &Load) -> u32 {
    match load.keep {
        Keep::All => pass.log().last_incarnation(),
        Keep::Sections | Keep::Nothing => load.swaps,
    }
}

/// Whether the pass has made its calls, the last of them after all swaps, where its entries tell so.
fn is_done(pass: &Pass, load: &Load, calls: u32) -> bool {
    calls >= load.calls && swaps_seen(pass, load) >= load.swaps.min(LAST_INCARNATION)
}

/// Calls so often, and until all swaps are done where entries are kept. A pass that is worn calls no more.
fn call_often<R: Wait>(
    rt: &R,
    alloc: Global,
    system: &System,
    pass: &mut Pass,
    load: &Load,
) -> Result<(), Memory>
    requires { IsFree system.now pass.old }
    ensures { StaysFree system.now pass.old pass.new }
{
    let round = Round::of(alloc, load, pass.caller())?;
    for number in 0..u32::MAX {
        let Some(op) = round.op(number) else {
            return Ok(());
        };
        if !system.takes(0, op) || is_done(pass, load, number) {
            return Ok(());
        }
        system.enter(pass);
        let reply = system.call(rt, alloc, pass, 0, *op);
        system.leave(pass);
        match reply {
            Ok(_) => (),
            Err(NoCall::Memory) => return Err(Memory),
            Err(NoCall::Worn) => return Ok(()),
        }
    }
    Ok(())
}

/// Makes calls in the activity, the first of them of this number. Whether there are more to make.
fn call_in_activity<R: Wait>(
    rt: &R,
    alloc: Global,
    system: &System,
    pass: &mut Pass,
    load: &Load,
    round: &Round,
    first: u32,
) -> Result<bool, NoCall>
    requires { IsIn system.now pass.old }
    ensures { StaysIn system.now pass.old pass.new }
{
    for number in first..first.saturating_add(load.block) {
        let Some(op) = round.op(number) else {
            return Ok(false);
        };
        if is_done(pass, load, number) || !system.takes(0, op) {
            return Ok(false);
        }
        system.call(rt, alloc, pass, 0, *op)?;
    }
    Ok(true)
}

/// Makes the calls of one activity. Whether there are more to make.
fn call_block<R: Wait>(
    rt: &R,
    alloc: Global,
    system: &System,
    pass: &mut Pass,
    load: &Load,
    round: &Round,
    first: u32,
) -> Result<bool, NoCall>
    requires { IsFree system.now pass.old }
    ensures { StaysFree system.now pass.old pass.new }
{
    system.enter(pass);
    let made = call_in_activity(rt, alloc, system, pass, load, round, first);
    system.leave(pass);
    made
}

/// Calls as often as `call_often` does, in activities of several calls.
fn call_in_blocks<R: Wait>(
    rt: &R,
    alloc: Global,
    system: &System,
    pass: &mut Pass,
    load: &Load,
) -> Result<(), Memory>
    requires { IsFree system.now pass.old }
    ensures { StaysFree system.now pass.old pass.new }
{
    let round = Round::of(alloc, load, pass.caller())?;
    for block in 0..u32::MAX {
        let first = block.saturating_mul(load.block);
        match call_block(rt, alloc, system, pass, load, &round, first) {
            Ok(true) => (),
            Ok(false) | Err(NoCall::Worn) => return Ok(()),
            Err(NoCall::Memory) => return Err(Memory),
        }
    }
    Ok(())
}

/// To which layout the swap of this number leads: to the other one, and then back.
fn layout_after(load: &Load, number: u32) -> u8
    ensures { result < 2 }
{
    match (load.layout, number % 2) {
        (LayoutName::Shared, 0) | (LayoutName::Spread, 1) => LayoutName::Spread.number(),
        _ => LayoutName::Shared.number(),
    }
}

/// Swaps so often, to the other layout and back. A pass that is worn swaps no more.
fn swap_often<R: Wait>(
    rt: &R,
    alloc: Global,
    system: &System,
    pass: &mut Pass,
    load: &Load,
) -> Result<(), Memory>
    requires { IsFree system.now pass.old }
    ensures { StaysFree system.now pass.old pass.new }
{
    for number in 0..load.swaps {
        if system.objects() == 0 {
            return Ok(());
        }
        match system.swap(rt, alloc, pass, 0, layout_after(load, number)) {
            Ok(_) => (),
            Err(NoSwap::Memory) => return Err(Memory),
            Err(NoSwap::Worn) => return Ok(()),
        }
    }
    Ok(())
}

/// The last pass swaps, and the others call.
impl Work for Load {
    fn work<R: Wait>(
        &self,
        rt: &R,
        alloc: Global,
        system: &System,
        pass: &mut Pass,
    ) -> Result<(), Memory> {
        if pass.caller() == self.threads {
            swap_often(rt, alloc, system, pass, self)
        } else if self.block == 1 {
            call_often(rt, alloc, system, pass, self)
        } else {
            call_in_blocks(rt, alloc, system, pass, self)
        }
    }
}

/// What the history tells of so many entries.
fn told_by(alloc: Global, history: &History, entries: usize) -> Result<Done, Memory> {
    let mut done = Done {
        calls: 0,
        swaps: 0,
        whole: history.len() == entries,
    };
    let mut reader = history.read(alloc)?;
    while let Some(entry) = reader.next() {
        match entry.answer {
            Answer::Replied(_) => done.calls = done.calls.saturating_add(1),
            Answer::Swapped(_) => done.swaps = done.swaps.saturating_add(1),
            _ => (),
        }
    }
    Ok(done)
}

/// A system of one object, with a processor for each thread and a pass more that swaps.
fn plan_of(alloc: Global, load: &Load) -> Result<Option<Plan>, Memory>
    ensures { IfOk result (λ made. IfSome made (λ plan. plan.keep ≡ load.now.keep)) }
{
    let objects = vec![in alloc; kept_as(load.kind, load.layout)]?;
    let mut callers = Vec::new(alloc);
    for caller in 0..load.threads {
        callers.push(caller)?;
    }
    callers.push(0)?;
    Ok(Plan::new(load.threads, objects, callers, load.keep).ok())
}

/// How many entries the passes have drawn.
fn entries_of(passes: &[Pass]) -> usize {
    let mut entries: usize = 0;
    for pass in passes {
        entries = entries.saturating_add(pass.drawn() as usize);
    }
    entries
}

/// What was done, as the history tells.
fn closed(alloc: Global, system: System, passes: Vec<Pass>) -> Result<Option<Done>, Memory>
    requires free { AreFree system passes.items }
    requires keeps { system.plan.keep ≡ All }
{
    let entries = entries_of(passes.as_slice());
    match close(alloc, system, passes)? {
        Some(history) => Ok(Some(told_by(alloc, &history, entries)?)),
        None => Ok(None),
    }
}

/// What was done, as the passes tell by what they have drawn.
fn drawn_by(load: &Load, passes: &[Pass]) -> Done {
    let mut done = Done {
        calls: 0,
        swaps: 0,
        whole: false,
    };
    for pass in passes {
        let drawn = pass.drawn() as usize;
        if pass.caller() == load.threads {
            done.swaps = done.swaps.saturating_add(drawn);
        } else {
            done.calls = done.calls.saturating_add(drawn);
        }
    }
    done
}

/// Whether the object tells the pass that so much is in it.
fn has_size<R: Wait>(
    rt: &R,
    alloc: Global,
    system: &System,
    pass: &mut Pass,
    kind: KindName,
    due: u64,
) -> Result<bool, Memory>
    requires { IsFree system.now pass.old }
    ensures { StaysFree system.now pass.old pass.new }
{
    match call_once(rt, alloc, system, pass, 0, size_of(kind)) {
        Ok(reply) => Ok(reply == Some(Reply::Number(due))),
        Err(NoCall::Memory) => Err(Memory),
        Err(NoCall::Worn) => Ok(false),
    }
}

/// Whether the object tells the first pass that what the calls have left is in it.
fn is_whole<R: Wait>(
    rt: &R,
    alloc: Global,
    system: &System,
    load: &Load,
    passes: &mut [Pass],
) -> Result<bool, Memory>
    requires { AreFree system.now passes.old }
    ensures { AreFree system.now passes.new }
{
    let Some(due) = size_due(load) else {
        return Ok(true);
    };
    let Some((pass, _others)) = passes.split_first_mut() else {
        return Ok(true);
    };
    has_size(rt, alloc, system, pass, load.kind, due)
}

/// What was done, where no entry was kept.
fn ended<R: Wait>(
    rt: &R,
    alloc: Global,
    system: System,
    load: &Load,
    mut passes: Vec<Pass>,
) -> Result<Option<Done>, Memory>
    requires { AreFree system passes.items }
{
    let mut done = drawn_by(load, passes.as_slice());
    done.whole = is_whole(rt, alloc, &system, load, passes.as_mut_slice())?;
    Ok(end(system, passes).then_some(done))
}

/// Runs the load, and answers what was done.
pub fn run<R: Threads + Wait + Sync>(
    rt: &R,
    alloc: Global,
    load: &Load,
) -> Result<Option<Done>, Memory> {
    let Some(plan) = plan_of(alloc, load)? else {
        return Ok(None);
    };
    let (system, mut passes) = start(alloc, plan)?;
    work_all(rt, alloc, &system, load, passes.as_mut_slice())?;
    match load.keep {
        Keep::All => closed(alloc, system, passes),
        Keep::Sections | Keep::Nothing => ended(rt, alloc, system, load, passes),
    }
}

#[cfg(test)]
mod tests;
