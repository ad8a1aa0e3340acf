//! The lines of a worker, each carried out on its pass.
ghost use Rattle.std.specs.Prelude.{◌≡◌, ◌<◌, Bool, true, false, None, OnOk, IfOk, length, is_some, if◌then◌else◌};
ghost use Rattle.k42_kinds.specs.declared.entry.Act.TheVariants as acts;
ghost use Rattle.k42_limits.specs.declared.TheConstants.{PASS_ENTRIES};
ghost use Rattle.co_system.specs.Systems.{IsAsked, MayLead};
ghost use Rattle.k42_runtime.specs.Swaps.{HasEnded, MayStart};
ghost use Rattle.k42_runtime.specs.Systems.{IsPassHere, IsAtRest, IsAtWork};
ghost use Rattle.k42_workers.specs.Lines.{AnswersLine, IsOpened, IsMade, Follows};
ghost use Rattle.k42_workers.specs.Passes.{standing_of, IsBetween, HasFew, GoesOnAs, GoesOnBy, StaysAs, HasOnlyEntered, MayAnswer, MayFollow};

use crate::gate::Gate;
use co_system::{NoCall, NoSwap, Pass, Swapped, System};
use k42_kinds::{Act, Op, To};
use k42_memory::Memory;
use script_text::{CallLine, Item};
use std::alloc::Global;
use std::sync::Wait;

/// Begins an activity where none is open.
pub fn open(system: &System, pass: &mut Pass)
    requires here { IsPassHere system.now pass.old }
    requires between { IsBetween pass.old.view }
    ensures here { IsPassHere system.now pass.new }
    ensures works { IsAtWork pass.new.view }
    ensures opened { IsOpened (standing_of pass.old.view) (standing_of pass.new.view) }
    ensures caller { GoesOnAs pass.old.view pass.new.view }
    ensures graces { pass.new.view.graces ≡ pass.old.view.graces }
    ensures stays { is_some pass.old.view.turn.active ≡ true → pass.new ≡ pass.old }
    ensures seat { pass.new.seat ≡ pass.old.seat }
    ensures entered { is_some pass.old.view.turn.active ≡ false → HasOnlyEntered pass.old.view pass.new.view }
{
    if !pass.is_active() {
        system.enter(pass);
    }
}

/// Ends the activity, if one is open.
pub fn leave_open(system: &System, pass: &mut Pass)
    requires here { IsPassHere system.now pass.old }
    requires between { IsBetween pass.old.view }
    ensures here { IsPassHere system.now pass.new }
    ensures rests { IsAtRest pass.new.view }
    ensures left { standing_of pass.new.view ≡ record (standing_of pass.old.view) { active = None } }
    ensures caller { StaysAs pass.old.view pass.new.view }
{
    if pass.is_active() {
        system.leave(pass);
    }
}

/// Ends the activity, but not in a block.
pub fn leave_outside(system: &System, pass: &mut Pass, inside: bool)
    requires here { IsPassHere system.now pass.old }
    requires works { IsAtWork pass.old.view }
    ensures here { IsPassHere system.now pass.new }
    ensures between { IsBetween pass.new.view }
    ensures left { standing_of pass.new.view ≡ record (standing_of pass.old.view) { active = if inside then pass.old.view.turn.active else None } }
    ensures caller { StaysAs pass.old.view pass.new.view }
{
    if !inside {
        system.leave(pass);
    }
}

/// Makes a call in the activity that is open.
fn call_open<R: Wait>(
    rt: &R,
    alloc: Global,
    system: &System,
    pass: &mut Pass,
    object: u32,
    op: Op,
) -> Result<(), Memory>
    requires here { IsPassHere system.now pass.old }
    requires works { IsAtWork pass.old.view }
    requires asked { IsAsked system.now.plan object op }
    requires few { length pass.old.view.taker.mine < PASS_ENTRIES }
    ensures here { IsPassHere system.now pass.new }
    ensures works { IsAtWork pass.new.view }
    ensures called { OnOk result (IsMade object (acts.Call op) pass.old.view.turn.proc pass.old.view.turn.active (standing_of pass.old.view) (standing_of pass.new.view)) }
    ensures active { pass.new.view.turn.active ≡ pass.old.view.turn.active }
    ensures caller { StaysAs pass.old.view pass.new.view }
{
    match system.call(rt, alloc, pass, object, op) {
        Ok(_reply) => Ok(()),
        Err(NoCall::Memory) => Err(Memory),
        Err(NoCall::Worn) => unreachable!(),
    }
}

/// Makes a call. Outside a block it has an activity of its own.
fn call<R: Wait>(
    rt: &R,
    alloc: Global,
    system: &System,
    pass: &mut Pass,
    line: &CallLine,
    op: Op,
    inside: bool,
) -> Result<(), Memory>
    requires here { IsPassHere system.now pass.old }
    requires between { IsBetween pass.old.view }
    requires few { HasFew pass.old.view }
    requires act { line.now.act ≡ acts.Call op }
    requires asked { IsAsked system.now.plan line.now.object op }
    ensures here { IsPassHere system.now pass.new }
    ensures between { IsBetween pass.new.view }
    ensures caller { GoesOnAs pass.old.view pass.new.view }
    ensures answered { OnOk result (AnswersLine line.now pass.old.view.turn.proc inside (standing_of pass.old.view) (standing_of pass.new.view)) }
{
    open(system, pass);
    call_open(rt, alloc, system, pass, line.object, op)?;
    leave_outside(system, pass, inside);
    Ok(())
}

/// Swaps, destroys, watches or unwatches an object.
fn swap_to<R: Wait>(
    rt: &R,
    alloc: Global,
    system: &System,
    pass: &mut Pass,
    object: u32,
    to: To,
) -> Result<Swapped, NoSwap>
    requires here { IsPassHere system.now pass.old }
    requires may { MayStart (length system.now.plan.objects) object pass.old }
    requires leads { MayLead system.now.plan object to }
    ensures { HasEnded system.now object to result pass.old pass.new }
{
    match to {
        To::Layout(layout) => system.swap(rt, alloc, pass, object, layout),
        To::Dead => system.destroy(rt, alloc, pass, object),
        To::Watch => system.watch(rt, alloc, pass, object),
        To::Unwatch => system.unwatch(rt, alloc, pass, object),
    }
}

/// Carries out a line that swaps, between two activities.
fn swap<R: Wait>(
    rt: &R,
    alloc: Global,
    system: &System,
    pass: &mut Pass,
    line: &CallLine,
    to: To,
) -> Result<(), Memory>
    requires here { IsPassHere system.now pass.old }
    requires rests { IsAtRest pass.old.view }
    requires few { HasFew pass.old.view }
    requires act { line.now.act ≡ acts.Swap to }
    requires there { line.now.object < length system.now.plan.objects }
    requires leads { MayLead system.now.plan line.now.object to }
    ensures here { IsPassHere system.now pass.new }
    ensures rests { IsAtRest pass.new.view }
    ensures caller { GoesOnAs pass.old.view pass.new.view }
    ensures answered { (inside : Bool) → OnOk result (AnswersLine line.now pass.old.view.turn.proc inside (standing_of pass.old.view) (standing_of pass.new.view)) }
{
    match swap_to(rt, alloc, system, pass, line.object, to) {
        Ok(_end) => Ok(()),
        Err(NoSwap::Memory) => Err(Memory),
        Err(NoSwap::Worn) => unreachable!(),
    }
}

/// Does what the line asks.
fn answer<R: Wait>(
    rt: &R,
    alloc: Global,
    system: &System,
    pass: &mut Pass,
    line: &CallLine,
    inside: bool,
) -> Result<(), Memory>
    requires here { IsPassHere system.now pass.old }
    requires between { IsBetween pass.old.view }
    requires may { MayAnswer system.now.plan line.now pass.old.view }
    ensures here { IsPassHere system.now pass.new }
    ensures between { IsBetween pass.new.view }
    ensures caller { GoesOnAs pass.old.view pass.new.view }
    ensures answered { OnOk result (AnswersLine line.now pass.old.view.turn.proc inside (standing_of pass.old.view) (standing_of pass.new.view)) }
{
    match line.act {
        Act::Call(op) => call(rt, alloc, system, pass, line, op, inside),
        Act::Swap(to) => swap(rt, alloc, system, pass, line, to),
    }
}

/// Carries an item out, and answers whether a block is open after it. A block opens its activity with its first line, so
/// that an empty one has none. The gate is told of a line before and after.
pub fn follow<R: Wait, G: Gate>(
    rt: &R,
    alloc: Global,
    system: &System,
    pass: &mut Pass,
    number: u32,
    item: &Item,
    inside: bool,
    gate: &G,
) -> Result<bool, Memory>
    requires here { IsPassHere system.now pass.old }
    requires between { IsBetween pass.old.view }
    requires may { MayFollow system.now.plan item.now pass.old.view }
    ensures here { IsPassHere system.now pass.new }
    ensures between { IsBetween pass.new.view }
    ensures caller { GoesOnBy item.now pass.old.view pass.new.view }
    ensures follows { IfOk result (λ after. Follows item.now pass.old.view.turn.proc inside after (standing_of pass.old.view) (standing_of pass.new.view)) }
{
    match item {
        Item::Begin => Ok(true),
        Item::End => {
            leave_open(system, pass);
            Ok(false)
        }
        Item::Line(line) => {
            gate.at(number, line.line, true);
            answer(rt, alloc, system, pass, line, inside)?;
            gate.at(number, line.line, false);
            Ok(inside)
        }
    }
}
