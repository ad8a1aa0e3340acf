//! Every event of the machine, tested and then carried out.
ghost use Rattle.std.specs.Prelude.{◌≡◌, ◌<◌, ◌++◌, length, All, OnOk, OnErr, Ok};
ghost use Rattle.std.specs.Bool.{OnTrue, OnFalse};
ghost use Rattle.turn_core.specs.Events.{caller_of, cells_of, is_possible, effect};
ghost use Rattle.turn_core.specs.Applies.{Applies};
ghost use Rattle.turn_core.specs.Sound.{IsSound};
ghost use Rattle.turn_core.specs.declared.event.TurnEvent.TheVariants as events;

use crate::event::TurnEvent;
use crate::naming::{is_named_once, named_in_both};
use crate::state::TurnState;
use k42_kinds::Entry;
use k42_memory::Memory;
use std::alloc::Global;

fn lock<O: Copy + Drop, R: Copy + Drop>(
    state: &mut TurnState<O, R>,
    c: u32,
    n: u32,
) -> Result<bool, Memory>
    requires caller { c < length state.old.callers }
    requires cell { n < length state.old.cells }
    ensures { Applies result state.old state.new (events.Lock c n) }
{
    match state.cell(n).lock {
        Some(holder) => Ok(holder != c),
        None => {
            state.add_held(c, n)?;
            state.set_locked(n, c);
            Ok(true)
        }
    }
}

fn take<O: Copy + Drop, R: Copy + Drop>(state: &mut TurnState<O, R>, c: u32, n: u32) -> bool
    requires cell { n < length state.old.cells }
    ensures { Applies (Ok result) state.old state.new (events.Take c n) }
{
    let possible = state.is_held_home(c, n);
    if possible {
        state.set_taken(n);
    }
    possible
}

fn put<O: Copy + Drop, R: Copy + Drop>(state: &mut TurnState<O, R>, c: u32, n: u32) -> bool
    requires cell { n < length state.old.cells }
    ensures { Applies (Ok result) state.old state.new (events.Put c n) }
{
    let possible = state.is_taken(c, n);
    if possible {
        state.set_put(n);
    }
    possible
}

fn unlock<O: Copy + Drop, R: Copy + Drop>(state: &mut TurnState<O, R>, c: u32, n: u32) -> bool
    requires caller { c < length state.old.callers }
    requires cell { n < length state.old.cells }
    ensures { Applies (Ok result) state.old state.new (events.Unlock c n) }
{
    let possible = state.is_held_home(c, n);
    if possible {
        state.set_unlocked(n);
        state.forget_held(c, n);
    }
    possible
}

fn skip<O: Copy + Drop, R: Copy + Drop>(state: &mut TurnState<O, R>, c: u32, stamp: u64) -> bool
    requires caller { c < length state.old.callers }
    ensures { Applies (Ok result) state.old state.new (events.Skip c stamp) }
{
    let possible = state.is_known(stamp);
    if possible {
        state.raise_clock(c, stamp);
    }
    possible
}

fn alone<O: Copy + Drop, R: Copy + Drop>(
    state: &mut TurnState<O, R>,
    c: u32,
    entry: &Entry<O, R>,
) -> Result<bool, Memory>
    requires caller { c < length state.old.callers }
    ensures { Applies result state.old state.new (events.Alone c entry.now) }
{
    if !state.is_next(c, &[], entry) {
        return Ok(false);
    }
    state.add_mine(c, entry)?;
    Ok(true)
}

fn draw<O: Copy + Drop, R: Copy + Drop>(
    state: &mut TurnState<O, R>,
    c: u32,
    cells: &[u32],
    entry: &Entry<O, R>,
) -> Result<bool, Memory>
    requires caller { c < length state.old.callers }
    requires cells { All (λ n. n < length state.old.cells) cells.now }
    ensures { Applies result state.old state.new (events.Draw c cells.now entry.now) }
{
    let possible = !cells.is_empty()
        && is_named_once(cells)
        && state.are_open(c, cells)
        && state.is_next(c, cells, entry);
    if !possible {
        return Ok(false);
    }
    state.draw_at(c, cells, entry)?;
    Ok(true)
}

fn hand<O: Copy + Drop, R: Copy + Drop>(
    alloc: Global,
    state: &mut TurnState<O, R>,
    c: u32,
    from: &[u32],
    onto: &[u32],
    entry: &Entry<O, R>,
) -> Result<bool, Memory>
    requires caller { c < length state.old.callers }
    requires from { All (λ n. n < length state.old.cells) from.now }
    requires onto { All (λ n. n < length state.old.cells) onto.now }
    ensures { Applies result state.old state.new (events.Hand c from.now onto.now entry.now) }
{
    let named = named_in_both(alloc, from, onto)?;
    if !state.can_hand(c, from, onto, &named, entry) {
        return Ok(false);
    }
    state.hand_on(alloc, c, from, onto, entry)?;
    Ok(true)
}

fn step<O: Copy + Drop, R: Copy + Drop>(
    alloc: Global,
    state: &mut TurnState<O, R>,
    event: &TurnEvent<O, R>,
) -> Result<bool, Memory>
    requires caller { caller_of event.now < length state.old.callers }
    requires cells { All (λ n. n < length state.old.cells) (cells_of event.now) }
    ensures { Applies result state.old state.new event.now }
{
    match event {
        TurnEvent::Lock(c, n) => lock(state, *c, *n),
        TurnEvent::Take(c, n) => Ok(take(state, *c, *n)),
        TurnEvent::Draw(c, cells, entry) => draw(state, *c, cells.as_slice(), entry),
        TurnEvent::Alone(c, entry) => alone(state, *c, entry),
        TurnEvent::Hand(c, from, onto, entry) => {
            hand(alloc, state, *c, from.as_slice(), onto.as_slice(), entry)
        }
        TurnEvent::Put(c, n) => Ok(put(state, *c, *n)),
        TurnEvent::Unlock(c, n) => Ok(unlock(state, *c, *n)),
        TurnEvent::Skip(c, stamp) => Ok(skip(state, *c, *stamp)),
    }
}

/// One event. An event that is not possible answers false; want of memory leaves the state.
pub fn apply<O: Copy + Drop, R: Copy + Drop>(
    alloc: Global,
    state: &mut TurnState<O, R>,
    event: &TurnEvent<O, R>,
) -> Result<bool, Memory>
    requires sound { IsSound state.old }
    requires caller { caller_of event.now < length state.old.callers }
    requires cells { All (λ n. n < length state.old.cells) (cells_of event.now) }
    ensures applies { Applies result state.old state.new event.now }
    ensures sound { IsSound state.new }
    ensures many_cells { length state.new.cells ≡ length state.old.cells }
    ensures many_callers { length state.new.callers ≡ length state.old.callers }
{
    step(alloc, state, event)
}
