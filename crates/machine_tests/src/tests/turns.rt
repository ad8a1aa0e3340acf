//! Events that follow one another, and which of them are possible.
ghost use Rattle.std.specs.Prelude.{◌<◌, All};
ghost use Rattle.std.specs.Bool.{OnTrue};
ghost use Rattle.turn_core.specs.Events.{caller_of, cells_of};
ghost use Rattle.turn_core.specs.Sound.{IsSound};

use k42_items::Items;
use k42_kinds::{Act, Answer, Entry, Op, Reply};
use std::alloc::Global;
use std::test::Fail;
use turn_core::*;

mod listed;

/// The stamp, caller and index of an entry; what it tells besides is nothing to this machine.
type Drawn = (u64, u32, u64);

/// An event, with its cells as a constant list.
enum Asked {
    Lock(u32, u32),
    Take(u32, u32),
    Draw(u32, &'static [u32], Drawn),
    Alone(u32, Drawn),
    Hand(u32, &'static [u32], &'static [u32], Drawn),
    Put(u32, u32),
    Unlock(u32, u32),
    Skip(u32, u64),
}

fn entry_of(drawn: &Drawn) -> Entry<Op, Reply> {
    Entry {
        stamp: drawn.0,
        caller: drawn.1,
        index: drawn.2,
        object: 0,
        incarnation: 0,
        cell: 0,
        act: Act::Call(Op::Get),
        answer: Answer::Replied(Reply::Done),
        proc: 0,
        generation: None,
    }
}

fn event_of(alloc: Global, asked: &Asked) -> Result<TurnEvent<Op, Reply>, Fail> {
    Ok(match asked {
        Asked::Lock(c, n) => TurnEvent::Lock(*c, *n),
        Asked::Take(c, n) => TurnEvent::Take(*c, *n),
        Asked::Draw(c, cells, drawn) => {
            TurnEvent::Draw(*c, Items::of(cells.to_vec(alloc)?), entry_of(drawn))
        }
        Asked::Alone(c, drawn) => TurnEvent::Alone(*c, entry_of(drawn)),
        Asked::Hand(c, from, onto, drawn) => TurnEvent::Hand(
            *c,
            Items::of(from.to_vec(alloc)?),
            Items::of(onto.to_vec(alloc)?),
            entry_of(drawn),
        ),
        Asked::Put(c, n) => TurnEvent::Put(*c, *n),
        Asked::Unlock(c, n) => TurnEvent::Unlock(*c, *n),
        Asked::Skip(c, stamp) => TurnEvent::Skip(*c, *stamp),
    })
}

/// Whether each of the cells is one of so many.
fn are_there(cells: &[u32], many: usize) -> bool
    ensures { OnTrue result (All (λ n. n < many) cells.now) }
{
    cells.iter().all(|n| (*n as usize) < many)
}

/// Whether the event's caller and its cells are among so many.
fn is_in_range(event: &TurnEvent<Op, Reply>, cells: usize, callers: usize) -> bool
    ensures caller { OnTrue result (caller_of event.now < callers) }
    ensures cells { OnTrue result (All (λ n. n < cells) (cells_of event.now)) }
{
    match event {
        TurnEvent::Lock(c, n)
        | TurnEvent::Take(c, n)
        | TurnEvent::Put(c, n)
        | TurnEvent::Unlock(c, n) => (*c as usize) < callers && (*n as usize) < cells,
        TurnEvent::Draw(c, named, _) => (*c as usize) < callers
            && are_there(named.as_slice(), cells),
        TurnEvent::Alone(c, _) | TurnEvent::Skip(c, _) => (*c as usize) < callers,
        TurnEvent::Hand(c, from, onto, _) => {
            (*c as usize) < callers
                && are_there(from.as_slice(), cells)
                && are_there(onto.as_slice(), cells)
        }
    }
}

/// Whether the event was possible.
fn happens(
    alloc: Global,
    state: &mut TurnState<Op, Reply>,
    event: &TurnEvent<Op, Reply>,
) -> Result<bool, Fail>
    requires { IsSound state.old }
    ensures { IsSound state.new }
{
    if !is_in_range(event, state.cells.len(), state.callers.len()) {
        return Err(Fail::from("no such caller or cell"));
    }
    Ok(apply(alloc, state, event)?)
}

/// How many of the events come out otherwise than they should.
fn astray(
    alloc: Global,
    state: &mut TurnState<Op, Reply>,
    events: &[(Asked, bool)],
) -> Result<u32, Fail>
    requires { IsSound state.old }
{
    let mut astray: u32 = 0;
    for (asked, possible) in events {
        let event = event_of(alloc, asked)?;
        if happens(alloc, state, &event)? != *possible {
            astray = astray.saturating_add(1);
        }
    }
    Ok(astray)
}

/// A lock, a second lock of the same cell, and an unlock by the one that does not hold it.
const ONE_CELL: &[(Asked, bool)] = &[
    (Asked::Lock(0, 0), true),
    (Asked::Lock(1, 0), true),
    (Asked::Unlock(1, 0), false),
    (Asked::Lock(0, 0), false),
];

#[test]
fn a_locked_cell_stays_with_its_holder(rt: HostRuntime) -> Result<(), Fail> {
    let alloc = rt.alloc();
    let mut state = TurnState::new(alloc, 3, 2, vec![in alloc; 0, 0, 0]?)?;
    assert_eq!(rt; astray(alloc, &mut state, ONE_CELL)?, 0);
    assert!(rt;
        state
            .cells
            .iter()
            .map(|cell| cell.lock)
            .eq([Some(0), None, None])
    );
    assert!(rt;
        state
            .callers
            .iter()
            .map(|caller| caller.held.len())
            .eq([1, 0])
    );
    Ok(())
}

/// Skips to stamps that were drawn or not, and what is drawn behind them: the first caller draws three
/// entries, and the second, which knows of none, skips to the second of them.
const SKIPS: &[(Asked, bool)] = &[
    (Asked::Skip(1, 1), false),
    (Asked::Skip(1, 0), true),
    (Asked::Alone(0, (1, 0, 0)), true),
    (Asked::Alone(0, (2, 0, 1)), true),
    (Asked::Alone(0, (3, 0, 2)), true),
    (Asked::Skip(1, 4), false),
    (Asked::Skip(1, 2), true),
    (Asked::Alone(1, (1, 1, 0)), false),
    (Asked::Alone(1, (2, 1, 0)), false),
    (Asked::Alone(1, (3, 1, 0)), true),
    (Asked::Skip(0, 1), true),
    (Asked::Alone(0, (4, 0, 3)), true),
    (Asked::Skip(1, 4), true),
    (Asked::Skip(1, 2), true),
    (Asked::Lock(1, 0), true),
    (Asked::Take(1, 0), true),
    (Asked::Draw(1, &[0], (4, 1, 1)), false),
    (Asked::Draw(1, &[0], (5, 1, 1)), true),
];

#[test]
fn what_is_drawn_behind_a_skip_is_later(rt: HostRuntime) -> Result<(), Fail> {
    let alloc = rt.alloc();
    let mut state = TurnState::new(alloc, 1, 2, vec![in alloc; 0]?)?;
    assert_eq!(rt; astray(alloc, &mut state, SKIPS)?, 0);
    assert!(rt; state.callers.iter().map(|caller| caller.clock).eq([4, 5]));
    assert!(rt;
        state
            .callers
            .iter()
            .map(|caller| caller.mine.len())
            .eq([4, 2])
    );
    Ok(())
}
