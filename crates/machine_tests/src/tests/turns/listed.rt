//! Long lists of events, each with whether it is possible, and the states to which they come.
use super::{Asked, astray};
use k42_kinds::{Entry, Op, Reply};
use std::test::Fail;
use turn_core::*;

/// Of a cell its holder, whether it is at home and closed, its life, how many entries its history has and the
/// stamp of the last, and how many earlier lives it had.
type Shown = (Option<u32>, bool, bool, u32, usize, u64, usize);

/// The stamp of the last of these entries, 0 where there is none.
fn last_stamp(entries: &[Entry<Op, Reply>]) -> u64 {
    match entries.last() {
        None => 0,
        Some(entry) => entry.stamp,
    }
}

fn shown(cell: &TurnCell<Op, Reply>) -> Shown {
    (
        cell.lock,
        cell.home,
        cell.closed,
        cell.life,
        cell.history.len(),
        last_stamp(&cell.history),
        cell.past.len(),
    )
}

/// Of a caller how many cells it holds, and how many entries it has.
fn held_and_drawn(caller: &TurnCaller<Op, Reply>) -> (usize, usize) {
    (caller.held.len(), caller.mine.len())
}

/// Sixty events of three cells and two callers.
const THREE_CELLS_OF_TWO: &[(Asked, bool)] = &[
    (Asked::Lock(0, 0), true),
    (Asked::Lock(1, 1), true),
    (Asked::Lock(1, 2), true),
    (Asked::Take(1, 1), true),
    (Asked::Unlock(0, 0), true),
    (Asked::Alone(1, (2, 1, 0)), false),
    (Asked::Lock(0, 0), true),
    (Asked::Take(0, 0), true),
    (Asked::Hand(0, &[], &[1, 0], (1, 0, 0)), false),
    (Asked::Take(1, 2), true),
    (Asked::Put(0, 0), true),
    (Asked::Take(0, 0), true),
    (Asked::Hand(1, &[], &[1, 2], (1, 1, 0)), true),
    (Asked::Alone(0, (0, 0, 0)), false),
    (Asked::Draw(1, &[2, 1], (2, 1, 1)), true),
    (Asked::Put(1, 1), true),
    (Asked::Draw(0, &[0], (1, 0, 0)), true),
    (Asked::Take(1, 1), true),
    (Asked::Draw(0, &[0], (2, 0, 1)), true),
    (Asked::Lock(0, 1), true),
    (Asked::Draw(1, &[1, 2], (3, 1, 2)), true),
    (Asked::Draw(1, &[2, 1], (4, 1, 3)), true),
    (Asked::Draw(1, &[2, 1], (5, 1, 3)), false),
    (Asked::Draw(0, &[0], (3, 0, 2)), true),
    (Asked::Draw(0, &[0], (3, 0, 3)), false),
    (Asked::Hand(0, &[0], &[], (4, 0, 3)), true),
    (Asked::Hand(0, &[0], &[], (5, 0, 4)), false),
    (Asked::Alone(0, (5, 0, 4)), true),
    (Asked::Lock(1, 0), true),
    (Asked::Put(1, 1), true),
    (Asked::Hand(0, &[], &[0, 0], (6, 0, 5)), false),
    (Asked::Alone(0, (6, 0, 5)), true),
    (Asked::Unlock(1, 1), true),
    (Asked::Draw(1, &[2], (5, 1, 4)), true),
    (Asked::Put(1, 2), true),
    (Asked::Lock(0, 1), true),
    (Asked::Put(1, 2), false),
    (Asked::Unlock(0, 1), true),
    (Asked::Take(1, 2), true),
    (Asked::Alone(1, (5, 1, 5)), false),
    (Asked::Lock(1, 1), true),
    (Asked::Hand(0, &[], &[0], (7, 0, 6)), true),
    (Asked::Draw(0, &[0], (8, 0, 7)), true),
    (Asked::Put(1, 2), true),
    (Asked::Draw(0, &[0], (9, 0, 8)), true),
    (Asked::Lock(1, 0), true),
    (Asked::Unlock(1, 2), true),
    (Asked::Lock(0, 2), true),
    (Asked::Take(0, 2), true),
    (Asked::Hand(0, &[2], &[0], (10, 0, 9)), false),
    (Asked::Draw(0, &[0, 2], (10, 0, 9)), true),
    (Asked::Put(0, 2), true),
    (Asked::Take(1, 1), true),
    (Asked::Hand(1, &[1], &[], (6, 1, 5)), true),
    (Asked::Unlock(0, 2), true),
    (Asked::Hand(1, &[1], &[1], (7, 1, 6)), false),
    (Asked::Alone(1, (7, 1, 6)), true),
    (Asked::Draw(0, &[0], (11, 0, 9)), false),
    (Asked::Draw(0, &[0], (11, 0, 10)), true),
    (Asked::Put(1, 1), true),
];

/// Sixty events of one cell and four callers.
const ONE_CELL_OF_FOUR: &[(Asked, bool)] = &[
    (Asked::Lock(3, 0), true),
    (Asked::Hand(3, &[0], &[], (1, 3, 0)), false),
    (Asked::Take(3, 0), true),
    (Asked::Draw(3, &[0], (1, 3, 0)), true),
    (Asked::Put(3, 0), true),
    (Asked::Take(3, 0), true),
    (Asked::Alone(2, (0, 2, 0)), false),
    (Asked::Draw(3, &[0], (2, 3, 1)), true),
    (Asked::Draw(3, &[0], (3, 3, 2)), true),
    (Asked::Draw(3, &[0], (4, 3, 3)), true),
    (Asked::Put(3, 0), true),
    (Asked::Alone(2, (1, 2, 0)), true),
    (Asked::Take(3, 0), true),
    (Asked::Alone(3, (5, 3, 4)), true),
    (Asked::Draw(3, &[0], (6, 3, 5)), true),
    (Asked::Draw(2, &[0], (7, 2, 1)), false),
    (Asked::Put(3, 0), true),
    (Asked::Take(3, 0), true),
    (Asked::Draw(3, &[0, 0], (7, 3, 6)), false),
    (Asked::Hand(3, &[0], &[], (7, 3, 6)), true),
    (Asked::Lock(2, 0), true),
    (Asked::Draw(3, &[0], (8, 3, 7)), false),
    (Asked::Hand(3, &[], &[0], (8, 3, 7)), true),
    (Asked::Lock(1, 0), true),
    (Asked::Draw(3, &[0], (9, 3, 8)), true),
    (Asked::Draw(3, &[0], (10, 3, 9)), true),
    (Asked::Hand(0, &[], &[], (1, 0, 0)), true),
    (Asked::Alone(3, (12, 3, 10)), false),
    (Asked::Draw(3, &[0], (11, 3, 10)), true),
    (Asked::Lock(2, 0), true),
    (Asked::Lock(0, 0), true),
    (Asked::Put(3, 0), true),
    (Asked::Lock(2, 0), true),
    (Asked::Alone(1, (1, 1, 1)), false),
    (Asked::Unlock(3, 0), true),
    (Asked::Lock(2, 0), true),
    (Asked::Alone(1, (1, 2, 0)), false),
    (Asked::Unlock(2, 0), true),
    (Asked::Lock(0, 0), true),
    (Asked::Draw(0, &[0], (12, 0, 1)), false),
    (Asked::Hand(2, &[], &[], (2, 2, 1)), true),
    (Asked::Take(0, 0), true),
    (Asked::Hand(0, &[0], &[], (12, 0, 1)), true),
    (Asked::Put(0, 0), true),
    (Asked::Alone(3, (12, 3, 11)), true),
    (Asked::Unlock(0, 0), true),
    (Asked::Lock(0, 0), true),
    (Asked::Hand(1, &[], &[], (1, 1, 0)), true),
    (Asked::Alone(3, (14, 3, 12)), false),
    (Asked::Take(0, 0), true),
    (Asked::Put(0, 0), true),
    (Asked::Hand(1, &[], &[], (3, 1, 1)), false),
    (Asked::Hand(2, &[], &[], (3, 2, 2)), true),
    (Asked::Unlock(0, 0), true),
    (Asked::Lock(0, 0), true),
    (Asked::Unlock(0, 0), true),
    (Asked::Alone(1, (1, 1, 0)), false),
    (Asked::Lock(2, 0), true),
    (Asked::Take(2, 0), true),
    (Asked::Hand(2, &[], &[0], (12, 2, 3)), true),
];

/// Sixty events of three cells and four callers.
const THREE_CELLS_OF_FOUR: &[(Asked, bool)] = &[
    (Asked::Lock(0, 1), true),
    (Asked::Lock(0, 2), true),
    (Asked::Unlock(0, 2), true),
    (Asked::Lock(1, 0), true),
    (Asked::Unlock(1, 0), true),
    (Asked::Hand(0, &[], &[1], (1, 0, 0)), false),
    (Asked::Alone(0, (1, 0, 0)), true),
    (Asked::Lock(1, 0), true),
    (Asked::Lock(3, 2), true),
    (Asked::Alone(3, (1, 3, 0)), true),
    (Asked::Unlock(0, 1), true),
    (Asked::Lock(1, 2), true),
    (Asked::Hand(2, &[], &[], (1, 2, 0)), true),
    (Asked::Lock(3, 1), true),
    (Asked::Take(3, 2), true),
    (Asked::Unlock(1, 0), true),
    (Asked::Take(3, 1), true),
    (Asked::Draw(0, &[2], (2, 0, 1)), false),
    (Asked::Lock(2, 0), true),
    (Asked::Take(2, 0), true),
    (Asked::Draw(3, &[1, 2], (2, 3, 1)), true),
    (Asked::Draw(2, &[], (2, 2, 1)), false),
    (Asked::Draw(2, &[0], (2, 2, 1)), true),
    (Asked::Draw(2, &[0], (3, 2, 2)), true),
    (Asked::Draw(3, &[1, 2], (2, 3, 2)), false),
    (Asked::Put(3, 1), true),
    (Asked::Hand(2, &[], &[0], (4, 2, 3)), false),
    (Asked::Take(3, 1), true),
    (Asked::Hand(3, &[1], &[2], (3, 3, 2)), false),
    (Asked::Draw(3, &[1, 2], (3, 3, 2)), true),
    (Asked::Hand(3, &[2, 1], &[], (4, 3, 3)), true),
    (Asked::Put(3, 1), true),
    (Asked::Unlock(3, 1), true),
    (Asked::Lock(2, 2), true),
    (Asked::Hand(2, &[0], &[], (4, 2, 3)), true),
    (Asked::Lock(1, 1), true),
    (Asked::Unlock(1, 1), true),
    (Asked::Draw(3, &[2], (5, 3, 4)), false),
    (Asked::Lock(2, 1), true),
    (Asked::Lock(3, 0), true),
    (Asked::Draw(3, &[2], (5, 3, 4)), false),
    (Asked::Hand(0, &[], &[], (2, 0, 1)), true),
    (Asked::Take(2, 1), true),
    (Asked::Alone(2, (5, 2, 4)), true),
    (Asked::Alone(1, (2, 1, 0)), false),
    (Asked::Hand(1, &[], &[], (1, 1, 0)), true),
    (Asked::Hand(1, &[], &[], (2, 1, 1)), true),
    (Asked::Hand(2, &[], &[0, 1], (6, 2, 5)), true),
    (Asked::Draw(2, &[0, 1], (7, 2, 6)), true),
    (Asked::Draw(2, &[1, 0], (8, 2, 6)), false),
    (Asked::Draw(2, &[1, 0], (8, 2, 7)), true),
    (Asked::Draw(2, &[1, 0], (10, 2, 8)), false),
    (Asked::Put(2, 0), true),
    (Asked::Take(2, 0), true),
    (Asked::Draw(2, &[1, 0, 1], (9, 2, 8)), false),
    (Asked::Put(2, 0), true),
    (Asked::Alone(2, (9, 2, 8)), true),
    (Asked::Unlock(2, 0), true),
    (Asked::Draw(2, &[1], (10, 2, 9)), true),
    (Asked::Lock(2, 0), true),
];

#[test]
fn events_of_three_cells_and_two_callers_go_as_listed(rt: HostRuntime) -> Result<(), Fail> {
    let mut state = TurnState::new(rt.alloc(), 3, 2, vec![in rt.alloc(); 0, 0, 1]?)?;
    assert_eq!(rt; astray(rt.alloc(), &mut state, THREE_CELLS_OF_TWO)?, 0);
    assert!(rt;
        state.cells.iter().map(shown).eq([
            (Some(0), false, false, 2, 5, 11, 1),
            (Some(1), true, true, 0, 4, 4, 0),
            (None, true, false, 1, 6, 10, 0),
        ])
    );
    assert!(rt;
        state
            .callers
            .iter()
            .map(held_and_drawn)
            .eq([(1, 11), (1, 7)])
    );
    Ok(())
}

#[test]
fn events_of_one_cell_and_four_callers_go_as_listed(rt: HostRuntime) -> Result<(), Fail> {
    let mut state = TurnState::new(rt.alloc(), 1, 4, vec![in rt.alloc(); 0]?)?;
    assert_eq!(rt; astray(rt.alloc(), &mut state, ONE_CELL_OF_FOUR)?, 0);
    assert!(rt;
        state
            .cells
            .iter()
            .map(shown)
            .eq([(Some(2), false, false, 4, 1, 12, 2)])
    );
    assert!(rt;
        state
            .callers
            .iter()
            .map(held_and_drawn)
            .eq([(0, 2), (0, 1), (1, 4), (0, 12)])
    );
    Ok(())
}

#[test]
fn events_of_three_cells_and_four_callers_go_as_listed(rt: HostRuntime) -> Result<(), Fail> {
    let mut state = TurnState::new(rt.alloc(), 3, 4, vec![in rt.alloc(); 1, 1, 0]?)?;
    assert_eq!(rt; astray(rt.alloc(), &mut state, THREE_CELLS_OF_FOUR)?, 0);
    assert!(rt;
        state.cells.iter().map(shown).eq([
            (Some(2), true, false, 3, 3, 8, 1),
            (Some(2), false, false, 3, 4, 10, 1),
            (Some(3), false, true, 0, 2, 3, 0),
        ])
    );
    assert!(rt;
        state
            .callers
            .iter()
            .map(held_and_drawn)
            .eq([(0, 2), (0, 2), (2, 10), (1, 4)])
    );
    Ok(())
}
