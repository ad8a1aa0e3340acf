//! States in which no cell was used.
ghost use Rattle.std.specs.Prelude.{◌≡◌, IfOk};
ghost use Rattle.turn_core.specs.State.{fresh, fresh_cells, fresh_callers, IsPlan};
ghost use Rattle.turn_core.specs.Sound.{IsSound};

use crate::state::{TurnCaller, TurnCell, TurnState};
use k42_memory::Memory;
use std::alloc::Global;

/// A cell of each of these lives, which nobody has used.
fn fresh_cells<O: Copy + Drop, R: Copy + Drop>(
    alloc: Global,
    lives: &[u32],
) -> Result<Vec<TurnCell<O, R>>, Memory>
    ensures { IfOk result (λ cells. cells.items ≡ fresh_cells lives.now) }
{
    let mut cells = Vec::with_capacity(alloc, lives.len())?;
    for life in lives {
        cells.push(TurnCell {
            lock: None,
            home: true,
            closed: false,
            life: *life,
            history: Vec::new(alloc),
            past: Vec::new(alloc),
        })?;
    }
    Ok(cells)
}

/// So many callers that hold nothing and have drawn nothing.
fn fresh_callers<O: Copy + Drop, R: Copy + Drop>(
    alloc: Global,
    callers: u32,
) -> Result<Vec<TurnCaller<O, R>>, Memory>
    ensures { IfOk result (λ list. list.items ≡ fresh_callers callers) }
{
    let mut list = Vec::with_capacity(alloc, callers as usize)?;
    for _ in 0..callers {
        list.push(TurnCaller {
            held: Vec::new(alloc),
            mine: Vec::new(alloc),
            clock: 0,
        })?;
    }
    Ok(list)
}

impl<O: Copy + Drop, R: Copy + Drop> TurnState<O, R> {
    /// A state in which no cell was used. The cells are given by their lives.
    pub fn new(
        alloc: Global,
        cells: u32,
        callers: u32,
        lives: Vec<u32>,
    ) -> Result<TurnState<O, R>, Memory>
        requires { IsPlan cells callers lives.items }
        ensures new { IfOk result (λ s. s ≡ fresh lives.items callers) }
        ensures sound { IfOk result IsSound }
    {
        let _ = cells;
        Ok(TurnState {
            cells: fresh_cells(alloc, lives.as_slice())?,
            callers: fresh_callers(alloc, callers)?,
        })
    }
}
