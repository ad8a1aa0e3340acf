//! The state of the machine: cells with their histories, and callers with their lists.
ghost use Rattle.std.specs.Prelude.{◌≡◌, ◌<◌, length};
ghost use Rattle.turn_core.specs.State.{cell_at, caller_at, clock_of, change_cell, change_caller};
ghost use Rattle.turn_core.specs.Events.{cell_locked, cell_unlocked, cell_taken, cell_put, cell_closed, caller_unlocked};

use crate::naming::forget;
use k42_items::Items;
use k42_kinds::Entry;
use std::marker::Model;

/// One cell: a place for a representative, with its lock and what was drawn at it.
#[derive(Debug, Drop)]
pub struct TurnCell<O, R> {
    /// The caller that holds it.
    pub lock: Option<u32>,
    /// Whether it is in its place; a caller that holds it may have taken it out.
    pub home: bool,
    /// Whether its row was handed on, so that nothing is drawn at it in this life any more.
    pub closed: bool,
    /// The incarnation whose row it is of.
    pub life: u32,
    /// What was drawn at it in this life.
    pub history: Vec<Entry<O, R>>,
    /// What was drawn at it in its earlier lives, the oldest first.
    pub past: Vec<Items<Entry<O, R>>>,
}

impl<O, R> Model for TurnCell<O, R> {
    ghost use Rattle.turn_core.specs.Plain.{Cell};

    ghost Value = { Cell O R };

    ghost view = { λ x. record {
      lock = x.lock;
      home = x.home;
      closed = x.closed;
      life = x.life;
      history = x.history.items;
      past = x.past.items;
    } };
}

/// One caller.
#[derive(Debug, Drop)]
pub struct TurnCaller<O, R> {
    /// The cells that it holds, in the order in which it locked them.
    pub held: Vec<u32>,
    /// Its entries, the oldest first.
    pub mine: Vec<Entry<O, R>>,
    /// Its clock, at least the stamp of its last entry; what it draws next bears a greater stamp.
    pub clock: u64,
}

impl<O, R> Model for TurnCaller<O, R> {
    ghost use Rattle.turn_core.specs.Plain.{Caller};

    ghost Value = { Caller O R };

    ghost view = { λ x. record { held = x.held.items; mine = x.mine.items; clock = x.clock } };
}

/// Cells and callers, each named by its place.
#[derive(Debug, Drop)]
pub struct TurnState<O, R> {
    pub cells: Vec<TurnCell<O, R>>,
    pub callers: Vec<TurnCaller<O, R>>,
}

impl<O, R> Model for TurnState<O, R> {
    ghost use Rattle.turn_core.specs.Plain.{Turns};

    ghost Value = { Turns O R };

    ghost view = { λ s. record { cells = s.cells.items; callers = s.callers.items } };
}

impl<O: Copy + Drop, R: Copy + Drop> TurnState<O, R> {
    pub(crate) fn cell(&self, n: u32) -> &TurnCell<O, R>
        requires { n < length self.now.cells }
        ensures { result.now ≡ cell_at self.now n }
    {
        &self.cells[n as usize]
    }

    pub(crate) fn caller(&self, c: u32) -> &TurnCaller<O, R>
        requires { c < length self.now.callers }
        ensures { result.now ≡ caller_at self.now c }
    {
        &self.callers[c as usize]
    }

    pub(crate) fn clock(&self, c: u32) -> u64
        requires { c < length self.now.callers }
        ensures { result ≡ clock_of self.now c }
    {
        self.caller(c).clock
    }

    pub(crate) fn set_locked(&mut self, n: u32, c: u32)
        requires { n < length self.old.cells }
        ensures { self.new ≡ change_cell (cell_locked c) self.old n }
    {
        let cell = &mut self.cells[n as usize];
        cell.lock = Some(c);
    }

    pub(crate) fn set_unlocked(&mut self, n: u32)
        requires { n < length self.old.cells }
        ensures { self.new ≡ change_cell cell_unlocked self.old n }
    {
        let cell = &mut self.cells[n as usize];
        cell.lock = None;
    }

    pub(crate) fn set_taken(&mut self, n: u32)
        requires { n < length self.old.cells }
        ensures { self.new ≡ change_cell cell_taken self.old n }
    {
        let cell = &mut self.cells[n as usize];
        cell.home = false;
    }

    pub(crate) fn set_put(&mut self, n: u32)
        requires { n < length self.old.cells }
        ensures { self.new ≡ change_cell cell_put self.old n }
    {
        let cell = &mut self.cells[n as usize];
        cell.home = true;
    }

    pub(crate) fn set_closed(&mut self, n: u32)
        requires { n < length self.old.cells }
        ensures { self.new ≡ change_cell cell_closed self.old n }
    {
        let cell = &mut self.cells[n as usize];
        cell.closed = true;
    }

    /// The caller no longer holds the cell.
    pub(crate) fn forget_held(&mut self, c: u32, n: u32)
        requires { c < length self.old.callers }
        ensures { self.new ≡ change_caller (caller_unlocked n) self.old c }
    {
        let caller = &mut self.callers[c as usize];
        forget(&mut caller.held, n);
    }
}
