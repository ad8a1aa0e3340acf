//! The event that closes the cells of one row and begins those of another with one entry.
ghost use Rattle.std.specs.Prelude.{◌≡◌, ◌<◌, ◌^◌, ◌-◌, ◌++◌, length, All, IsTrue, OnOk, OnErr};
ghost use Rattle.std.specs.List.{list_all};
ghost use Rattle.turn_core.specs.State.{cell_at, change_cell, change_cells};
ghost use Rattle.turn_core.specs.Events.{cell_closed, cell_opened, cell_begun, may_begin, has_beginning, can_hand, handed};
ghost use Rattle.turn_core.specs.Names.{names_once};
ghost use Rattle.turn_core.specs.Undoing.{cell_reclosed, cell_unbegun};

use crate::naming::is_named_once;
use crate::state::TurnState;
use k42_items::Items;
use k42_kinds::Entry;
use k42_memory::Memory;
use std::alloc::Global;

impl<O: Copy + Drop, R: Copy + Drop> TurnState<O, R> {
    /// Closes each of the cells.
    pub(crate) fn close_all(&mut self, cells: &[u32])
        requires { All (λ n. n < length self.old.cells) cells.now }
        ensures { self.new ≡ change_cells cell_closed self.old cells.now }
    {
        if let Some((first, rest)) = cells.split_first() {
            self.set_closed(*first);
            self.close_all(rest);
        }
    }

    /// A closed cell begins its next life. Want of memory leaves the state.
    fn open(&mut self, alloc: Global, n: u32) -> Result<(), Memory>
        requires there { n < length self.old.cells }
        requires life { (cell_at self.old n).life < 2 ^ 32 - 2 }
        ensures ok { OnOk result (self.new ≡ change_cell cell_opened self.old n) }
        ensures memory { OnErr result (self.new ≡ self.old) }
    {
        let cell = &mut self.cells[n as usize];
        cell.past.reserve(1)?;
        let ended = std::mem::replace(&mut cell.history, Vec::new(alloc));
        cell.past.push_reserved(Items::of(ended));
        cell.closed = false;
        cell.life += 2;
        Ok(())
    }

    /// Whether a life may begin in the cell.
    fn may_begin(&self, n: u32) -> bool
        requires { n < length self.now.cells }
        ensures { result ≡ may_begin (cell_at self.now n) }
    {
        let cell = self.cell(n);
        if cell.closed {
            cell.life < u32::MAX - 1
        } else {
            cell.history.is_empty()
        }
    }

    /// Whether the caller has taken each of the cells, and a life may begin in each.
    pub(crate) fn can_begin_all(&self, c: u32, cells: &[u32]) -> bool
        requires { All (λ n. n < length self.now.cells) cells.now }
        ensures { result ≡ list_all (has_beginning self.now c) cells.now }
    {
        cells
            .iter()
            .all(|n| self.is_taken(c, *n) && self.may_begin(*n))
    }

    /// Closes a cell again in the life before.
    fn reclose(&mut self, n: u32)
        requires there { n < length self.old.cells }
        ensures { self.new ≡ change_cell cell_reclosed self.old n }
    {
        let cell = &mut self.cells[n as usize];
        cell.history.clear();
        if let Some(ended) = cell.past.pop() {
            cell.history = ended.into_vec();
        }
        cell.closed = true;
        cell.life = cell.life.saturating_sub(2);
    }

    /// A new life of the cell begins with the entry. Want of memory leaves the state.
    #[tactic(auto, using(crate::proofs::Undone::reclosed, crate::proofs::Undone::begun))]
    fn begin(&mut self, alloc: Global, n: u32, entry: &Entry<O, R>) -> Result<(), Memory>
        requires there { n < length self.old.cells }
        requires may_begin { IsTrue (may_begin (cell_at self.old n)) }
        ensures ok { OnOk result (self.new ≡ change_cell (cell_begun entry.now) self.old n) }
        ensures memory { OnErr result (self.new ≡ self.old) }
    {
        if !self.cell(n).closed {
            return self.tell(n, entry);
        }
        self.open(alloc, n)?;
        let told = self.tell(n, entry);
        if told.is_err() {
            self.reclose(n);
        }
        told
    }

    /// Takes the entry back with which a life of the cell began, which was closed before or not.
    fn unbegin(&mut self, n: u32, was_closed: bool)
        requires there { n < length self.old.cells }
        ensures { self.new ≡ change_cell (cell_unbegun was_closed) self.old n }
    {
        if was_closed {
            self.reclose(n);
        } else {
            self.untell(n);
        }
    }

    /// A new life of each of the cells begins with the entry. Want of memory leaves the state.
    #[tactic(auto, using(crate::proofs::Undone::unbegun))]
    pub(crate) fn begin_all(
        &mut self,
        alloc: Global,
        cells: &[u32],
        entry: &Entry<O, R>,
    ) -> Result<(), Memory>
        requires there { All (λ n. n < length self.old.cells) cells.now }
        requires may_begin { IsTrue (list_all (λ n. may_begin (cell_at self.old n)) cells.now) }
        requires once { IsTrue (names_once cells.now) }
        ensures ok { OnOk result (self.new ≡ change_cells (cell_begun entry.now) self.old cells.now) }
        ensures memory { OnErr result (self.new ≡ self.old) }
        ensures many { length self.new.cells ≡ length self.old.cells }
    {
        let Some((first, rest)) = cells.split_first() else {
            return Ok(());
        };
        let was_closed = self.cell(*first).closed;
        self.begin(alloc, *first, entry)?;
        let begun = self.begin_all(alloc, rest, entry);
        if begun.is_err() {
            self.unbegin(*first, was_closed);
        }
        begun
    }

    /// Whether the caller can hand the first cells on to the second; `named` has both lists.
    #[tactic(auto, using(crate::proofs::Named::all_both))]
    pub(crate) fn can_hand(
        &self,
        c: u32,
        from: &[u32],
        onto: &[u32],
        named: &[u32],
        entry: &Entry<O, R>,
    ) -> bool
        requires caller { c < length self.now.callers }
        requires from { All (λ n. n < length self.now.cells) from.now }
        requires onto { All (λ n. n < length self.now.cells) onto.now }
        requires named { named.now ≡ from.now ++ onto.now }
        ensures { result ≡ can_hand self.now c from.now onto.now entry.now }
    {
        is_named_once(named)
            && self.are_open(c, from)
            && self.can_begin_all(c, onto)
            && self.is_next(c, named, entry)
    }

    /// The caller hands the first cells on to the second, with an entry. Want of memory leaves the
    /// state.
    #[tactic(auto, using(crate::proofs::Undone::undrawn, crate::proofs::Named::hand_begins, crate::proofs::Named::hand_once))]
    pub(crate) fn hand_on(
        &mut self,
        alloc: Global,
        c: u32,
        from: &[u32],
        onto: &[u32],
        entry: &Entry<O, R>,
    ) -> Result<(), Memory>
        requires caller { c < length self.old.callers }
        requires from { All (λ n. n < length self.old.cells) from.now }
        requires onto { All (λ n. n < length self.old.cells) onto.now }
        requires possible { IsTrue (can_hand self.old c from.now onto.now entry.now) }
        ensures ok { OnOk result (self.new ≡ handed self.old c from.now onto.now entry.now) }
        ensures memory { OnErr result (self.new ≡ self.old) }
    {
        let clock = self.clock(c);
        self.add_mine(c, entry)?;
        let begun = self.begin_all(alloc, onto, entry);
        if begun.is_err() {
            self.undraw(c, clock);
        } else {
            self.close_all(from);
        }
        begun
    }
}
