//! The cells' side of a draw, and the way back where memory lacks.
ghost use Rattle.std.specs.Prelude.{◌≡◌, ◌<◌, ◌++◌, ◌∷◌, [], length, All, OnOk, OnErr};
ghost use Rattle.turn_core.specs.State.{cell_at, change_cell, change_cells};
ghost use Rattle.turn_core.specs.Events.{cell_told, drawn};
ghost use Rattle.turn_core.specs.Undoing.{cell_untold};

use crate::state::TurnState;
use k42_kinds::Entry;
use k42_memory::Memory;

impl<O: Copy + Drop, R: Copy + Drop> TurnState<O, R> {
    /// Tells a cell of an entry. Want of memory leaves the state.
    pub(crate) fn tell(&mut self, n: u32, entry: &Entry<O, R>) -> Result<(), Memory>
        requires { n < length self.old.cells }
        ensures ok { OnOk result (self.new ≡ change_cell (cell_told entry.now) self.old n) }
        ensures memory { OnErr result (self.new ≡ self.old) }
    {
        let cell = &mut self.cells[n as usize];
        entry.push_onto(&mut cell.history)
    }

    /// Takes the last entry of a cell's history back.
    pub(crate) fn untell(&mut self, n: u32)
        requires { n < length self.old.cells }
        ensures { self.new ≡ change_cell cell_untold self.old n }
    {
        let cell = &mut self.cells[n as usize];
        let told = cell.history.len();
        cell.history.truncate(told.saturating_sub(1));
    }

    #[tactic(auto, using(crate::proofs::Undone::untold))]
    /// Tells each of the cells of an entry. Want of memory leaves the state.
    pub(crate) fn tell_all(&mut self, cells: &[u32], entry: &Entry<O, R>) -> Result<(), Memory>
        requires { All (λ n. n < length self.old.cells) cells.now }
        ensures ok { OnOk result (self.new ≡ change_cells (cell_told entry.now) self.old cells.now) }
        ensures memory { OnErr result (self.new ≡ self.old) }
    {
        let Some((first, rest)) = cells.split_first() else {
            return Ok(());
        };
        self.tell(*first, entry)?;
        let told = self.tell_all(rest, entry);
        if told.is_err() {
            self.untell(*first);
        }
        told
    }

    #[tactic(auto, using(crate::proofs::Undone::undrawn))]
    /// The caller draws an entry at the cells. Want of memory leaves the state.
    pub(crate) fn draw_at(
        &mut self,
        c: u32,
        cells: &[u32],
        entry: &Entry<O, R>,
    ) -> Result<(), Memory>
        requires caller { c < length self.old.callers }
        requires cells { All (λ n. n < length self.old.cells) cells.now }
        ensures ok { OnOk result (self.new ≡ drawn self.old c cells.now entry.now) }
        ensures memory { OnErr result (self.new ≡ self.old) }
    {
        let clock = self.clock(c);
        self.add_mine(c, entry)?;
        let told = self.tell_all(cells, entry);
        if told.is_err() {
            self.undraw(c, clock);
        }
        told
    }
}
