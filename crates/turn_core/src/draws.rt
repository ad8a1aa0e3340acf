//! The caller's side of a draw, and the way back where memory lacks.
ghost use Rattle.std.specs.Prelude.{◌≡◌, ◌<◌, length, All, OnOk, OnErr};
ghost use Rattle.std.specs.List.{list_all};
ghost use Rattle.turn_core.specs.State.{change_caller};
ghost use Rattle.turn_core.specs.Events.{caller_drawn, caller_locked, has_open};
ghost use Rattle.turn_core.specs.Undoing.{caller_undrawn};

use crate::state::TurnState;
use k42_kinds::Entry;
use k42_memory::Memory;

impl<O: Copy + Drop, R: Copy + Drop> TurnState<O, R> {
    /// The caller has drawn an entry, to whose stamp its clock is set. Want of memory leaves the state.
    pub(crate) fn add_mine(&mut self, c: u32, entry: &Entry<O, R>) -> Result<(), Memory>
        requires { c < length self.old.callers }
        ensures ok { OnOk result (self.new ≡ change_caller (caller_drawn entry.now) self.old c) }
        ensures memory { OnErr result (self.new ≡ self.old) }
    {
        let caller = &mut self.callers[c as usize];
        entry.push_onto(&mut caller.mine)?;
        caller.clock = entry.stamp;
        Ok(())
    }

    /// Takes the last entry of a caller back, whose clock was this before.
    pub(crate) fn undraw(&mut self, c: u32, clock: u64)
        requires { c < length self.old.callers }
        ensures { self.new ≡ change_caller (caller_undrawn clock) self.old c }
    {
        let caller = &mut self.callers[c as usize];
        let drawn = caller.mine.len();
        caller.mine.truncate(drawn.saturating_sub(1));
        caller.clock = clock;
    }

    /// The caller holds one cell more. Want of memory leaves the state.
    pub(crate) fn add_held(&mut self, c: u32, n: u32) -> Result<(), Memory>
        requires { c < length self.old.callers }
        ensures ok { OnOk result (self.new ≡ change_caller (caller_locked n) self.old c) }
        ensures memory { OnErr result (self.new ≡ self.old) }
    {
        let caller = &mut self.callers[c as usize];
        caller.held.push(n)?;
        Ok(())
    }

    /// Whether the caller has taken each of the cells, and each is open.
    pub(crate) fn are_open(&self, c: u32, cells: &[u32]) -> bool
        requires { All (λ n. n < length self.now.cells) cells.now }
        ensures { result ≡ list_all (has_open self.now c) cells.now }
    {
        cells
            .iter()
            .all(|n| self.is_taken(c, *n) && !self.cell(*n).closed)
    }
}
