//! Whether a caller holds a cell, and has taken what is in it.
ghost use Rattle.std.specs.Prelude.{◌≡◌, ◌<◌, length, Option, Some};
ghost use Rattle.turn_core.specs.Events.{holds, holds_home, has_taken};

use crate::state::TurnState;

impl<O: Copy + Drop, R: Copy + Drop> TurnState<O, R> {
    /// Whether the caller holds the cell.
    pub(crate) fn is_held(&self, c: u32, n: u32) -> bool
        requires { n < length self.now.cells }
        ensures { result ≡ holds self.now c n }
    {
        match self.cell(n).lock {
            None => false,
            Some(holder) => holder == c,
        }
    }

    /// Whether it holds the cell, which is in its place.
    pub(crate) fn is_held_home(&self, c: u32, n: u32) -> bool
        requires { n < length self.now.cells }
        ensures { result ≡ holds_home self.now c n }
    {
        self.is_held(c, n) && self.cell(n).home
    }

    /// Whether it holds the cell, which it took from its place.
    pub(crate) fn is_taken(&self, c: u32, n: u32) -> bool
        requires { n < length self.now.cells }
        ensures { result ≡ has_taken self.now c n }
    {
        self.is_held(c, n) && !self.cell(n).home
    }
}
