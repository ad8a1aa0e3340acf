//! Which stamp a draw bears, and whether an entry is the caller's next.
ghost use Rattle.std.specs.Prelude.{◌≡◌, ◌<◌, ◌+◌, ◌==◌, length, All, max};
ghost use Rattle.turn_core.specs.State.{clock_of, change_caller};
ghost use Rattle.turn_core.specs.Stamps.{last_stamp, last_stamp_at};
ghost use Rattle.turn_core.specs.Events.{caller_skipped, is_known, is_next};

use crate::state::TurnState;
use k42_kinds::Entry;

/// Whether the one number is the other plus 1.
fn is_after(next: u64, last: u64) -> bool
    ensures { result ≡ (next == last + 1) }
{
    last < next && next - last == 1
}

/// The stamp of the last of these entries, 0 where there is none.
pub(crate) fn last_stamp<O: Copy + Drop, R: Copy + Drop>(entries: &[Entry<O, R>]) -> u64
    ensures { result ≡ last_stamp entries.now }
{
    match entries.last() {
        None => 0,
        Some(entry) => entry.stamp,
    }
}

impl<O: Copy + Drop, R: Copy + Drop> TurnState<O, R> {
    /// The greatest last stamp of these cells' histories.
    fn last_stamp_at(&self, cells: &[u32]) -> u64
        requires { All (λ n. n < length self.now.cells) cells.now }
        ensures { result ≡ last_stamp_at self.now cells.now }
    {
        match cells.split_first() {
            None => 0,
            Some((first, rest)) => {
                last_stamp(&self.cell(*first).history).max(self.last_stamp_at(rest))
            }
        }
    }

    /// The greatest of the caller's clock and the last stamps of the cells.
    fn known_stamp(&self, c: u32, cells: &[u32]) -> u64
        requires caller { c < length self.now.callers }
        requires cells { All (λ n. n < length self.now.cells) cells.now }
        ensures { result ≡ max (clock_of self.now c) (last_stamp_at self.now cells.now) }
    {
        self.clock(c).max(self.last_stamp_at(cells))
    }

    /// Whether the entry is the caller's next, with the stamp of a draw at these cells.
    pub(crate) fn is_next(&self, c: u32, cells: &[u32], entry: &Entry<O, R>) -> bool
        requires caller { c < length self.now.callers }
        requires cells { All (λ n. n < length self.now.cells) cells.now }
        ensures { result ≡ is_next self.now c cells.now entry.now }
    {
        entry.caller == c
            && entry.index as usize == self.caller(c).mine.len()
            && is_after(entry.stamp, self.known_stamp(c, cells))
    }
    /// Whether some caller's clock is at least the stamp.
    pub(crate) fn is_known(&self, stamp: u64) -> bool
        ensures { result ≡ is_known self.now stamp }
    {
        self.callers.iter().any(|caller| stamp <= caller.clock)
    }

    /// The caller's clock is at least the stamp.
    pub(crate) fn raise_clock(&mut self, c: u32, stamp: u64)
        requires { c < length self.old.callers }
        ensures { self.new ≡ change_caller (caller_skipped stamp) self.old c }
    {
        let caller = &mut self.callers[c as usize];
        caller.clock = caller.clock.max(stamp);
    }
}
