//! Entries that are given one after the other.
#![tactic(auto)]

ghost use Rattle.std.specs.Prelude.{◌≡◌, List, length, drop, slice_get};
ghost use Rattle.k42_kinds.specs.declared.entry.Entry.{Entry};

use k42_kinds::Entry;

/// Entries that are given one after the other, each once. A history gives them without a list of
/// all, and so does a list.
pub trait Entries<O, R> {
    /// Those that are left, in their order.
    ghost left: { Self → List (Entry O R) };

    /// How many are left.
    fn len(&self) -> usize
        ensures { result ≡ length (left self.now) };

    /// Gives the next one.
    fn next(&mut self) -> Option<Entry<O, R>>
        ensures next { result ≡ slice_get (left self.old) 0 }
        ensures rest { left self.new ≡ drop 1 (left self.old) };
}

impl<O: Copy, R: Copy> Entries<O, R> for &[Entry<O, R>] {
    ghost left = { λ entries. entries.now };

    fn len(&self) -> usize {
        let entries: &[Entry<O, R>] = *self;
        entries.len()
    }

    fn next(&mut self) -> Option<Entry<O, R>> {
        let entries: &[Entry<O, R>] = *self;
        let (entry, others) = entries.split_first()?;
        *self = others;
        Some(*entry)
    }
}
