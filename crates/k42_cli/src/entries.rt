//! The entries of a history, one after the other.

use co_system::{Entry, Reader};
use k42_entries::Entries;
use k42_kinds::{Op, Reply};

/// Those that were not read yet.
#[derive(Drop)]
pub struct Unread<'a> {
    pub reader: Reader<'a, Op, Reply>,
}

impl<'a> Entries<Op, Reply> for Unread<'a> {
    ghost left = { λ unread. unread.reader };

    fn len(&self) -> usize {
        self.reader.len()
    }

    fn next(&mut self) -> Option<Entry<Op, Reply>> {
        self.reader.next()
    }
}
