//! The details of entries, and the room for more.
ghost use Rattle.std.specs.Prelude.{◌≡◌, ◌<◌, ◌≤◌, length, OnOk, OnErr};
ghost use Rattle.k42_kinds.specs.Packing.{IsNoMoreThan};
ghost use Rattle.k42_log.specs.Details.{details_of, entries_fitting, joined, less_by, no_details, no_size, size_in};
ghost use Rattle.k42_log.specs.Stored.{details_in, spare_in};

use k42_kinds::{Packed, Size};
use k42_memory::Memory;
use std::alloc::Global;

#[derive(Debug, Drop)]
pub(crate) struct Stored {
    pub(crate) words: Vec<u64>,
    pub(crate) bytes: Vec<u8>,
}

impl Stored {
    pub(crate) fn new(alloc: Global) -> Stored
        ensures details { details_in result ≡ no_details }
        ensures spare { spare_in result ≡ no_size }
    {
        Stored {
            words: Vec::new(alloc),
            bytes: Vec::new(alloc),
        }
    }

    /// Makes room for so many words and bytes.
    pub(crate) fn reserve(&mut self, over: Size) -> Result<(), Memory>
        requires words { 0 < over.words }
        requires bytes { 0 < over.bytes }
        ensures details { details_in self.new ≡ details_in self.old }
        ensures more { IsNoMoreThan (spare_in self.old) (spare_in self.new) }
        ensures ok { OnOk result (0 < entries_fitting over (spare_in self.new)) }
        ensures fitting { entries_fitting over (spare_in self.old) ≤ entries_fitting over (spare_in self.new) }
        ensures memory { OnErr result (entries_fitting over (spare_in self.new) ≡ 0) }
    {
        self.words.reserve(over.words)?;
        self.bytes.reserve(over.bytes)?;
        Ok(())
    }

    /// Keeps the details of a value, for which there is room.
    pub(crate) fn keep<V: Packed>(&mut self, value: &V)
        requires { IsNoMoreThan (size_in (details_of V.packing value.now)) (spare_in self.old) }
        ensures details { details_in self.new ≡ joined (details_in self.old) (details_of V.packing value.now) }
        ensures spare { spare_in self.new ≡ less_by (spare_in self.old) (size_in (details_of V.packing value.now)) }
    {
        value.pack(&mut self.words, &mut self.bytes);
    }
}
