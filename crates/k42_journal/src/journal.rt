//! The logs of several callers as one history.
ghost use Rattle.std.specs.Prelude.{◌≡◌, ◌==◌, ◌<◌, ◌+◌, ◌^◌, length, IfOk};
ghost use Rattle.k42_stamp.specs.Lists.{AreLists, IsMergedFrom};
ghost use Rattle.k42_stamp.specs.Merging.{entries_in};
ghost use Rattle.k42_journal.specs.Logs.{lists_of};

use crate::reader::Reader;
use k42_kinds::{Entry, Packed, PackedReply};
use k42_log::Log;
use k42_memory::Memory;
use std::alloc::Global;
use std::marker::Model;

/// The entries of all logs in the order of stamp, object, cell and caller, numbered anew from the
/// first number. They stay in their logs.
#[derive(Debug, Drop)]
pub struct Journal<O: Packed, R: PackedReply> {
    logs: Vec<Log<O, R>>,
    first: u64,
}

impl<O: Packed, R: PackedReply> Model for Journal<O, R> {
    ghost use Rattle.std.specs.Prelude.{List};
    ghost use Rattle.k42_kinds.specs.declared.entry.Entry.{Entry};

    ghost Value = { List (Entry O R) };

    ghost use Rattle.k42_journal.specs.Merged.{merged_from};
    ghost use Rattle.k42_journal.specs.Logs.{MayMerge, lists_of};

    ghost view = { λ j. merged_from j.first (lists_of j.logs.items) };

    ghost invariant = { λ j. MayMerge j.first (lists_of j.logs.items) };
}

/// How many entries the logs have.
fn total_of<O: Packed, R: PackedReply>(logs: &[Log<O, R>]) -> usize
    requires { entries_in (lists_of logs.now) < 2 ^ 64 }
    ensures { result ≡ entries_in (lists_of logs.now) }
{
    match logs.split_first() {
        None => 0,
        Some((log, others)) => log.len() + total_of(others),
    }
}

impl<O: Packed, R: PackedReply> Journal<O, R> {
    /// The history of these logs. It moves no entry, and asks for no memory.
    pub fn of(first: u64, logs: Vec<Log<O, R>>) -> Journal<O, R>
        requires lists { AreLists (lists_of logs.items) }
        requires fits { first + entries_in (lists_of logs.items) < 2 ^ 64 }
        ensures { IsMergedFrom first (lists_of logs.items) result }
    {
        Journal { logs, first }
    }

    /// How many entries it has.
    pub fn len(&self) -> usize
        ensures { result ≡ length self.now }
    {
        total_of(self.logs.as_slice())
    }

    /// Whether it has none.
    pub fn is_empty(&self) -> bool
        ensures { result ≡ (length self.now == 0) }
    {
        self.len() == 0
    }

    /// Its entries, none of them read yet. The room that it asks for goes by the number of logs.
    pub fn read(&self, alloc: Global) -> Result<Reader<'_, O, R>, Memory>
        ensures { IfOk result (λ reader. reader ≡ self.now) }
    {
        Reader::of(self.first, self.logs.as_slice(), alloc)
    }

    /// All its entries. Want of memory leaves the journal.
    pub fn collect(&self, alloc: Global) -> Result<Vec<Entry<O, R>>, Memory>
        ensures { IfOk result (λ list. list.items ≡ self.now) }
    {
        self.read(alloc)?.collect(alloc)
    }
}
