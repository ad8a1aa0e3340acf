//! A journal, read from the front.
ghost use Rattle.std.specs.Prelude.{◌≡◌, ◌==◌, ◌≤◌, ◌<◌, ◌+◌, ◌^◌, [], length, drop, map, vec_items, vec_len, vec_capacity, slice_get, IfOk};
ghost use Rattle.k42_stamp.specs.Merging.{entries_in};
ghost use Rattle.k42_journal.specs.Merged.{merged_from};
ghost use Rattle.k42_journal.specs.Logs.{MayMerge, lists_of};
ghost use Rattle.k42_journal.specs.Queues.{IsQueueOf};

use crate::queue::{enter_first, take_next};
use k42_kinds::{Entry, Packed, PackedReply};
use k42_log::{Log, Standing, Unread};
use k42_memory::Memory;
use std::alloc::Global;
use std::marker::Model;

/// The entries of a journal that were not read yet, each with its place as stamp.
#[derive(Drop)]
pub struct Reader<'a, O: Packed, R: PackedReply> {
    unread: Vec<Unread<'a, O, R>>,
    /// How the first entry of each log stands that has one, the next entry at the end.
    queue: Vec<Standing>,
    number: u64,
}

impl<'a, O: Packed, R: PackedReply> Model for Reader<'a, O, R> {
    ghost use Rattle.std.specs.Prelude.{List};
    ghost use Rattle.k42_kinds.specs.declared.entry.Entry.{Entry};

    ghost Value = { List (Entry O R) };

    ghost use Rattle.k42_journal.specs.Merged.{merged_from};
    ghost use Rattle.k42_journal.specs.Logs.{MayMerge};
    ghost use Rattle.k42_journal.specs.Queues.{IsQueueOf};

    ghost view = { λ r. merged_from r.number r.unread.items };

    ghost invariant = { λ r. MayMerge r.number r.unread.items × IsQueueOf r.unread.items r.queue.items };
}

/// How many entries were not read yet.
fn total_of<O: Packed, R: PackedReply>(unread: &[Unread<'_, O, R>]) -> usize
    requires { entries_in unread.now < 2 ^ 64 }
    ensures { result ≡ entries_in unread.now }
{
    match unread.split_first() {
        None => 0,
        Some((first, others)) => first.len() + total_of(others),
    }
}

impl<'a, O: Packed, R: PackedReply> Reader<'a, O, R> {
    /// The entries of the logs, numbered from the first number.
    pub(crate) fn of(
        first: u64,
        logs: &'a [Log<O, R>],
        alloc: Global,
    ) -> Result<Reader<'a, O, R>, Memory>
        requires { MayMerge first (lists_of logs.now) }
        ensures { IfOk result (λ reader. reader ≡ merged_from first (lists_of logs.now)) }
    {
        let mut unread = Vec::with_capacity(alloc, logs.len())?;
        let mut queue = Vec::with_capacity(alloc, logs.len())?;
        for log in logs {
            let rest = log.unread();
            enter_first(&mut queue, &rest);
            unread.push_reserved(rest);
        }
        Ok(Reader {
            unread,
            queue,
            number: first,
        })
    }

    /// How many entries were not read yet.
    pub fn len(&self) -> usize
        ensures { result ≡ length self.now }
    {
        total_of(self.unread.as_slice())
    }

    /// Whether all were read.
    pub fn is_empty(&self) -> bool
        ensures { result ≡ (length self.now == 0) }
    {
        self.queue.is_empty()
    }

    /// Reads the next entry.
    pub fn next(&mut self) -> Option<Entry<O, R>>
        ensures next { result ≡ slice_get self.old 0 }
        ensures rest { self.new ≡ drop 1 self.old }
    {
        let entry = take_next(&mut self.unread, &mut self.queue)?;
        let number = self.number;
        self.number += 1;
        Some(Entry {
            stamp: number,
            ..entry
        })
    }

    /// All that were not read yet. Want of memory leaves the journal, which can be read again.
    pub(crate) fn collect(mut self, alloc: Global) -> Result<Vec<Entry<O, R>>, Memory>
        ensures { IfOk result (λ list. list.items ≡ self.entry) }
    {
        let mut list = Vec::with_capacity(alloc, self.len())?;
        while let Some(entry) = self.next() {
            entry.push_onto(&mut list)?;
        }
        Ok(list)
    }
}
