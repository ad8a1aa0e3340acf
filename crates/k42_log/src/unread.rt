//! A log, read from the front.
ghost use Rattle.std.specs.Prelude.{◌≡◌, ◌==◌, ◌<◌, ◌+◌, ◌^◌, length, drop, slice_get, IfOk};
ghost use Rattle.std.specs.Option.{option_map};
ghost use Rattle.k42_log.specs.Entries.{AreWhole, entries_back};
ghost use Rattle.k42_log.specs.Standing.{standing_of};

use crate::head::Head;
use crate::reading::Reading;
use k42_kinds::{Entry, Packed, PackedReply};
use k42_memory::Memory;
use std::alloc::Global;
use std::marker::{Model, PhantomData};

/// By what entries of several callers are ordered.
#[derive(Clone, Copy, Debug, PartialEq, Eq)]
pub struct Standing {
    pub stamp: u64,
    pub object: u32,
    pub cell: u32,
    pub caller: u32,
}

/// The entries of a log that were not read yet, the first of them first.
#[derive(Drop)]
pub struct Unread<'a, O: Packed, R: PackedReply> {
    heads: &'a [Head],
    reading: Reading<'a>,
    index: u64,
    caller: u32,
    proc: u32,
    of: PhantomData<(O, R)>,
}

impl<'a, O: Packed, R: PackedReply> Model for Unread<'a, O, R> {
    ghost use Rattle.std.specs.Prelude.{List, ◌<◌, ◌+◌, ◌^◌, length};
    ghost use Rattle.k42_kinds.specs.declared.entry.Entry.{Entry};

    ghost Value = { List (Entry O R) };

    ghost use Rattle.k42_log.specs.Entries.{AreWhole, entries_back};

    ghost view = { λ u. entries_back O.packing R.packing (record { caller = u.caller; proc = u.proc }) u.index u.heads.now u.reading };

    ghost invariant = { λ u. AreWhole O.packing R.packing u.heads.now u.reading × (u.index + length u.heads.now < 2 ^ 64) };
}

impl<'a, O: Packed, R: PackedReply> Unread<'a, O, R> {
    /// The entries of one caller, on one processor, with these heads and details.
    pub(crate) fn of(
        heads: &'a [Head],
        reading: Reading<'a>,
        index: u64,
        caller: u32,
        proc: u32,
    ) -> Unread<'a, O, R>
        requires whole { AreWhole O.packing R.packing heads.now reading }
        requires fits { index + length heads.now < 2 ^ 64 }
        ensures { result ≡ entries_back O.packing R.packing (record { caller = caller; proc = proc }) index heads.now reading.entry }
    {
        Unread {
            heads,
            reading,
            index,
            caller,
            proc,
            of: PhantomData,
        }
    }

    /// How many entries were not read yet.
    pub fn len(&self) -> usize
        ensures { result ≡ length self.now }
    {
        self.heads.len()
    }

    /// Whether all were read.
    pub fn is_empty(&self) -> bool
        ensures { result ≡ (length self.now == 0) }
    {
        self.heads.is_empty()
    }

    /// How the next entry stands among those of other callers. It makes no entry.
    pub fn standing(&self) -> Option<Standing>
        ensures { result ≡ option_map standing_of (slice_get self.now 0) }
    {
        let head = self.heads.first()?;
        Some(Standing {
            stamp: head.stamp,
            object: head.object(),
            cell: head.cell(),
            caller: self.caller,
        })
    }

    /// Reads the next entry.
    pub fn next(&mut self) -> Option<Entry<O, R>>
        ensures next { result ≡ slice_get self.old 0 }
        ensures rest { self.new ≡ drop 1 self.old }
    {
        let (head, heads) = self.heads.split_first()?;
        let act = self.reading.next_act(head);
        let answer = self.reading.next_answer(head);
        let entry = Entry {
            stamp: head.stamp,
            index: self.index,
            caller: self.caller,
            object: head.object(),
            incarnation: head.incarnation,
            cell: head.cell(),
            act,
            answer,
            proc: self.proc,
            generation: head.generation(),
        };
        self.heads = heads;
        self.index += 1;
        Some(entry)
    }

    /// All that were not read yet. Want of memory leaves the log, which can be read again.
    pub fn collect(mut self, alloc: Global) -> Result<Vec<Entry<O, R>>, Memory>
        ensures { IfOk result (λ list. list.items ≡ self.entry) }
    {
        let mut list = Vec::with_capacity(alloc, self.len())?;
        while let Some(entry) = self.next() {
            entry.push_onto(&mut list)?;
        }
        Ok(list)
    }
}
