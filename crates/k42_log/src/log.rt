//! A log: entries of one caller, and room for more.
ghost use Rattle.std.specs.Prelude.{◌≡◌, ◌<◌, ◌≤◌, ◌+◌, ◌==◌, [], ◌∷◌, ◌++◌, length, OnOk, OnErr};
ghost use Rattle.k42_limits.specs.declared.TheConstants.{OBJECTS, PASS_ENTRIES};
ghost use Rattle.k42_log.specs.LogFields.{over_most};
ghost use Rattle.k42_log.specs.Logs.{IsNextOf, call_entry, incarnation_or_0, last_entry, next_index, stamp_or_0};

use crate::head::{CELLS, Head, answer_small, generation_or_0, place_of};
use crate::name::{end_name, to_name};
use crate::reading::Reading;
use crate::stored::Stored;
use crate::unread::Unread;
use k42_kinds::{Act, Answer, Entry, Packed, PackedReply, Size};
use k42_memory::Memory;
use std::alloc::Global;
use std::marker::{Model, PhantomData};

/// The entries of one caller, the first of them first. Their indexes count from that of the first.
#[derive(Debug, Drop)]
pub struct Log<O: Packed, R: PackedReply> {
    heads: Vec<Head>,
    stored: Stored,
    first: u64,
    caller: u32,
    proc: u32,
    of: PhantomData<(O, R)>,
}

impl<O: Packed, R: PackedReply> Model for Log<O, R> {
    ghost use Rattle.k42_log.specs.Logs.{LogSeen};

    ghost Value = { LogSeen O R };

    ghost use Rattle.k42_log.specs.LogFields.{IsSound, seen};

    ghost view = { seen O.packing R.packing };

    ghost invariant = { IsSound O.packing R.packing };
}

/// More than the details of any entry.
fn over_most<O: Packed, R: Packed>() -> Size
    ensures { result ≡ over_most O.packing R.packing }
{
    let ops = O::most();
    let replies = R::most();
    Size {
        words: ops.words + replies.words + 1,
        bytes: ops.bytes + replies.bytes + 1,
    }
}

impl<O: Packed, R: PackedReply> Log<O, R> {
    /// No entries of the caller, whose next entry has this index. It asks for no memory yet.
    pub fn new(alloc: Global, caller: u32, proc: u32, first: u64) -> Log<O, R>
        ensures { result ≡ record { owner = record { caller = caller; proc = proc }; first = first; entries = []; room = 0 } }
    {
        Log {
            heads: Vec::new(alloc),
            stored: Stored::new(alloc),
            first,
            caller,
            proc,
            of: PhantomData,
        }
    }

    /// How many entries it has.
    pub fn len(&self) -> usize
        ensures { result ≡ length self.now.entries }
    {
        self.heads.len()
    }

    /// Whether it has none.
    pub fn is_empty(&self) -> bool
        ensures { result ≡ (length self.now.entries == 0) }
    {
        self.heads.is_empty()
    }

    /// The stamp of the last entry, or 0 where there is none.
    pub fn last_stamp(&self) -> u64
        ensures { result ≡ stamp_or_0 (last_entry self.now.entries) }
    {
        match self.heads.last() {
            Some(head) => head.stamp,
            None => 0,
        }
    }

    /// The incarnation of the last entry, or 0 where there is none.
    pub fn last_incarnation(&self) -> u32
        ensures { result ≡ incarnation_or_0 (last_entry self.now.entries) }
    {
        match self.heads.last() {
            Some(head) => head.incarnation,
            None => 0,
        }
    }

    /// Makes room for an entry of any kind. Want of memory leaves the log.
    #[inline(always)]
    pub fn reserve(&mut self) -> Result<(), Memory>
        ensures ok { OnOk result (self.new ≡ record self.old { room = self.new.room }) }
        ensures room { OnOk result (0 < self.new.room) }
        ensures more { self.old.room ≤ self.new.room }
        ensures memory { OnErr result (self.new ≡ self.old) }
    {
        self.heads.reserve(1)?;
        self.stored.reserve(over_most::<O, R>())
    }

    /// Adds the entry at the end.
    pub fn push(&mut self, entry: &Entry<O, R>)
        requires room { 0 < self.old.room }
        requires next { IsNextOf self.old entry.now }
        ensures entries { self.new.entries ≡ self.old.entries ++ entry.now ∷ [] }
        ensures owner { self.new.owner ≡ self.old.owner }
        ensures first { self.new.first ≡ self.old.first }
        ensures room { self.old.room ≤ self.new.room + 1 }
    {
        match &entry.act {
            Act::Call(op) => match &entry.answer {
                Answer::Replied(reply) => self.push_call(
                    entry.stamp,
                    entry.object,
                    entry.incarnation,
                    entry.cell,
                    entry.generation,
                    op,
                    reply,
                ),
                _ => unreachable!(),
            },
            Act::Swap(to) => self.heads.push_reserved(Head {
                stamp: entry.stamp,
                incarnation: entry.incarnation,
                generation: generation_or_0(entry.generation),
                small: answer_small(&entry.answer),
                place: place_of(entry.cell, entry.object, entry.generation),
                act: to_name(to),
                answer: end_name(to, &entry.answer),
            }),
        }
    }

    /// Adds the entry of a call at the end, without making it first. The row is the incarnation of
    /// the object that the call was inside.
    #[inline(always)]
    pub fn push_call(
        &mut self,
        stamp: u64,
        object: u32,
        row: u32,
        cell: u32,
        generation: Option<u32>,
        op: &O,
        reply: &R,
    )
        requires room { 0 < self.old.room }
        requires few { next_index self.old < PASS_ENTRIES }
        requires object { object < OBJECTS }
        requires cell { cell < CELLS }
        ensures entries { self.new.entries ≡ self.old.entries ++ call_entry self.old stamp object row cell generation op.now reply.now ∷ [] }
        ensures owner { self.new.owner ≡ self.old.owner }
        ensures first { self.new.first ≡ self.old.first }
        ensures room { self.old.room ≤ self.new.room + 1 }
    {
        let asked = op.label();
        let told = reply.label();
        reply.label_is_low();
        self.stored.keep(op);
        self.stored.keep(reply);
        self.heads.push_reserved(Head {
            stamp,
            incarnation: row,
            generation: generation_or_0(generation),
            small: asked.small,
            place: place_of(cell, object, generation),
            act: asked.tag,
            answer: told.tag,
        });
    }

    /// Its entries, none of them read yet.
    pub fn unread(&self) -> Unread<'_, O, R>
        ensures { result ≡ self.now.entries }
    {
        let reading = Reading::of(self.stored.words.as_slice(), self.stored.bytes.as_slice());
        Unread::of(
            self.heads.as_slice(),
            reading,
            self.first,
            self.caller,
            self.proc,
        )
    }
}
