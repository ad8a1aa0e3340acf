//! Details, read one after the other.
ghost use Rattle.std.specs.Prelude.{◌≡◌};
ghost use Rattle.k42_log.specs.Details.{HasSoMany, behind, front};
ghost use Rattle.k42_log.specs.Heads.{FitsAct, FitsAnswer, act_back, act_size, answer_back, answer_size};

use crate::head::Head;
use crate::name::{end_named, names_layout, names_reply, to_named};
use k42_kinds::{Act, Answer, Label, Packed};
use std::marker::Model;

/// The details that were not read yet.
#[derive(Drop)]
pub(crate) struct Reading<'a> {
    words: &'a [u64],
    bytes: &'a [u8],
}

impl<'a> Model for Reading<'a> {
    ghost use Rattle.k42_log.specs.Details.{Details};

    ghost Value = { Details };

    ghost view = { λ r. record { words = r.words.now; bytes = r.bytes.now } };
}

impl<'a> Reading<'a> {
    pub(crate) fn of(words: &'a [u64], bytes: &'a [u8]) -> Reading<'a>
        ensures { result ≡ record { words = words.now; bytes = bytes.now } }
    {
        Reading { words, bytes }
    }

    /// The value that has this label and the first of the details, which fit behind it.
    fn next<V: Packed>(&mut self, label: Label) -> V
        requires many { HasSoMany (V.packing.size label) self.old }
        requires fits { V.packing.Fits label (front (V.packing.size label) self.old).words (front (V.packing.size label) self.old).bytes }
        ensures value { result ≡ V.packing.unpack label (front (V.packing.size label) self.old).words (front (V.packing.size label) self.old).bytes }
        ensures rest { self.new ≡ behind (V.packing.size label) self.old }
    {
        let size = V::size(label);
        let (words, other_words) = self.words.split_at(size.words);
        let (bytes, other_bytes) = self.bytes.split_at(size.bytes);
        self.words = other_words;
        self.bytes = other_bytes;
        V::unpack(label, words, bytes)
    }

    pub(crate) fn next_act<O: Packed>(&mut self, head: &Head) -> Act<O>
        requires many { HasSoMany (act_size O.packing head.now) self.old }
        requires fits { FitsAct O.packing head.now (front (act_size O.packing head.now) self.old) }
        ensures act { result ≡ act_back O.packing head.now (front (act_size O.packing head.now) self.old) }
        ensures rest { self.new ≡ behind (act_size O.packing head.now) self.old }
    {
        if names_reply(head.answer) {
            let label = Label {
                tag: head.act,
                small: head.small,
            };
            Act::Call(self.next(label))
        } else {
            Act::Swap(to_named(names_layout(head.answer), head.act))
        }
    }

    pub(crate) fn next_answer<R: Packed>(&mut self, head: &Head) -> Answer<R>
        requires many { HasSoMany (answer_size R.packing head.now) self.old }
        requires fits { FitsAnswer R.packing head.now (front (answer_size R.packing head.now) self.old) }
        ensures answer { result ≡ answer_back R.packing head.now (front (answer_size R.packing head.now) self.old) }
        ensures rest { self.new ≡ behind (answer_size R.packing head.now) self.old }
    {
        if names_reply(head.answer) {
            let label = Label {
                tag: head.answer,
                small: 0,
            };
            Answer::Replied(self.next(label))
        } else {
            end_named(head.answer, head.small)
        }
    }
}
