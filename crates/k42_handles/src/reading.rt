//! The history or section that the last pass has left, as plain structs.
ghost use Rattle.std.specs.Prelude.{◌≡◌, ◌≤◌, ◌++◌, length, map, take, drop, Some, None, IfOk, IfSome, IsSome, MatchOption};
ghost use Rattle.k42_handles.specs.Plain.{act_number, op_number, answer_code, key_asked, number_asked, number_told, page_asked, plain_entry, plain_key, plain_text, text_told};
ghost use Rattle.k42_handles.specs.Reading.{HasCounted, HasRead, HasReadFrom, entries_at, entries_in};

use crate::coding::{BUSY, DONE, GONE, MEMORY, SPENT, reply_code};
use crate::plain::{K42Entry, K42Key, K42Text, plain_key, plain_text};
use crate::refusal::Refusal;
use crate::seat::{End, Seat};
use crate::steps::refusal_of;
use co_system::Reader;
use k42_kinds::{Act, Answer, Entry, Op, Reply, To};
use k42_limits::{NAME_BYTES, TEXT_BYTES};
use k42_memory::Memory;
use std::alloc::Global;

fn op_number(op: &Op) -> u32
    ensures { result ≡ op_number op.now }
{
    match op {
        Op::Add(_) => 0,
        Op::Get => 1,
        Op::Drain => 2,
        Op::Bind(_, _) => 3,
        Op::Find(_) => 4,
        Op::Unbind(_) => 5,
        Op::Size => 6,
        Op::Write(_, _) => 7,
        Op::Read(_) => 8,
        Op::Dirty => 9,
        Op::Clean => 10,
        Op::Seen => 11,
    }
}

fn act_number(act: &Act<Op>) -> u32
    ensures { result ≡ act_number act.now }
{
    match act {
        Act::Call(op) => op_number(op),
        Act::Swap(To::Layout(0)) => 12,
        Act::Swap(To::Layout(_)) => 13,
        Act::Swap(To::Dead) => 14,
        Act::Swap(To::Watch) => 15,
        Act::Swap(To::Unwatch) => 16,
    }
}

fn number_asked(act: &Act<Op>) -> u64
    ensures { result ≡ number_asked act.now }
{
    match act {
        Act::Call(Op::Add(amount)) => u64::from(*amount),
        Act::Call(Op::Bind(_, number)) => *number,
        _ => 0,
    }
}

fn page_asked(act: &Act<Op>) -> u32
    ensures { result ≡ page_asked act.now }
{
    match act {
        Act::Call(Op::Write(page, _) | Op::Read(page)) => u32::from(*page),
        _ => 0,
    }
}

fn key_asked(act: &Act<Op>) -> K42Key
    ensures { result ≡ plain_key (key_asked act.now) }
{
    match act {
        Act::Call(Op::Bind(key, _) | Op::Find(key) | Op::Unbind(key)) => plain_key(key),
        _ => K42Key {
            length: 0,
            bytes: [0; NAME_BYTES],
        },
    }
}

fn text_told(act: &Act<Op>, answer: &Answer<Reply>) -> K42Text
    ensures { result ≡ plain_text (text_told act.now answer.now) }
{
    match (act, answer) {
        (_, Answer::Replied(Reply::Text(text))) | (Act::Call(Op::Write(_, text)), _) => {
            plain_text(text)
        }
        _ => K42Text {
            length: 0,
            bytes: [0; TEXT_BYTES],
        },
    }
}

fn answer_code(answer: &Answer<Reply>) -> u32
    ensures { result ≡ answer_code answer.now }
{
    match answer {
        Answer::Replied(reply) => reply_code(reply),
        Answer::Swapped(_) => DONE,
        Answer::Busy(_) => BUSY,
        Answer::Spent => SPENT,
        Answer::Gone => GONE,
        Answer::Abandoned(_) => MEMORY,
    }
}

fn number_told(answer: &Answer<Reply>) -> u64
    ensures { result ≡ number_told answer.now }
{
    match answer {
        Answer::Replied(Reply::Number(number)) => *number,
        Answer::Swapped(number) | Answer::Busy(number) | Answer::Abandoned(number) => {
            u64::from(*number)
        }
        _ => 0,
    }
}

fn plain_entry(entry: &Entry<Op, Reply>) -> K42Entry
    ensures { result ≡ plain_entry entry.now }
{
    K42Entry {
        place: entry.stamp,
        index: entry.index,
        number: number_asked(&entry.act),
        reply: number_told(&entry.answer),
        caller: entry.caller,
        processor: entry.proc,
        generation: entry.generation.unwrap_or(0),
        object: entry.object,
        incarnation: entry.incarnation,
        asked: act_number(&entry.act),
        status: answer_code(&entry.answer),
        page: page_asked(&entry.act),
        key: key_asked(&entry.act),
        text: text_told(&entry.act, &entry.answer),
    }
}

/// What the passes have left in the seat, if they have left something there.
fn end_in(seat: &Seat) -> Option<&End>
    ensures { MatchOption result (entries_in seat.now ≡ None) (λ end. entries_in seat.now ≡ entries_at end.now) }
{
    match seat {
        Seat::Ends(end) => Some(end.as_ref()),
        Seat::Parks(parks) => Some(parks.section.as_ref()),
        _ => None,
    }
}

/// How many entries it has.
pub fn count(seat: &Seat) -> Result<u64, Refusal>
    ensures { HasCounted seat.now result }
{
    match end_in(seat) {
        Some(End::History(history)) => Ok(history.len() as u64),
        Some(End::Section(section)) => Ok(section.len() as u64),
        _ => Err(refusal_of(seat)),
    }
}

/// A reader of its entries, if it has some.
fn reader_of(alloc: Global, seat: &Seat) -> Option<Result<Reader<'_, Op, Reply>, Memory>>
    ensures is { MatchOption result (entries_in seat.now ≡ None) (λ read. IfOk read (λ reader. entries_in seat.now ≡ Some reader)) }
    ensures some { IfSome result (λ _. IsSome (entries_in seat.now)) }
{
    match end_in(seat) {
        Some(End::History(history)) => Some(history.read(alloc)),
        Some(End::Section(section)) => Some(section.read(alloc)),
        _ => None,
    }
}

/// Reads past so many entries, as far as there are any.
fn skip(reader: &mut Reader<'_, Op, Reply>, count: u64)
    ensures { reader.new ≡ drop count reader.old }
{
    for _ in 0..count {
        if reader.next().is_none() {
            return;
        }
    }
}

/// Reads entries into the places for them, as far as there are both, and answers how many.
fn fill(reader: &mut Reader<'_, Op, Reply>, entries: &mut [K42Entry]) -> usize
    ensures { HasRead reader.old entries.old entries.new result }
{
    let mut read = 0;
    while read < entries.len() {
        let Some(entry) = reader.next() else {
            return read;
        };
        entries[read] = plain_entry(&entry);
        read += 1;
    }
    read
}

/// Reads entries of the history, from one of them on.
pub fn read(
    alloc: Global,
    seat: &Seat,
    from: u64,
    entries: &mut [K42Entry],
) -> Result<usize, Refusal>
    ensures { HasReadFrom seat.now from entries.old entries.new result }
{
    let mut reader = match reader_of(alloc, seat) {
        Some(Ok(reader)) => reader,
        Some(Err(Memory)) => return Err(Refusal::Memory),
        None => return Err(refusal_of(seat)),
    };
    skip(&mut reader, from);
    Ok(fill(&mut reader, entries))
}
