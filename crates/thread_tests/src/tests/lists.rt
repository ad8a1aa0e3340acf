//! What the lists of a finished system have.
use crate::tests::crews::amount_of;
use k42_kinds::{Act, Answer, Entry, Op, Reply};
use std::alloc::Global;
use std::process::Abort;

/// Whether the entry was drawn at the cell that serves its caller's processor: the rows of even number are spread, and
/// those of odd number are shared.
fn is_in_place(entry: &Entry<Op, Reply>) -> bool {
    let cell = if entry.incarnation % 2 == 0 {
        entry.proc
    } else {
        8
    };
    entry.object == 0 && entry.incarnation <= 3 && entry.cell == cell
}

/// Whether the entry tells of a call of the caller, which is on one of two processors.
fn is_call(entry: &Entry<Op, Reply>, caller: u32, index: usize) -> bool {
    entry.caller == caller
        && entry.index as usize == index
        && entry.proc == caller % 2
        && is_in_place(entry)
}

/// Whether the entry tells that the caller has added its amount.
fn is_add(entry: &Entry<Op, Reply>, caller: u32, index: usize) -> bool {
    is_call(entry, caller, index)
        && entry.act == Act::Call(Op::Add(amount_of(caller)))
        && entry.answer == Answer::Replied(Reply::Done)
}

/// Whether the entries tell of the caller's adds, one for each stamp.
pub(super) fn are_adds(entries: &[Entry<Op, Reply>], caller: u32, stamps: &[u64]) -> bool {
    if entries.len() != stamps.len() {
        return false;
    }
    for index in 0..entries.len() {
        if !is_add(&entries[index], caller, index) || entries[index].stamp != stamps[index] {
            return false;
        }
    }
    true
}

/// Whether the entry tells that the caller has found the sum.
pub(super) fn is_sum(entry: &Entry<Op, Reply>, caller: u32, index: usize, sum: u64) -> bool {
    is_call(entry, caller, index)
        && entry.act == Act::Call(Op::Get)
        && entry.answer == Answer::Replied(Reply::Number(sum))
}

/// Whether the entry tells of the swap of the object to its incarnation of that number.
pub(super) fn is_swap(entry: &Entry<Op, Reply>, number: u32) -> bool {
    entry.caller == 3
        && entry.object == 0
        && entry.incarnation == number.saturating_sub(1)
        && entry.cell == number % 2 * 8
        && entry.answer == Answer::Swapped(number)
}

/// How many of the entries are of calls in that row.
pub(super) fn calls_in(lists: &[Vec<Entry<Op, Reply>>], row: u32) -> usize {
    let mut calls = 0usize;
    for list in lists {
        let here = list.iter().filter(|entry| entry.incarnation == row
            && matches!(entry.act, Act::Call(_)));
        calls = calls.saturating_add(here.count());
    }
    calls
}

/// Whether no two entries bear the same stamp of the same cell.
pub(super) fn stand_once(rt: &impl Abort, alloc: Global, lists: &[Vec<Entry<Op, Reply>>]) -> bool {
    let mut drawn = Vec::new(alloc);
    for list in lists {
        for entry in list {
            drawn.push((entry.cell, entry.stamp)).expect(rt, "memory");
        }
    }
    drawn.sort().expect(rt, "memory");
    for place in 1..drawn.len() {
        if drawn[place - 1] == drawn[place] {
            return false;
        }
    }
    true
}
