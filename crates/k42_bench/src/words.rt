//! The words of the command line.
use crate::load::{Load, Ops};
use co_system::Keep;
use k42_kinds::{KindName, LayoutName};

/// The calls of an activity under `block`.
const BLOCK: u32 = 16;

fn kind_of(word: &str) -> Option<KindName> {
    if word == "counter" {
        Some(KindName::Counter)
    } else if word == "directory" {
        Some(KindName::Directory)
    } else if word == "pages" {
        Some(KindName::Pages)
    } else {
        None
    }
}

fn layout_of(word: &str) -> Option<LayoutName> {
    if word == "shared" {
        Some(LayoutName::Shared)
    } else if word == "spread" {
        Some(LayoutName::Spread)
    } else {
        None
    }
}

fn ops_of(word: &str) -> Option<Ops> {
    if word == "near" {
        Some(Ops::Near)
    } else if word == "mix" {
        Some(Ops::Mix)
    } else {
        None
    }
}

/// Those that wait for a section which nobody takes are kept alone.
fn keep_of(word: &str) -> Option<Keep> {
    if word == "keep" {
        Some(Keep::All)
    } else if word == "unread" {
        Some(Keep::Sections)
    } else if word == "none" {
        Some(Keep::Nothing)
    } else {
        None
    }
}

/// Which entries are kept, and how many calls an activity has. Without these words all entries are kept and read, and
/// each call has an activity of its own.
fn keep_and_block_of(words: &[String]) -> Option<(Keep, u32)> {
    match words {
        [] => Some((Keep::All, 1)),
        [keep] => Some((keep_of(keep.as_str())?, 1)),
        [keep, block] if block.as_str() == "block" => Some((keep_of(keep.as_str())?, BLOCK)),
        _ => None,
    }
}

/// Whether the word begins as a number does: with a digit, which is no zero where more stands behind it.
fn begins_as_number(word: &str) -> bool {
    match word.as_bytes() {
        [] => false,
        [digit] => digit.is_ascii_digit(),
        [first, ..] => *first != b'0' && first.is_ascii_digit(),
    }
}

/// A number of 32 bits, in decimal, without a sign and without a leading zero.
fn number_of(word: &str) -> Option<u32> {
    if !begins_as_number(word) {
        return None;
    }
    word.parse::<u32>().ok()
}

/// The load that the words ask for.
pub fn load_of(words: &[String]) -> Option<Load> {
    let [kind, layout, ops, threads, calls, swaps, rest @ ..] = words else {
        return None;
    };
    let threads = number_of(threads.as_str())?;
    if threads == 0 || threads > 8 {
        return None;
    }
    let (keep, block) = keep_and_block_of(rest)?;
    Some(Load {
        kind: kind_of(kind.as_str())?,
        layout: layout_of(layout.as_str())?,
        ops: ops_of(ops.as_str())?,
        threads,
        calls: number_of(calls.as_str())?,
        swaps: number_of(swaps.as_str())?,
        block,
        keep,
    })
}

#[cfg(test)]
mod tests;
