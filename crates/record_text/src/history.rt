//! A history becomes a record: each entry finds the script's line that it answers.
ghost use Rattle.std.specs.Prelude.{◌≡◌, All, IfOk, slice_index};
ghost use Rattle.record_text.specs.Spelling.{IsVersion, version_number};
ghost use Rattle.record_text.specs.Histories as told;
ghost use Rattle.record_text.specs.Printer.LineNumbers.{HasNumber, line_numbers, all_line_numbers, numbers_at};

use crate::record::{Extra, Record, RecordLine};
use crate::version::Version;
use k42_items::Items;
use k42_kinds::{Entry, Op, Reply};
use k42_memory::Memory;
use script_text::{Item, Script};
use std::alloc::Global;

/// The numbers of a worker's lines that ask something, in their order.
fn numbers_of(alloc: Global, items: &[Item]) -> Result<Items<u32>, Memory>
    ensures { IfOk result (λ numbers. numbers ≡ line_numbers items.now) }
{
    let mut numbers = Items::new(alloc);
    for item in items {
        if let Item::Line(line) = item {
            numbers.push(line.line)?;
        }
    }
    Ok(numbers)
}

/// The numbers of the lines that ask something, in the order of each worker.
pub fn numbers_of_all(alloc: Global, script: &Script) -> Result<Items<Items<u32>>, Memory>
    ensures { IfOk result (λ all. all ≡ all_line_numbers script.now) }
{
    let mut all = Items::new(alloc);
    for worker in script.workers.as_slice() {
        all.push(numbers_of(alloc, worker.items.as_slice())?)?;
    }
    Ok(all)
}

/// The number of the line that an entry answers.
pub fn number_of(numbers: &Items<Items<u32>>, entry: &Entry<Op, Reply>) -> u32
    requires { HasNumber numbers.now entry.now.caller entry.now.index }
    ensures { result ≡ slice_index (numbers_at numbers.now entry.now.caller) entry.now.index }
{
    numbers.as_slice()[entry.caller as usize].as_slice()[entry.index as usize]
}

fn extra_of(entry: &Entry<Op, Reply>, version: Version) -> Option<Extra>
    ensures { result ≡ told.extra_of (version_number version) entry.now }
{
    match version {
        Version::One => None,
        Version::Two => Some(Extra {
            proc: entry.proc,
            generation: entry.generation,
        }),
    }
}

/// The line of an entry that answers the script's line of this number.
pub fn line_at(entry: &Entry<Op, Reply>, number: u32, version: Version) -> RecordLine
    ensures { result ≡ told.line_at (version_number version) number entry.now }
{
    RecordLine {
        stamp: entry.stamp,
        worker: entry.caller,
        line: number,
        object: entry.object,
        act: entry.act,
        answer: entry.answer,
        incarnation: entry.incarnation,
        extra: extra_of(entry, version),
    }
}

/// The record of a history, with a line for each entry in its order.
pub fn lines_of(
    alloc: Global,
    script: &Script,
    entries: &Vec<Entry<Op, Reply>>,
    version: u32,
) -> Result<Record, Memory>
    requires version { IsVersion version }
    requires placed { All (told.HasLine script.now) entries.now.items }
    ensures { IfOk result (λ lines.
        lines ≡ told.record_of script.now entries.now.items version) }
{
    let told_version = Version::of(version);
    let numbers = numbers_of_all(alloc, script)?;
    let mut lines = Vec::with_capacity(alloc, entries.len())?;
    for entry in entries {
        let number = number_of(&numbers, entry);
        lines.push(line_at(entry, number, told_version))?;
    }
    Ok(Record {
        lines: Items::of(lines),
        version,
    })
}
