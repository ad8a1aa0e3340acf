//! A record is read from its text, or the first line is named at which it is none.
ghost use Rattle.std.specs.Prelude.{◌≡◌, ℕ, ◌<◌, ◌^◌, ◌≤◌, [], length, Ok, Err, IfOk};
ghost use Rattle.k42_limits.specs.declared.TheConstants.{CALLERS, OBJECTS};
ghost use Rattle.script_text.specs.Lines.{lines_of};
ghost use Rattle.record_text.specs.Openings.{LeavesRecordsAt};
ghost use Rattle.record_text.specs.Reading as record_reading;
ghost use Rattle.record_text.specs.Spelling.{HasText, version_number};
ghost use Rattle.script_text.specs.Sound.{HasDistinctNames};
ghost use Rattle.record_text.specs.Texts.{record_text};
ghost use Rattle.record_text.specs.Values.{FitsRecord};
ghost use Rattle.record_text.specs.Reader.Cursor.{left_tokens};

mod acts;
mod answers;
mod cursor;
mod lines;
mod parts;

use crate::ending::RecordEnd;
use crate::reading::cursor::{Left, next_line};
use crate::reading::lines::{count_on, line_on, version_on};
use crate::record::{Record, RecordLine};
use crate::version::Version;
use k42_items::Items;
use script_text::Script;
use std::alloc::Global;

/// Whether this is the last line of a record of so many entries.
fn is_last(line: Left<'_>, count: usize) -> bool
    ensures { result ≡ record_reading.is_last count (left_tokens line.entry) }
{
    match count_on(line) {
        Some(told) => told == count as u64,
        None => false,
    }
}

/// The record of these entries, where a line that is no entry's stands behind them.
fn ended(
    lines: Vec<RecordLine>,
    version: Version,
    line: Left<'_>,
    rest: &[u8],
) -> Result<Record, RecordEnd>
    requires { length lines.items < 2 ^ 31 }
    ensures { record_reading.Reads (record_reading.ended (version_number version) lines.items
        (left_tokens line.entry) (lines_of rest.now)) result }
{
    let count = lines.len();
    if !is_last(line, count) {
        return Err(RecordEnd::Misspelt {
            line: count as u32 + 2,
        });
    }
    if !rest.is_empty() {
        return Err(RecordEnd::Misspelt {
            line: count as u32 + 3,
        });
    }
    Ok(Record {
        lines: Items::of(lines),
        version: version.number(),
    })
}

/// Reads the lines behind the first.
fn read_entries(
    alloc: Global,
    script: &Script,
    version: Version,
    bytes: &[u8],
) -> Result<Record, RecordEnd>
    requires objects { length script.now.objects ≤ OBJECTS }
    requires workers { length script.now.workers ≤ CALLERS }
    requires short { length bytes.now < 2 ^ 31 }
    ensures { record_reading.Reads
        (record_reading.entries_on script.now (version_number version) [] (lines_of bytes.now))
        result }
{
    let mut lines = Vec::new(alloc);
    let mut rest = bytes;
    while !rest.is_empty() {
        let cut = next_line(rest);
        rest = cut.rest;
        match line_on(cut.line, script, version) {
            Some(line) => line.push_onto(&mut lines)?,
            None => return ended(lines, version, cut.line, rest),
        }
    }
    Err(RecordEnd::Misspelt {
        line: lines.len() as u32 + 2,
    })
}

/// Reads the first line, and then the others.
fn read_all(alloc: Global, script: &Script, bytes: &[u8]) -> Result<Record, RecordEnd>
    requires objects { length script.now.objects ≤ OBJECTS }
    requires workers { length script.now.workers ≤ CALLERS }
    requires short { length bytes.now < 2 ^ 31 }
    ensures { record_reading.Reads (record_reading.reading script.now bytes.now) result }
{
    if bytes.is_empty() {
        return Err(RecordEnd::Misspelt { line: 1 });
    }
    let cut = next_line(bytes);
    match version_on(cut.line) {
        Some(version) => read_entries(alloc, script, version, cut.rest),
        None => Err(RecordEnd::Misspelt { line: 1 }),
    }
}

/// The record whose text the bytes are.
///
/// A record is a line `k42 record VERSION`, a line for each entry, and a line `end COUNT`, each
/// with its line feed. `Misspelt` names the first line that is not such a line or that is missing.
pub fn read(alloc: Global, script: &Script, bytes: &[u8]) -> Result<Record, RecordEnd>
    requires objects { length script.now.objects ≤ OBJECTS }
    requires workers { length script.now.workers ≤ CALLERS }
    requires short { length bytes.now < 2 ^ 31 }
    ensures answer { record_reading.Reads (record_reading.reading script.now bytes.now) result }
    ensures spelled { IfOk result (λ written. HasText script.now written) }
    ensures text { IfOk result (λ written. record_text script.now written ≡ bytes.now) }
    ensures few { IfOk result (λ written. length written.lines < 2 ^ 31) }
    ensures values { IfOk result FitsRecord }

    ensures misspelt { (line : ℕ) → HasDistinctNames script.now →
        result ≡ Err (RecordEnd.Misspelt line) → LeavesRecordsAt script.now bytes.now line }

    // So `Misspelt` comes only where the bytes are the text of no record at all.
    ensures again { (written : Record) → HasDistinctNames script.now →
        HasText script.now written → FitsRecord written →
        record_text script.now written ≡ bytes.now →
        record_reading.reading script.now bytes.now ≡ Ok written }
{
    read_all(alloc, script, bytes)
}
