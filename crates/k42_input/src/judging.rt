//! The record behind a script is read and judged, for every program that has one.
ghost use Rattle.std.specs.Prelude.{◌≡◌, ◌<◌, ◌≤◌, ◌^◌, length, IfOk};
ghost use Rattle.record_text.specs.Reading.{reading};
ghost use Rattle.record_text.specs.Spelling.{HasText};
ghost use Rattle.script_text.specs.Lines.{lines_of};
ghost use Rattle.script_text.specs.Sound.{IsSound};
ghost use Rattle.k42_input.specs.Separation.{record_part};
ghost use Rattle.k42_input.specs.Verdicts as verdicts;

use crate::separation::line_count;
use crate::verdict::{SPELLING_RULE, Verdict};
use k42_limits::INPUT_BYTES;
use k42_memory::Memory;
use record_text::{CheckEnd, Record, RecordEnd, check, read};
use script_text::Script;
use std::alloc::Global;

/// What stands in the place of a record.
#[derive(Debug, Drop)]
pub enum RecordFound {
    /// A record.
    Spelled(Record),
    /// None: from this line on, from 1, it is that of no record, or holds a byte too many.
    Misspelt(u32),
}

/// The line at which a text is refused that holds the byte that is one too many, as its last.
fn line_refused(alloc: Global, script: &Script, text: &[u8]) -> Result<u32, Memory>
    requires sound { IsSound script.now }
    requires short { length text.now < 2 ^ 31 }
    ensures { IfOk result (λ line. line ≡ verdicts.line_refused (reading script.now text.now)
        (length (lines_of text.now))) }
{
    let holding = line_count(text) as u32;
    match read(alloc, script, text) {
        Ok(_) => Ok(holding),
        Err(RecordEnd::Misspelt { line }) => Ok(holding.min(line)),
        Err(RecordEnd::Memory) => Err(Memory),
    }
}

/// The record that stands in the input, where this text stands in its place.
pub fn record_in(
    alloc: Global,
    script: &Script,
    input: &[u8],
    text: &[u8],
) -> Result<RecordFound, Memory>
    requires sound { IsSound script.now }
    requires part { text.now ≡ record_part input.now }
    requires within { length text.now ≤ length input.now }
    requires read { length input.now ≤ verdicts.input_limit }
    ensures { IfOk result (λ found. verdicts.IsRecordIn script.now input.now found) }
{
    if input.len() > INPUT_BYTES {
        let line = line_refused(alloc, script, text)?;
        return Ok(RecordFound::Misspelt(line));
    }
    match read(alloc, script, text) {
        Ok(written) => Ok(RecordFound::Spelled(written)),
        Err(RecordEnd::Misspelt { line }) => Ok(RecordFound::Misspelt(line)),
        Err(RecordEnd::Memory) => Err(Memory),
    }
}

/// What is found of a record.
pub fn verdict_on(alloc: Global, script: &Script, written: &Record) -> Result<Verdict, Memory>
    requires sound { IsSound script.now }
    requires spelled { HasText script.now written.now }
    requires few { length written.now.lines < 2 ^ 31 }
    ensures { IfOk result (λ verdict. verdicts.IsFoundOf script.now written.now verdict) }
{
    match check(alloc, script, written) {
        Ok(()) => Ok(Verdict::Lawful(written.lines.len())),
        Err(CheckEnd::Unlawful { line, rule }) => Ok(Verdict::Unlawful(line, rule)),
        Err(CheckEnd::Memory) => Err(Memory),
    }
}

/// What is found of the record that stands in the input, where this text stands in its place.
pub fn verdict_in(
    alloc: Global,
    script: &Script,
    input: &[u8],
    text: &[u8],
) -> Result<Verdict, Memory>
    requires sound { IsSound script.now }
    requires part { text.now ≡ record_part input.now }
    requires within { length text.now ≤ length input.now }
    requires read { length input.now ≤ verdicts.input_limit }
    ensures { IfOk result (λ verdict. verdicts.IsVerdict script.now input.now verdict) }
{
    match record_in(alloc, script, input, text)? {
        RecordFound::Spelled(written) => verdict_on(alloc, script, &written),
        RecordFound::Misspelt(line) => Ok(Verdict::Unlawful(line, SPELLING_RULE)),
    }
}
