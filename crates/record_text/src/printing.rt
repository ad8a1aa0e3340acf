//! A record or a history is written as text, line by line.
ghost use Rattle.std.specs.Prelude.{◌≡◌, ◌<◌, ◌∷◌, ◌++◌, [], length, All, IfOk, OnOk};
ghost use Rattle.std.specs.List.{flat_map};
ghost use Rattle.record_text.specs.Histories.{HasLine, line_of, record_of, history_text};
ghost use Rattle.record_text.specs.Printer.LineNumbers.{all_line_numbers};
ghost use Rattle.record_text.specs.Tokens.{behind_spaces, line_with};
ghost use Rattle.record_text.specs.Texts as spelling;
ghost use Rattle.record_text.specs.Spelling.{HasSpelling, HasText, version_number};

mod acts;
mod answers;
mod tokens;

use crate::history::{line_at, number_of, numbers_of_all};
pub use crate::printing::acts::put_act;
pub use crate::printing::answers::put_answer;
use crate::printing::tokens::{put_marked, put_number, put_token};
use crate::record::{Extra, Record, RecordLine};
use crate::version::Version;
use k42_entries::Entries;
use k42_items::Items;
use k42_kinds::{Entry, Op, Reply};
use k42_limits::LINE_FEED;
use k42_memory::Memory;
use script_text::{Script, put_digits};
use std::alloc::Global;

/// Adds the generation of a call, or that there is none.
fn put_generation(out: &mut Vec<u8>, generation: Option<u32>) -> Result<(), Memory>
    ensures { OnOk result (out.new.items
        ≡ out.old.items ++ behind_spaces (spelling.generation_token generation ∷ [])) }
{
    match generation {
        Some(generation) => put_marked(out, b'g', generation),
        None => put_token(out, b"g-"),
    }
}

/// Adds what version 2 tells besides, where it is told.
fn put_extra(out: &mut Vec<u8>, extra: &Option<Extra>) -> Result<(), Memory>
    ensures { OnOk result (
        out.new.items ≡ out.old.items ++ behind_spaces (spelling.extra_tokens extra.now)) }
{
    if let Some(extra) = extra {
        put_marked(out, b'p', extra.proc)?;
        put_generation(out, extra.generation)?;
    }
    Ok(())
}

fn worker_name(script: &Script, worker: u32) -> &[u8]
    requires { worker < length script.now.workers }
    ensures { result.now ≡ spelling.worker_name script.now worker }
{
    script.workers.as_slice()[worker as usize].name.bytes()
}

fn object_name(script: &Script, object: u32) -> &[u8]
    requires { object < length script.now.objects }
    ensures { result.now ≡ spelling.object_name script.now object }
{
    script.objects.as_slice()[object as usize].name.bytes()
}

/// Adds the line of an entry.
pub fn put_line(out: &mut Vec<u8>, script: &Script, line: &RecordLine) -> Result<(), Memory>
    requires { HasSpelling script.now line.now }
    ensures { OnOk result (
        out.new.items ≡ out.old.items ++ spelling.line_text script.now line.now) }
{
    put_digits(out, line.stamp)?;
    put_token(out, worker_name(script, line.worker))?;
    put_number(out, u64::from(line.line))?;
    put_act(out, object_name(script, line.object), &line.act)?;
    put_token(out, b"=")?;
    put_answer(out, &line.act, &line.answer)?;
    put_marked(out, b'@', line.incarnation)?;
    put_extra(out, &line.extra)?;
    out.push(LINE_FEED)?;
    Ok(())
}

/// Adds the first line of a record.
fn put_first(out: &mut Vec<u8>, version: u32) -> Result<(), Memory>
    ensures { OnOk result (
        out.new.items ≡ out.old.items ++ line_with (spelling.first_tokens version)) }
{
    out.extend_from_slice(b"k42 record")?;
    put_number(out, u64::from(version))?;
    out.push(LINE_FEED)?;
    Ok(())
}

/// Adds a line for each entry.
fn put_lines(out: &mut Vec<u8>, script: &Script, lines: &[RecordLine]) -> Result<(), Memory>
    requires { All (HasSpelling script.now) lines.now }
    ensures { OnOk result (out.new.items
        ≡ out.old.items ++ flat_map (spelling.line_text script.now) lines.now) }
{
    for line in lines {
        put_line(out, script, line)?;
    }
    Ok(())
}

/// Adds the last line of a record of so many entries.
fn put_last(out: &mut Vec<u8>, count: usize) -> Result<(), Memory>
    ensures { OnOk result (
        out.new.items ≡ out.old.items ++ line_with (spelling.last_tokens count)) }
{
    out.extend_from_slice(b"end")?;
    put_number(out, count as u64)?;
    out.push(LINE_FEED)?;
    Ok(())
}

/// The text of a record.
pub fn print(alloc: Global, script: &Script, lines: &Record) -> Result<Vec<u8>, Memory>
    requires { HasText script.now lines.now }
    ensures { IfOk result (λ text. text.items ≡ spelling.record_text script.now lines.now) }
{
    let mut out = Vec::new(alloc);
    put_first(&mut out, lines.version)?;
    put_lines(&mut out, script, lines.lines.as_slice())?;
    put_last(&mut out, lines.lines.len())?;
    Ok(out)
}

/// Adds the line of an entry. The numbers are those of the script's lines that ask something.
fn put_entry(
    out: &mut Vec<u8>,
    script: &Script,
    numbers: &Items<Items<u32>>,
    entry: &Entry<Op, Reply>,
    version: Version,
) -> Result<(), Memory>
    requires numbers { numbers.now ≡ all_line_numbers script.now }
    requires placed { HasLine script.now entry.now }
    requires spelled { HasSpelling script.now
        (line_of script.now (version_number version) entry.now) }
    ensures { OnOk result (out.new.items ≡ out.old.items
        ++ spelling.line_text script.now (line_of script.now (version_number version) entry.now)) }
{
    let number = number_of(numbers, entry);
    put_line(out, script, &line_at(entry, number, version))
}

/// The text of a history: that of the record that `lines_of` gives. One entry is held at a time.
pub fn print_history<E: Entries<Op, Reply> + Drop>(
    alloc: Global,
    script: &Script,
    mut entries: E,
    version: u32,
) -> Result<Vec<u8>, Memory>
    requires placed { All (HasLine script.now) (E.left entries) }
    requires spelled { HasText script.now (record_of script.now (E.left entries) version) }
    ensures { IfOk result (λ text. text.items ≡ history_text script.now (E.left entries) version) }
{
    let told_version = Version::of(version);
    let numbers = numbers_of_all(alloc, script)?;
    let count = entries.len();
    let mut out = Vec::new(alloc);
    put_first(&mut out, version)?;
    while let Some(entry) = entries.next() {
        put_entry(&mut out, script, &numbers, &entry, told_version)?;
    }
    put_last(&mut out, count)?;
    Ok(out)
}
