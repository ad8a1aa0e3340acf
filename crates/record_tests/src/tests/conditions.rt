//! What `lines_of` and `print` require, tested.
ghost use Rattle.std.specs.Prelude.{◌≡◌, All, IsTrue};
ghost use Rattle.record_text.specs.Spelling.{Ends, HasSpelling, HasGeneration, IsOfVersion, IsVersion, HasText};
ghost use Rattle.script_text.specs.Acts.{HasWord};
ghost use Rattle.script_text.specs.Sound.{NamesPage, IsActOn};
ghost use Rattle.record_text.specs.Histories.{HasLine};
ghost use Rattle.record_text.specs.Printer.LineNumbers.{HasNumber};

use k42_items::Items;
use k42_kinds::{Act, Answer, Entry, KindName, Op, Reply, To, is_seen, kind_of};
use k42_limits::PAGES;
use record_text::{Record, RecordLine, numbers_of_all};
use script_text::Script;
use std::alloc::Global;
use std::process::Abort;

fn names_page(op: &Op) -> bool
    ensures { IsTrue result → NamesPage op.now }
{
    match op {
        Op::Write(page, _) | Op::Read(page) => u32::from(*page) < PAGES,
        _ => true,
    }
}

fn has_word(to: &To) -> bool
    ensures { IsTrue result → HasWord to.now }
{
    match to {
        To::Layout(number) => *number < 2,
        To::Dead | To::Watch | To::Unwatch => true,
    }
}

fn is_act_on(kind: KindName, act: &Act<Op>) -> bool
    ensures { IsTrue result → IsActOn kind act.now }
{
    match act {
        Act::Call(op) => (is_seen(op) || kind_of(op) == Some(kind)) && names_page(op),
        Act::Swap(to) => has_word(to),
    }
}

fn ends(act: &Act<Op>, answer: &Answer<Reply>) -> bool
    ensures { IsTrue result → Ends act.now answer.now }
{
    match act {
        Act::Call(_) => matches!(answer, Answer::Replied(_)),
        Act::Swap(_) => match answer {
            Answer::Busy(number) => *number >= 1,
            Answer::Swapped(_) | Answer::Spent | Answer::Gone => true,
            Answer::Replied(_) | Answer::Abandoned(_) => false,
        },
    }
}

fn has_spelling(script: &Script, line: &RecordLine) -> bool
    ensures { IsTrue result → HasSpelling script.now line.now }
{
    if line.worker as usize >= script.workers.len() {
        return false;
    }
    match script.objects.as_slice().get(line.object as usize) {
        Some(object) => is_act_on(object.kind, &line.act) && ends(&line.act, &line.answer),
        None => false,
    }
}

fn has_generation(act: &Act<Op>, generation: Option<u32>) -> bool
    ensures { IsTrue result → HasGeneration act.now generation }
{
    match act {
        Act::Call(_) => generation.is_some(),
        Act::Swap(_) => generation.is_none(),
    }
}

fn is_of_version(version: u32, line: &RecordLine) -> bool
    ensures { IsTrue result → IsOfVersion version line.now }
{
    match line.extra {
        Some(extra) => version == 2 && has_generation(&line.act, extra.generation),
        None => version == 1,
    }
}

fn all_spelled(script: &Script, lines: &[RecordLine]) -> bool
    ensures { IsTrue result → All (HasSpelling script.now) lines.now }
{
    for line in lines {
        if !has_spelling(script, line) {
            return false;
        }
    }
    true
}

fn all_of_version(version: u32, lines: &[RecordLine]) -> bool
    ensures { IsTrue result → All (IsOfVersion version) lines.now }
{
    for line in lines {
        if !is_of_version(version, line) {
            return false;
        }
    }
    true
}

pub fn is_version(version: u32) -> bool
    ensures { IsTrue result → IsVersion version }
{
    version == 1 || version == 2
}

/// Whether the record has a text.
pub fn has_text(script: &Script, written: &Record) -> bool
    ensures { IsTrue result → HasText script.now written.now }
{
    let lines = written.lines.as_slice();
    is_version(written.version)
        && all_spelled(script, lines)
        && all_of_version(written.version, lines)
}

fn has_number(numbers: &Items<Items<u32>>, entry: &Entry<Op, Reply>) -> bool
    ensures { IsTrue result → HasNumber numbers.now entry.now.caller entry.now.index }
{
    match numbers.as_slice().get(entry.caller as usize) {
        Some(own) => (entry.index as usize) < own.len(),
        None => false,
    }
}

/// Whether each entry answers a line of the script.
pub fn has_lines(
    rt: &impl Abort,
    alloc: Global,
    script: &Script,
    entries: &[Entry<Op, Reply>],
) -> bool
    ensures { IsTrue result → All (HasLine script.now) entries.now }
{
    let Ok(numbers) = numbers_of_all(alloc, script) else {
        panic!(rt; "memory")
    };
    for entry in entries {
        if !has_number(&numbers, entry) {
            return false;
        }
    }
    true
}
