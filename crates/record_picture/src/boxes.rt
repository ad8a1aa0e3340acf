//! The boxes of entries, with what was asked and answered in each.
ghost use Rattle.std.specs.Prelude.{◌≡◌, ◌≤◌, ◌++◌, ◌+◌, length, All, IfOk, OnOk};
ghost use Rattle.record_text.specs.Spelling.{Ends, HasSpelling};
ghost use Rattle.record_text.specs.Texts.{line_tokens};
ghost use Rattle.record_text.specs.Tokens.{spaced};
ghost use Rattle.record_picture.specs.Boxes as drawn;
ghost use Rattle.record_picture.specs.Pieces.{cut_to};
ghost use Rattle.record_picture.specs.declared.window.TheConstants.{COLUMNS};

use crate::frames::generation_of;
use crate::measures::{column_left, lane_top};
use crate::pieces::{cut, put_fixed, put_numbered, put_worded};
use crate::swaps::object_name;
use k42_kinds::{Act, Answer, Op, Reply};
use k42_memory::Memory;
use record_text::{RecordLine, put_act, put_answer, put_line};
use script_text::Script;
use std::alloc::Global;

#[tactic(auto, unfolding(crate::specs::Boxes::box_place))]
fn put_place(out: &mut Vec<u8>, object: u32, column: u32, lane: u32) -> Result<(), Memory>
    ensures { OnOk result (out.new.items ≡ out.old.items ++ drawn.box_place object column lane) }
{
    put_numbered(out, b"<g class='o", u64::from(object))?;
    put_numbered(out, b"' transform='translate(", column_left(column))?;
    put_numbered(out, b",", lane_top(lane) + 7)
}

/// The line of an entry, without its line feed.
fn line_of(alloc: Global, script: &Script, line: &RecordLine) -> Result<Vec<u8>, Memory>
    requires { HasSpelling script.now line.now }
    ensures { IfOk result (λ text. text.items ≡ spaced (line_tokens script.now line.now)) }
{
    let mut text = Vec::new(alloc);
    put_line(&mut text, script, line)?;
    let _feed = text.pop();
    Ok(text)
}

#[tactic(auto, unfolding(crate::specs::Boxes::box_tooltip))]
fn put_tooltip(
    alloc: Global,
    out: &mut Vec<u8>,
    script: &Script,
    line: &RecordLine,
) -> Result<(), Memory>
    requires { HasSpelling script.now line.now }
    ensures { OnOk result (
        out.new.items ≡ out.old.items ++ drawn.box_tooltip script.now line.now) }
{
    let text = line_of(alloc, script, line)?;
    put_worded(out, b")'><title>", text.as_slice())?;
    put_fixed(out, b"</title><use href='#box'/>")
}

#[tactic(auto, unfolding(crate::specs::Boxes::box_name))]
fn put_name(out: &mut Vec<u8>, name: &[u8], number: u64) -> Result<(), Memory>
    ensures { OnOk result (out.new.items ≡ out.old.items ++ drawn.box_name name.now number) }
{
    put_worded(out, b"<text class='n' x='4' y='11'>", name)?;
    put_numbered(out, b"</text><text class='k' x='142' y='11'>", number)
}

/// The words of an act, cut to the room in a box.
fn act_words(alloc: Global, act: &Act<Op>) -> Result<Vec<u8>, Memory>
    ensures { IfOk result (λ text. text.items ≡ cut_to 23 (drawn.act_words act.now)) }
{
    let mut words = Vec::new(alloc);
    put_act(&mut words, b"", act)?;
    cut(alloc, words.as_slice(), 23)
}

/// The words of an answer, cut to the room in a box.
fn answer_words(alloc: Global, act: &Act<Op>, answer: &Answer<Reply>) -> Result<Vec<u8>, Memory>
    requires { Ends act.now answer.now }
    ensures { IfOk result (λ text. text.items ≡ cut_to 20 (drawn.answer_words answer.now)) }
{
    let mut words = Vec::new(alloc);
    put_answer(&mut words, act, answer)?;
    cut(alloc, words.as_slice(), 20)
}

#[tactic(auto, unfolding(crate::specs::Boxes::box_words))]
fn put_words(
    alloc: Global,
    out: &mut Vec<u8>,
    act: &Act<Op>,
    answer: &Answer<Reply>,
) -> Result<(), Memory>
    requires { Ends act.now answer.now }
    ensures { OnOk result (
        out.new.items ≡ out.old.items ++ drawn.box_words act.now answer.now) }
{
    let asked = act_words(alloc, act)?;
    let answered = answer_words(alloc, act, answer)?;
    put_worded(out, b"</text><text x='4' y='26'>", asked.as_slice())?;
    put_worded(out, b"</text><text x='4' y='40'>=", answered.as_slice())?;
    put_fixed(out, b"</text>")
}

fn answer_mark(answer: &Answer<Reply>) -> &'static [u8]
    ensures { result.now ≡ drawn.answer_mark answer.now }
{
    match answer {
        Answer::Busy(_) => b"<use href='#busy'/>",
        Answer::Spent => b"<use href='#spent'/>",
        Answer::Gone | Answer::Replied(Reply::Gone) => b"<use href='#gone'/>",
        _ => b"",
    }
}

fn put_generation(out: &mut Vec<u8>, generation: Option<u32>) -> Result<(), Memory>
    ensures { OnOk result (out.new.items ≡ out.old.items ++ drawn.generation_mark generation) }
{
    if let Some(generation) = generation {
        put_numbered(out, b"<text x='4' y='57'>g", u64::from(generation))?;
        put_fixed(out, b"</text>")?;
    }
    Ok(())
}

#[tactic(auto, unfolding(crate::specs::Boxes::box_marks))]
fn put_box_marks(
    out: &mut Vec<u8>,
    answer: &Answer<Reply>,
    generation: Option<u32>,
) -> Result<(), Memory>
    ensures { OnOk result (
        out.new.items ≡ out.old.items ++ drawn.box_marks answer.now generation) }
{
    put_fixed(out, answer_mark(answer))?;
    put_generation(out, generation)?;
    put_fixed(out, b"</g>\n")
}

#[tactic(auto, unfolding(crate::specs::Boxes::box_front))]
fn put_front(
    alloc: Global,
    out: &mut Vec<u8>,
    script: &Script,
    column: u32,
    line: &RecordLine,
) -> Result<(), Memory>
    requires { HasSpelling script.now line.now }
    ensures { OnOk result (
        out.new.items ≡ out.old.items ++ drawn.box_front script.now column line.now) }
{
    put_place(out, line.object, column, line.worker)?;
    put_tooltip(alloc, out, script, line)
}

#[tactic(auto, unfolding(crate::specs::Boxes::box_back))]
fn put_back(
    alloc: Global,
    out: &mut Vec<u8>,
    script: &Script,
    number: u64,
    line: &RecordLine,
) -> Result<(), Memory>
    requires { HasSpelling script.now line.now }
    ensures { OnOk result (
        out.new.items ≡ out.old.items ++ drawn.box_back script.now number line.now) }
{
    put_name(out, object_name(script, line.object), number)?;
    put_words(alloc, out, &line.act, &line.answer)?;
    put_box_marks(out, &line.answer, generation_of(&line.extra))
}

/// Adds the box of an entry in this column, where so many entries stand before the first column.
fn put_box(
    alloc: Global,
    out: &mut Vec<u8>,
    script: &Script,
    before: u32,
    column: u32,
    line: &RecordLine,
) -> Result<(), Memory>
    requires { HasSpelling script.now line.now }
    ensures { OnOk result (
        out.new.items ≡ out.old.items ++ drawn.box_text script.now before column line.now) }
{
    put_front(alloc, out, script, column, line)?;
    let number = u64::from(before) + u64::from(column) + 1;
    put_back(alloc, out, script, number, line)
}

/// Adds a box for each entry.
pub fn put_boxes(
    alloc: Global,
    out: &mut Vec<u8>,
    script: &Script,
    before: u32,
    lines: &[RecordLine],
) -> Result<(), Memory>
    requires spelled { All (HasSpelling script.now) lines.now }
    requires few { length lines.now ≤ COLUMNS }
    ensures { OnOk result (
        out.new.items ≡ out.old.items ++ drawn.boxes script.now before lines.now) }
{
    let mut column = 0;
    for line in lines {
        put_box(alloc, out, script, before, column, line)?;
        column += 1;
    }
    Ok(())
}
