//! The lines through all lanes at swaps that were carried out.
ghost use Rattle.std.specs.Prelude.{◌≡◌, ◌≤◌, ◌<◌, ◌++◌, length, All, OnOk};
ghost use Rattle.k42_limits.specs.declared.TheConstants.{CALLERS};
ghost use Rattle.script_text.specs.Acts.{numbered_layout_word};
ghost use Rattle.record_text.specs.Spelling.{HasSpelling};
ghost use Rattle.record_text.specs.Texts as spelling;
ghost use Rattle.record_picture.specs.Swaps as drawn;
ghost use Rattle.record_picture.specs.declared.window.TheConstants.{COLUMNS};

use crate::measures::{column_left, lane_top};
use crate::pieces::{put_fixed, put_numbered, put_worded};
use k42_kinds::{Act, Answer, Op, To};
use k42_memory::Memory;
use record_text::RecordLine;
use script_text::Script;

pub fn object_name(script: &Script, object: u32) -> &[u8]
    requires { object < length script.now.objects }
    ensures { result.now ≡ spelling.object_name script.now object }
{
    script.objects.as_slice()[object as usize].name.bytes()
}

/// The word of the layout of this number.
fn layout_word(number: u8) -> &'static [u8]
    ensures { result.now ≡ numbered_layout_word number }
{
    if number == 0 { b"shared" } else { b"spread" }
}

fn label_of(act: &Act<Op>) -> &'static [u8]
    ensures { result.now ≡ drawn.label_of act.now }
{
    match act {
        Act::Call(_) => b"",
        Act::Swap(To::Layout(number)) => layout_word(*number),
        Act::Swap(To::Dead) => b"dead",
        Act::Swap(To::Watch) => b"watch",
        Act::Swap(To::Unwatch) => b"unwatch",
    }
}

#[tactic(auto, unfolding(crate::specs::Swaps::swap_name))]
fn put_swap_name(out: &mut Vec<u8>, column: u32, object: u32, name: &[u8]) -> Result<(), Memory>
    ensures { OnOk result (
        out.new.items ≡ out.old.items ++ drawn.swap_name column object name.now) }
{
    put_numbered(out, b"<g class='o", u64::from(object))?;
    put_numbered(out, b"'><text x='", column_left(column))?;
    put_worded(out, b"' y='38'>", name)
}

#[tactic(auto, unfolding(crate::specs::Swaps::swap_number))]
fn put_swap_number(out: &mut Vec<u8>, column: u32, number: u32, act: &Act<Op>) -> Result<(), Memory>
    ensures { OnOk result (
        out.new.items ≡ out.old.items ++ drawn.swap_number column number act.now) }
{
    put_numbered(out, b" <tspan x='", column_left(column))?;
    put_numbered(out, b"' y='51'>", u64::from(number))?;
    put_worded(out, b": ", label_of(act))
}

#[tactic(auto, unfolding(crate::specs::Swaps::swap_path))]
fn put_swap_path(out: &mut Vec<u8>, column: u32, lanes: u32) -> Result<(), Memory>
    ensures { OnOk result (out.new.items ≡ out.old.items ++ drawn.swap_path column lanes) }
{
    put_numbered(
        out,
        b"</tspan></text><path class='s' d='M",
        column_left(column) + 73,
    )?;
    put_numbered(out, b" 56V", lane_top(lanes))?;
    put_fixed(out, b"'/></g>\n")
}

/// Adds the line of a swap of this number.
#[tactic(auto, unfolding(crate::specs::Swaps::swap_line))]
fn put_swap_line(
    out: &mut Vec<u8>,
    script: &Script,
    column: u32,
    line: &RecordLine,
    number: u32,
) -> Result<(), Memory>
    requires workers { length script.now.workers ≤ CALLERS }
    requires spelled { HasSpelling script.now line.now }
    ensures { OnOk result (
        out.new.items ≡ out.old.items ++ drawn.swap_line script.now column line.now number) }
{
    put_swap_name(out, column, line.object, object_name(script, line.object))?;
    put_swap_number(out, column, number, &line.act)?;
    put_swap_path(out, column, script.workers.len() as u32)
}

/// Adds the line of an entry, where it is a swap that was carried out.
fn put_swap(
    out: &mut Vec<u8>,
    script: &Script,
    column: u32,
    line: &RecordLine,
) -> Result<(), Memory>
    requires workers { length script.now.workers ≤ CALLERS }
    requires spelled { HasSpelling script.now line.now }
    ensures { OnOk result (
        out.new.items ≡ out.old.items ++ drawn.swap_text script.now column line.now) }
{
    match line.answer {
        Answer::Swapped(number) => put_swap_line(out, script, column, line, number),
        _ => Ok(()),
    }
}

/// Adds a line for each swap among these entries that was carried out.
pub fn put_swaps(out: &mut Vec<u8>, script: &Script, lines: &[RecordLine]) -> Result<(), Memory>
    requires workers { length script.now.workers ≤ CALLERS }
    requires spelled { All (HasSpelling script.now) lines.now }
    requires few { length lines.now ≤ COLUMNS }
    ensures { OnOk result (
        out.new.items ≡ out.old.items ++ drawn.swap_lines script.now lines.now) }
{
    let mut column = 0;
    for line in lines {
        put_swap(out, script, column, line)?;
        column += 1;
    }
    Ok(())
}
