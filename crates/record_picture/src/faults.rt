//! What marks the entry that breaks a rule, and pales those behind it.
ghost use Rattle.std.specs.Prelude.{◌≡◌, ◌≤◌, ◌<◌, ◌++◌, length, OnOk};
ghost use Rattle.record_picture.specs.Faults as drawn;
ghost use Rattle.record_picture.specs.declared.window.TheConstants.{COLUMNS};

use crate::measures::{column_left, height_of, lane_top};
use crate::pieces::{put_fixed, put_numbered};
use crate::verdict::Verdict;
use k42_memory::Memory;
use record_text::RecordLine;

#[tactic(auto, unfolding(crate::specs::Faults::fault_frame))]
fn put_fault_frame(out: &mut Vec<u8>, column: u32, lane: u32) -> Result<(), Memory>
    ensures { OnOk result (out.new.items ≡ out.old.items ++ drawn.fault_frame column lane) }
{
    put_numbered(
        out,
        b"<rect class='x' width='150' height='68' rx='4' x='",
        column_left(column) - 2,
    )?;
    put_numbered(out, b"' y='", lane_top(lane) + 2)?;
    put_fixed(out, b"'/>")
}

#[tactic(auto, unfolding(crate::specs::Faults::veil))]
fn put_veil(out: &mut Vec<u8>, column: u32, columns: u32, lanes: u32) -> Result<(), Memory>
    ensures { OnOk result (out.new.items ≡ out.old.items ++ drawn.veil column columns lanes) }
{
    put_numbered(out, b"<rect class='y' y='28' x='", column_left(column) - 3)?;
    put_numbered(out, b"' width='", 152 * u64::from(columns))?;
    put_numbered(out, b"' height='", height_of(lanes))?;
    put_fixed(out, b"'/>\n")
}

/// Adds what marks the entry of this column as faulty.
#[tactic(auto, unfolding(crate::specs::Faults::fault_at))]
fn put_fault_at(
    out: &mut Vec<u8>,
    lanes: u32,
    columns: u32,
    column: u32,
    line: &RecordLine,
) -> Result<(), Memory>
    requires { column < columns }
    ensures { OnOk result (
        out.new.items ≡ out.old.items ++ drawn.fault_at lanes columns column line.now) }
{
    put_fault_frame(out, column, line.worker)?;
    put_veil(out, column + 1, columns - (column + 1), lanes)
}

/// Adds what marks the line of this number as faulty, where it is that of an entry that is shown.
fn put_fault_on(
    out: &mut Vec<u8>,
    lanes: u32,
    before: u32,
    lines: &[RecordLine],
    number: u32,
) -> Result<(), Memory>
    requires { length lines.now ≤ COLUMNS }
    ensures { OnOk result (
        out.new.items ≡ out.old.items ++ drawn.fault_on lanes before lines.now number) }
{
    if u64::from(number) < u64::from(before) + 2 {
        return Ok(());
    }
    let column = number - 2 - before;
    match lines.get(column as usize) {
        Some(line) => put_fault_at(out, lanes, lines.len() as u32, column, line),
        None => Ok(()),
    }
}

/// Adds what the verdict marks among these entries, which stand behind so many others.
pub fn put_fault(
    out: &mut Vec<u8>,
    lanes: u32,
    before: u32,
    lines: &[RecordLine],
    verdict: Verdict,
) -> Result<(), Memory>
    requires { length lines.now ≤ COLUMNS }
    ensures { OnOk result (
        out.new.items ≡ out.old.items ++ drawn.fault lanes before lines.now verdict) }
{
    match verdict {
        Verdict::Lawful => Ok(()),
        Verdict::Unlawful { line, rule: _ } => put_fault_on(out, lanes, before, lines, line),
    }
}
