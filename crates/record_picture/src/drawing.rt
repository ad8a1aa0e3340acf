//! The whole picture, part after part.
ghost use Rattle.std.specs.Prelude.{◌≡◌, ◌≤◌, ◌++◌, length, All, IfOk, OnOk};
ghost use Rattle.k42_limits.specs.declared.TheConstants.{CALLERS};
ghost use Rattle.record_text.specs.Spelling.{HasSpelling};
ghost use Rattle.record_picture.specs.Picture as drawn;
ghost use Rattle.record_picture.specs.declared.window.TheConstants.{COLUMNS};

use crate::boxes::put_boxes;
use crate::faults::put_fault;
use crate::frames::put_frames;
use crate::head::put_head;
use crate::lanes::put_lanes;
use crate::lists::front;
use crate::pieces::put_fixed;
use crate::swaps::put_swaps;
use crate::verdict::Verdict;
use crate::window::{Window, shown_of};
use k42_memory::Memory;
use record_text::{Record, RecordLine};
use script_text::Script;
use std::alloc::Global;

/// Adds what lies below the boxes.
#[tactic(auto, unfolding(crate::specs::Picture::ground))]
fn put_ground(
    alloc: Global,
    out: &mut Vec<u8>,
    script: &Script,
    before: &[RecordLine],
    lines: &[RecordLine],
) -> Result<(), Memory>
    requires workers { length script.now.workers ≤ CALLERS }
    requires spelled { All (HasSpelling script.now) lines.now }
    requires few { length lines.now ≤ COLUMNS }
    ensures { OnOk result (
        out.new.items ≡ out.old.items ++ drawn.ground script.now before.now lines.now) }
{
    put_lanes(out, script)?;
    put_frames(alloc, out, script, before, lines)?;
    put_swaps(out, script, lines)
}

/// Adds the boxes, and what the verdict marks among them.
#[tactic(auto, unfolding(crate::specs::Picture::entries))]
fn put_entries(
    alloc: Global,
    out: &mut Vec<u8>,
    script: &Script,
    before: u32,
    lines: &[RecordLine],
    verdict: Verdict,
) -> Result<(), Memory>
    requires workers { length script.now.workers ≤ CALLERS }
    requires spelled { All (HasSpelling script.now) lines.now }
    requires few { length lines.now ≤ COLUMNS }
    ensures { OnOk result (
        out.new.items ≡ out.old.items ++ drawn.entries script.now before lines.now verdict) }
{
    put_boxes(alloc, out, script, before, lines)?;
    let lanes = script.workers.len() as u32;
    put_fault(out, lanes, before, lines, verdict)?;
    put_fixed(out, b"</svg>\n")
}

/// The picture of the entries in a window of a record, under the verdict on the whole record.
pub fn draw(
    alloc: Global,
    script: &Script,
    written: &Record,
    verdict: Verdict,
    window: Window,
) -> Result<Vec<u8>, Memory>
    requires workers { length script.now.workers ≤ CALLERS }
    requires spelled { All (HasSpelling script.now) written.now.lines }
    requires few { window.count ≤ COLUMNS }
    ensures { IfOk result (λ bytes.
        bytes.items ≡ drawn.picture script.now written.now verdict window) }
{
    let all = written.lines.as_slice();
    let before = front(all, window.before as usize);
    let lines = shown_of(window, all);
    let mut out = Vec::new(alloc);
    let lanes = script.workers.len() as u32;
    put_head(
        &mut out,
        verdict,
        all.len() as u64,
        lines.len() as u32,
        lanes,
    )?;
    put_ground(alloc, &mut out, script, before, lines)?;
    put_entries(alloc, &mut out, script, window.before, lines, verdict)?;
    Ok(out)
}
