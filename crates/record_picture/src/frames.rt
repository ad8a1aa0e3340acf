//! The frames that join the calls of one activity.
ghost use Rattle.std.specs.Prelude.{◌≡◌, ◌+◌, ◌<◌, ◌≤◌, List, ◌∷◌, ◌++◌, length, false, slice_index_or, IfOk, OnOk};
ghost use Rattle.k42_limits.specs.declared.TheConstants.{CALLERS};
ghost use Rattle.record_text.specs.Told as told;
ghost use Rattle.record_picture.specs.Frames as drawn;
ghost use Rattle.record_picture.specs.declared.window.TheConstants.{COLUMNS};

use crate::activities::joins_of;
use crate::lists::behind;
use crate::measures::{column_left, lane_top};
use crate::pieces::{put_fixed, put_numbered};
use k42_memory::Memory;
use record_text::{Extra, RecordLine};
use script_text::{Script, WorkerLines};
use std::alloc::Global;

#[tactic(auto, unfolding(crate::specs::Frames::frame))]
fn put_frame(out: &mut Vec<u8>, lane: u32, first: u32, last: u32) -> Result<(), Memory>
    requires { first ≤ last }
    ensures { OnOk result (out.new.items ≡ out.old.items ++ drawn.frame lane first last) }
{
    put_numbered(out, b"<rect class='f' x='", column_left(first))?;
    put_numbered(out, b"' y='", lane_top(lane) + 4)?;
    put_numbered(out, b"' width='", 146 + 152 * u64::from(last - first))?;
    put_fixed(out, b"' height='64' rx='4'/>\n")
}

/// The generation that a line tells.
pub fn generation_of(extra: &Option<Extra>) -> Option<u32>
    ensures { result ≡ told.told_generation extra.now }
{
    match extra {
        Some(extra) => extra.generation,
        None => None,
    }
}

/// Adds the frame of a call of which a generation is told.
fn put_frame_of_call(
    out: &mut Vec<u8>,
    lane: u32,
    joined: bool,
    former: u32,
    column: u32,
    generation: Option<u32>,
) -> Result<(), Memory>
    requires { former ≤ column }
    ensures { OnOk result (out.new.items
        ≡ out.old.items ++ drawn.frame_of_call lane joined former column generation) }
{
    if generation.is_none() {
        Ok(())
    } else if joined {
        put_frame(out, lane, former, column)
    } else {
        put_frame(out, lane, column, column)
    }
}

/// Whether the first of these lines goes on with an activity.
fn is_joined(joined: &[bool]) -> bool
    ensures { result ≡ slice_index_or joined.now 0 false }
{
    joined.first().copied().unwrap_or(false)
}

/// How far the frames in a lane have come.
#[derive(Clone, Copy)]
struct Trail<'a> {
    /// Which of the worker's lines that are not yet answered go on with an activity.
    left: &'a [bool],
    /// The column of the worker's former entry.
    former: u32,
    /// The column of the next entry.
    column: u32,
}

/// Adds the frame of the next entry, where it is one of this lane.
fn put_next_frame<'a>(
    out: &mut Vec<u8>,
    lane: u32,
    trail: Trail<'a>,
    line: &RecordLine,
) -> Result<Trail<'a>, Memory>
    requires order { trail.former ≤ trail.column }
    requires fits { trail.column < COLUMNS }
    ensures told { IfOk result (λ after. (lines : List RecordLine) →
        out.new.items ++ drawn.frames_from lane after.left.now after.former after.column lines
        ≡ out.old.items
        ++ drawn.frames_from lane trail.entry.left.now trail.entry.former trail.entry.column
        (line.now ∷ lines)) }
    ensures order { IfOk result (λ after. after.former ≤ after.column) }
    ensures next { IfOk result (λ after. after.column ≡ trail.entry.column + 1) }
{
    let column = trail.column + 1;
    if line.worker != lane {
        return Ok(Trail { column, ..trail });
    }
    let joined = is_joined(trail.left);
    let generation = generation_of(&line.extra);
    put_frame_of_call(out, lane, joined, trail.former, trail.column, generation)?;
    Ok(Trail {
        left: behind(trail.left, 1),
        former: trail.column,
        column,
    })
}

/// Adds the frames in a lane, where this says which of the worker's lines go on with an activity.
fn put_frames_from(
    out: &mut Vec<u8>,
    lane: u32,
    joined: &[bool],
    lines: &[RecordLine],
) -> Result<(), Memory>
    requires { length lines.now ≤ COLUMNS }
    ensures { OnOk result (
        out.new.items ≡ out.old.items ++ drawn.frames_from lane joined.now 0 0 lines.now) }
{
    let mut trail = Trail {
        left: joined,
        former: 0,
        column: 0,
    };
    for line in lines {
        trail = put_next_frame(out, lane, trail, line)?;
    }
    Ok(())
}

/// How many of these lines are the worker's.
fn count_by(worker: u32, lines: &[RecordLine]) -> usize
    ensures { result ≡ length (told.lines_by worker lines.now) }
{
    lines.iter().filter(|line| line.worker == worker).count()
}

/// Adds the frames in a worker's lane.
fn put_lane_frames(
    alloc: Global,
    out: &mut Vec<u8>,
    before: &[RecordLine],
    lines: &[RecordLine],
    lane: u32,
    worker: &WorkerLines,
) -> Result<(), Memory>
    requires { length lines.now ≤ COLUMNS }
    ensures { OnOk result (out.new.items
        ≡ out.old.items ++ drawn.lane_frames before.now lines.now lane worker.now) }
{
    let joins = joins_of(alloc, worker.items.as_slice())?;
    let left = behind(joins.as_slice(), count_by(lane, before));
    put_frames_from(out, lane, left, lines)
}

/// Adds the frames of all lanes.
pub fn put_frames(
    alloc: Global,
    out: &mut Vec<u8>,
    script: &Script,
    before: &[RecordLine],
    lines: &[RecordLine],
) -> Result<(), Memory>
    requires workers { length script.now.workers ≤ CALLERS }
    requires few { length lines.now ≤ COLUMNS }
    ensures { OnOk result (
        out.new.items ≡ out.old.items ++ drawn.frames script.now before.now lines.now) }
{
    let mut lane = 0;
    for worker in script.workers.as_slice() {
        put_lane_frames(alloc, out, before, lines, lane, worker)?;
        lane += 1;
    }
    Ok(())
}
