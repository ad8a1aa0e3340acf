//! The lanes, with the name and the processor of each worker.
ghost use Rattle.std.specs.Prelude.{◌≡◌, ◌≤◌, ◌++◌, length, OnOk};
ghost use Rattle.k42_limits.specs.declared.TheConstants.{CALLERS};
ghost use Rattle.record_picture.specs.Lanes as drawn;

use crate::measures::lane_top;
use crate::pieces::{put_fixed, put_numbered, put_worded};
use k42_memory::Memory;
use script_text::{Script, WorkerLines};

#[tactic(auto, unfolding(crate::specs::Lanes::lane_name))]
fn put_lane_name(out: &mut Vec<u8>, lane: u32, name: &[u8]) -> Result<(), Memory>
    ensures { OnOk result (out.new.items ≡ out.old.items ++ drawn.lane_name lane name.now) }
{
    let top = lane_top(lane);
    put_numbered(
        out,
        b"<rect class='l' width='100%' height='68' y='",
        top + 2,
    )?;
    put_numbered(out, b"'/><text x='8' y='", top + 28)?;
    put_worded(out, b"'>", name)
}

#[tactic(auto, unfolding(crate::specs::Lanes::lane_processor))]
fn put_lane_processor(out: &mut Vec<u8>, lane: u32, processor: u32) -> Result<(), Memory>
    ensures { OnOk result (
        out.new.items ≡ out.old.items ++ drawn.lane_processor lane processor) }
{
    put_numbered(out, b"</text><text x='8' y='", lane_top(lane) + 43)?;
    put_numbered(out, b"'>processor ", u64::from(processor))?;
    put_fixed(out, b"</text>\n")
}

/// Adds a worker's lane.
fn put_lane(out: &mut Vec<u8>, lane: u32, worker: &WorkerLines) -> Result<(), Memory>
    ensures { OnOk result (out.new.items ≡ out.old.items ++ drawn.lane_text lane worker.now) }
{
    put_lane_name(out, lane, worker.name.bytes())?;
    put_lane_processor(out, lane, worker.proc)
}

/// Adds a lane for each worker.
pub fn put_lanes(out: &mut Vec<u8>, script: &Script) -> Result<(), Memory>
    requires { length script.now.workers ≤ CALLERS }
    ensures { OnOk result (out.new.items ≡ out.old.items ++ drawn.lanes script.now) }
{
    let mut lane = 0;
    for worker in script.workers.as_slice() {
        put_lane(out, lane, worker)?;
        lane += 1;
    }
    Ok(())
}
