//! A whole script is read, line by line, up to the first that offends.
ghost use Rattle.std.specs.Prelude.{◌≡◌, ◌<◌, ℕ, List, IfOk, OnOk, length, take, max};
ghost use Rattle.script_text.specs.Language.{parsed, byte_limit, fault_at, script_at_end};
ghost use Rattle.script_text.specs.Reading.{IsKept, script_so_far};
ghost use Rattle.script_text.specs.Outcome.{Answers};
ghost use Rattle.script_text.specs.Sound.{IsSound};

use crate::fault::{ParseEnd, ScriptCause, ScriptFault};
use crate::lines::next_line;
use crate::reading::Reading;
use crate::script::Script;
use k42_limits::SCRIPT_BYTES;
use std::alloc::Global;

/// The script that the bytes spell, or the first line that offends.
///
/// The first line that is not skipped is `procs N`. After it stand lines `object NAME KIND LAYOUT`,
/// `worker NAME PROC`, and the lines of the worker before them: `begin`, `end`,
/// `swap OBJECT LAYOUT`, `destroy OBJECT`, and calls. Lines without a token, and lines whose first
/// token begins with `#`, are skipped where their bytes may stand there.
pub fn parse(alloc: Global, bytes: &[u8]) -> Result<Script, ParseEnd>
    ensures answer { Answers (parsed bytes.now) result }
    ensures sound { IfOk result IsSound }
    ensures short { OnOk result (length bytes.now < byte_limit) }

    // What stands past the byte that is one too many makes no difference.
    ensures enough { parsed (take byte_limit bytes.now) ≡ parsed bytes.now }
{
    read_lines(alloc, bytes)
}

/// Reads one line after the other.
fn read_lines(alloc: Global, bytes: &[u8]) -> Result<Script, ParseEnd>
    ensures answer { Answers (parsed bytes.now) result }
    ensures short { OnOk result (length bytes.now < byte_limit) }
{
    let mut reading = Reading::new(alloc);
    let mut rest = bytes;
    let mut line = 0;
    while !rest.is_empty() {
        let cut = next_line(rest);
        rest = cut.rest;
        line += 1;
        if bytes.len() - rest.len() > SCRIPT_BYTES {
            return Err(refused(line, ScriptCause::TooLong));
        }
        if let Some(cause) = reading.take(alloc, line, cut.text, cut.is_printable)? {
            return Err(refused(line, cause));
        }
    }
    finish(reading, line.max(1))
}

fn refused(line: u32, cause: ScriptCause) -> ParseEnd
    ensures { result ≡ ParseEnd.Fault (fault_at line cause) }
{
    ParseEnd::Fault(ScriptFault { line, cause })
}

/// The script of all lines that were read, of which the last has this number.
fn finish(reading: Reading, last: u32) -> Result<Script, ParseEnd>
    requires { IsKept reading }
    ensures { Answers (script_at_end last (script_so_far reading)) result }
{
    if reading.procs == 0 {
        return Err(refused(last, ScriptCause::ProcsExpected));
    }
    if reading.in_block {
        return Err(refused(last, ScriptCause::BlockFault));
    }
    Ok(reading.into_script()?)
}
