//! How a program of one's own judges a record; `docs/USING.md` shows it.
ghost use Rattle.std.specs.Prelude.{◌<◌, ◌-◌, ◌^◌, Some};

use k42_io::{Failed, ReadEnd, Source, read_all};
use k42_limits::{INPUT_BYTES, SCRIPT_BYTES};
use record_text::{CheckEnd, RecordEnd, check, read};
use script_text::{ParseEnd, parse};
use std::alloc::Global;
use std::io::Read;
use thiserror::Error;

/// Bytes in memory, as a source that tells what it has left and never fails.
#[derive(Drop)]
struct Bytes<'a> {
    rest: &'a [u8],
}

impl<'a> Source for Bytes<'a> {
    ghost left = { λ bytes. Some bytes.rest.now };

    ghost faults = { λ _. 0 };

    fn read(&mut self, buf: &mut [u8]) -> Result<usize, Failed> {
        match self.rest.read(buf) {
            Ok(count) => Ok(count),
            Err(_) => Err(Failed),
        }
    }
}

/// Why a record is not found lawful.
#[derive(Clone, Copy, Debug, PartialEq, Eq, Error)]
enum Refusal {
    #[error(transparent)]
    Reading(#[from] ReadEnd),
    #[error(transparent)]
    Script(#[from] ParseEnd),
    #[error("the record is too long")]
    TooLong,
    #[error(transparent)]
    Record(#[from] RecordEnd),
    #[error(transparent)]
    Check(#[from] CheckEnd),
}

/// Judges the record that one source gives by the script that another gives.
fn judge<S: Source>(alloc: Global, script: &mut S, written: &mut S) -> Result<(), Refusal>
    // `read_all` asks that one more fault can be counted.
    requires script { S.faults script.old < 2 ^ 64 - 1 }
    requires written { S.faults written.old < 2 ^ 64 - 1 }
{
    let bytes = read_all(alloc, script, SCRIPT_BYTES)?;
    let script = parse(alloc, &bytes)?;
    let bytes = read_all(alloc, written, INPUT_BYTES)?;
    // So there are fewer than 2^31 bytes, as `read` and `check` ask.
    if bytes.len() > INPUT_BYTES {
        return Err(Refusal::TooLong);
    }
    let record = read(alloc, &script, &bytes)?;
    check(alloc, &script, &record)?;
    Ok(())
}

const SCRIPT: &[u8] = b"procs 1\nobject hits counter shared\nworker a 0\nhits add 5\nhits get\n";

const LAWFUL: &[u8] = b"k42 record 1\n1 a 4 hits add 5 = ok @0\n2 a 5 hits get = 5 @0\nend 2\n";

const CHANGED: &[u8] = b"k42 record 1\n1 a 4 hits add 5 = ok @0\n2 a 5 hits get = 6 @0\nend 2\n";

#[test]
fn a_record_is_lawful_and_another_reply_is_not(rt: HostRuntime) {
    let lawful = judge(
        rt.alloc(),
        &mut Bytes { rest: SCRIPT },
        &mut Bytes { rest: LAWFUL },
    );
    assert!(rt; lawful == Ok(()));
    let changed = judge(
        rt.alloc(),
        &mut Bytes { rest: SCRIPT },
        &mut Bytes { rest: CHANGED },
    );
    let broken = CheckEnd::Unlawful { line: 3, rule: 5 };
    assert!(rt; changed == Err(Refusal::Check(broken)));
}
