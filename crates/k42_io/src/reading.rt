//! A source is read to its end, in pieces, up to a limit.
ghost use Rattle.std.specs.Prelude.{◌≡◌, ◌+◌, ◌-◌, ◌^◌, ◌<◌, ◌≤◌, ◌↔◌, IfOk, OnOk, OnErr, IsErrOf, vec_len};
ghost use Rattle.std.specs.Io.KnownBytes.{IsAtEnd};
ghost use Rattle.k42_io.specs.Source.{TakesFirst, LosesAtMost};
ghost use Rattle.k42_io.specs.declared.reading.ReadEnd.TheVariants.{Memory as OutOfMemory};

use crate::source::{Failed, Source};
use k42_memory::Memory;
use std::alloc::{AllocError, Global};
use thiserror::Error;

/// How many bytes one read asks for at most.
const CHUNK: usize = 16384;

/// Why reading ended before its result was whole.
#[derive(Clone, Copy, Debug, PartialEq, Eq, Error)]
pub enum ReadEnd {
    #[error("a read failed")]
    Failed,
    #[error("out of memory")]
    Memory,
}

impl From<Failed> for ReadEnd {
    ghost use Rattle.std.specs.Prelude.{◌≡◌};
    ghost use Rattle.k42_io.specs.declared.reading.ReadEnd.TheVariants.{Failed as FailedEnd};

    ghost from_gives = { λ _ e. e ≡ FailedEnd };

    fn from(_e: Failed) -> ReadEnd {
        ReadEnd::Failed
    }
}

impl From<Memory> for ReadEnd {
    ghost from_gives = { λ _ e. e ≡ OutOfMemory };

    fn from(_e: Memory) -> ReadEnd {
        ReadEnd::Memory
    }
}

impl From<AllocError> for ReadEnd {
    ghost from_gives = { λ _ e. e ≡ OutOfMemory };

    fn from(_e: AllocError) -> ReadEnd {
        ReadEnd::Memory
    }
}

/// All bytes up to the end of input, or the first `limit + 1` where there are more.
pub fn read_all<S: Source>(alloc: Global, source: &mut S, limit: usize) -> Result<Vec<u8>, ReadEnd>
    requires { S.faults source.old < 2 ^ 64 - 1 }
    ensures bytes { IfOk result (λ all.
        TakesFirst (limit + 1) (S.left source.old) (S.left source.new) all.items) }
    ensures bound { IfOk result (λ all. vec_len all ≤ limit + 1) }
    ensures end { IfOk result (λ all. vec_len all ≤ limit → IsAtEnd (S.left source.new)) }
    ensures err { OnErr result (LosesAtMost (limit + 1) (S.left source.old) (S.left source.new)) }

    ensures failed { IsErrOf result ReadEnd.Failed ↔ (S.faults source.old < S.faults source.new) }
    ensures quiet { OnOk result (S.faults source.new ≡ S.faults source.old) }
    ensures memory { IsErrOf result ReadEnd.Memory → S.faults source.new ≡ S.faults source.old }
{
    let mut all = Vec::new(alloc);
    let mut chunk = [0u8; CHUNK];
    while all.len() <= limit {
        let want = (limit - all.len()).min(CHUNK - 1) + 1;
        let count = source.read(&mut chunk[..want])?;
        if count == 0 {
            break;
        }
        all.extend_from_slice(&chunk[..count])?;
    }
    Ok(all)
}
