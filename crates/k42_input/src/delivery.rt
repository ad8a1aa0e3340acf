//! What comes in and what goes out.
ghost use Rattle.std.specs.Prelude.{◌≡◌, ◌≢◌, ◌+◌, ◌-◌, ◌^◌, ◌<◌, ◌≤◌, length, IfOk, OnOk, IsErrOf};
ghost use Rattle.k42_io.specs.Source.{TakesFirst, LosesAtMost};
ghost use Rattle.k42_input.specs.Ends.{Delivers};

use crate::status::Status;
use k42_io::{ReadEnd, Sink, Source, read_all, write_all};
use k42_memory::Memory;
use std::alloc::Global;

/// Why there is nothing to write.
#[derive(Clone, Copy, Debug, PartialEq, Eq)]
pub enum WorkEnd {
    /// A read failed.
    ReadFault,
    /// There was no memory.
    Memory,
}

impl From<ReadEnd> for WorkEnd {
    ghost use Rattle.k42_input.specs.Ends.{end_of};

    ghost from_gives = { λ end gives. gives ≡ end_of end };

    fn from(end: ReadEnd) -> WorkEnd {
        match end {
            ReadEnd::Failed => WorkEnd::ReadFault,
            ReadEnd::Memory => WorkEnd::Memory,
        }
    }
}

impl From<Memory> for WorkEnd {
    ghost use Rattle.std.specs.Prelude.{◌≡◌};
    ghost use Rattle.k42_input.specs.declared.delivery.WorkEnd.TheVariants.{Memory as OutOfMemory};

    ghost from_gives = { λ _ gives. gives ≡ OutOfMemory };

    fn from(_memory: Memory) -> WorkEnd {
        WorkEnd::Memory
    }
}

/// All of the input, or the first `limit + 1` bytes where there are more.
pub fn read_input<S: Source>(
    alloc: Global,
    source: &mut S,
    limit: usize,
) -> Result<Vec<u8>, WorkEnd>
    requires { S.faults source.old < 2 ^ 64 - 1 }
    ensures bytes { IfOk result (λ bytes.
        TakesFirst (limit + 1) (S.left source.old) (S.left source.new) bytes.items) }
    ensures bound { IfOk result (λ bytes. length bytes.items ≤ limit + 1) }
    ensures quiet { OnOk result (S.faults source.new ≡ S.faults source.old) }
    ensures fault { IsErrOf result WorkEnd.ReadFault → S.faults source.old < S.faults source.new }
    ensures memory { IsErrOf result WorkEnd.Memory → S.faults source.new ≡ S.faults source.old }
    ensures within { LosesAtMost (limit + 1) (S.left source.old) (S.left source.new) }
{
    Ok(read_all(alloc, source, limit)?)
}

/// Hands the text to the sink.
pub fn deliver<K: Sink>(sink: &mut K, text: &[u8], status: Status) -> Status
    requires { K.faults sink.old < 2 ^ 64 - 1 }
    ensures delivers { Delivers (K.taken sink.old) (K.taken sink.new)
        (K.faults sink.old) (K.faults sink.new) text.now status result }
    ensures flushed { result ≢ Status.WriteFault → K.flushed sink.new }
{
    match write_all(sink, text) {
        Ok(()) => status,
        Err(_) => Status::WriteFault,
    }
}
