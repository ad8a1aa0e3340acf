//! How reading and checking a record can fail.
use k42_memory::Memory;
use std::alloc::{AllocError, AllocFailed};

/// Why there is no record.
#[derive(Clone, Copy, Debug, PartialEq, Eq, thiserror::Error)]
pub enum RecordEnd {
    /// The first line, from 1, at which the text is that of no record.
    #[error("line {line} is that of no record")]
    Misspelt { line: u32 },
    #[error("out of memory")]
    Memory,
}

impl From<Memory> for RecordEnd {
    ghost use Rattle.std.specs.Prelude.{◌≡◌};
    ghost use Rattle.record_text.specs.declared.ending.RecordEnd.TheVariants.{Memory as OutOfMemory};

    ghost from_gives = { λ _ end. end ≡ OutOfMemory };

    fn from(_memory: Memory) -> RecordEnd {
        RecordEnd::Memory
    }
}

/// Why a record is not found lawful.
#[derive(Clone, Copy, Debug, PartialEq, Eq, thiserror::Error)]
pub enum CheckEnd {
    /// The first line of the record, from 1, that breaks a rule, and the rule.
    #[error("line {line} breaks rule {rule}")]
    Unlawful { line: u32, rule: u32 },
    #[error("out of memory")]
    Memory,
}

impl From<Memory> for CheckEnd {
    ghost use Rattle.std.specs.Prelude.{◌≡◌};
    ghost use Rattle.record_text.specs.declared.ending.CheckEnd.TheVariants.{Memory as OutOfMemory};

    ghost from_gives = { λ _ end. end ≡ OutOfMemory };

    fn from(_memory: Memory) -> CheckEnd {
        CheckEnd::Memory
    }
}
