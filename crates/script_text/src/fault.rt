//! Why a script is refused, and at which line.
ghost use Rattle.std.specs.Prelude.{◌≡◌};
ghost use Rattle.script_text.specs.declared.fault.ParseEnd.TheVariants.{Memory as OutOfMemory};
ghost use Rattle.script_text.specs.Causes.{cause_word};

use k42_memory::Memory;
use std::alloc::{AllocError, AllocFailed};

/// Why a line of a script is refused. Of several causes the first is told, where `TooLong` and
/// `BadByte` come before the others, which stand here in the order in which they are tested.
#[derive(Clone, Copy, Debug, PartialEq, Eq)]
pub enum ScriptCause {
    /// No line of processors stands before it, and it does not begin as one.
    ProcsExpected,
    /// It is a second line of processors, its form does not have so many tokens, or its kind,
    /// layout or operation word is unknown.
    UnknownWord,
    /// A number is not decimal, or not in its range.
    BadNumber,
    /// A declared name is not of the form or reserved, a key is no name, or a text is too long.
    BadName,
    /// The declared name is declared already.
    NameTwice,
    /// The object is not declared on an earlier line.
    UnknownObject,
    /// The operation belongs to another kind of object.
    WrongKind,
    /// No worker line stands before it.
    WorkerExpected,
    /// It is the 17th object, the 17th worker, or the 65,537th line that asks something.
    TooMany,
    /// It may not stand in an activity, or it ends one that has not begun.
    BlockFault,
    /// It holds the byte after the last that a script may have.
    TooLong,
    /// It has a byte outside 32 to 126, beside its line feed.
    BadByte,
}

impl ScriptCause {
    /// The name of the cause, as the program prints it.
    pub fn word(&self) -> &str
        ensures { result.now ≡ cause_word self.now }
    {
        match self {
            ScriptCause::ProcsExpected => "ProcsExpected",
            ScriptCause::UnknownWord => "UnknownWord",
            ScriptCause::BadNumber => "BadNumber",
            ScriptCause::BadName => "BadName",
            ScriptCause::NameTwice => "NameTwice",
            ScriptCause::UnknownObject => "UnknownObject",
            ScriptCause::WrongKind => "WrongKind",
            ScriptCause::WorkerExpected => "WorkerExpected",
            ScriptCause::TooMany => "TooMany",
            ScriptCause::BlockFault => "BlockFault",
            ScriptCause::TooLong => "TooLong",
            ScriptCause::BadByte => "BadByte",
        }
    }
}

/// The first line that offends, from 1, and why.
#[derive(Clone, Copy, Debug, PartialEq, Eq)]
pub struct ScriptFault {
    pub line: u32,
    pub cause: ScriptCause,
}

/// Why there is no script.
#[derive(Clone, Copy, Debug, PartialEq, Eq, thiserror::Error)]
pub enum ParseEnd {
    #[error("a line of the script is refused")]
    Fault(ScriptFault),
    #[error("out of memory")]
    Memory,
}

impl From<Memory> for ParseEnd {
    ghost from_gives = { λ _ end. end ≡ OutOfMemory };

    fn from(_memory: Memory) -> ParseEnd {
        ParseEnd::Memory
    }
}
