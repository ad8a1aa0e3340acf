//! A record as a value: its lines, in the order of the history.
ghost use Rattle.std.specs.Prelude.{◌≡◌, [], ◌∷◌, ◌++◌, OnOk};

use k42_items::Items;
use k42_kinds::{Act, Answer, Op, Reply};
use k42_memory::Memory;

/// What a record of version 2 tells of an entry besides.
#[derive(Clone, Copy, Debug, PartialEq, Eq)]
pub struct Extra {
    /// The worker's processor, from 0.
    pub proc: u32,
    /// The generation of the worker's activity; `None` for swaps.
    pub generation: Option<u32>,
}

/// A line of a record: which line of the script was answered, and how.
#[derive(Clone, Copy, Debug, PartialEq, Eq)]
pub struct RecordLine {
    /// Its place in the order of all lines, from 1.
    pub stamp: u64,
    /// The worker, by its place among the script's workers, from 0.
    pub worker: u32,
    /// The number of the line in the script, from 1.
    pub line: u32,
    /// The object, by its place among the script's objects, from 0.
    pub object: u32,
    pub act: Act<Op>,
    pub answer: Answer<Reply>,
    /// In which implementation of the object it was answered, counted from 0.
    pub incarnation: u32,
    /// `None` in a record of version 1, and `Some` in one of version 2.
    pub extra: Option<Extra>,
}

impl RecordLine {
    /// Puts the line behind the others.
    pub fn push_onto(&self, lines: &mut Vec<RecordLine>) -> Result<(), Memory>
        ensures { OnOk result (lines.new.items ≡ lines.old.items ++ self.now ∷ []) }
    {
        // The kit proves no `push` of a value of this type, but that of a slice.
        lines.extend_from_slice(&[*self])?;
        Ok(())
    }
}

/// The lines of a record in the order of the history, and the version of its text, 1 or 2.
#[derive(Debug, Drop)]
pub struct Record {
    pub lines: Items<RecordLine>,
    pub version: u32,
}
