//! Which worker carried out which swap, over the whole record.
ghost use Rattle.std.specs.Prelude.{◌≡◌, List, [], ◌∷◌, ◌++◌, IfOk, OnOk};
ghost use Rattle.std.specs.Bool.{Decides};
ghost use Rattle.record_text.specs.declared.record.RecordLine.{RecordLine as Line};
ghost use Rattle.record_text.specs.Referee.Doers as doers;
ghost use Rattle.record_text.specs.Referee.Doers.{Knows, has_rival};

use crate::record::RecordLine;
use k42_kinds::Answer;
use k42_memory::Memory;
use std::alloc::Global;
use std::collections::BTreeMap;

/// Whose swaps of one object had one number.
#[derive(Clone, Copy)]
pub struct Doer {
    /// The worker of the first of them.
    pub first: u32,
    /// Whether another worker had one too.
    pub several: bool,
}

/// Who carried out which swap, of all lines of a record.
#[derive(Drop)]
pub struct Doers {
    pub known: BTreeMap<u64, Doer>,
}

fn key_of(object: u32, number: u32) -> u64
    ensures { result ≡ doers.key_of object number }
{
    ((object as u64) << 32) + number as u64
}

fn joined(known: Option<Doer>, worker: u32) -> Doer
    ensures { result ≡ doers.joined known worker }
{
    match known {
        Some(doer) => Doer {
            first: doer.first,
            several: doer.several || doer.first != worker,
        },
        None => Doer {
            first: worker,
            several: false,
        },
    }
}

impl Doers {
    /// The doers of all lines.
    pub fn of(alloc: Global, lines: &[RecordLine]) -> Result<Doers, Memory>
        ensures { IfOk result (λ known. Knows lines.now known) }
    {
        let mut known = Doers {
            known: BTreeMap::new(alloc),
        };
        for line in lines {
            known.note(line)?;
        }
        Ok(known)
    }

    /// One more line.
    fn note(&mut self, line: &RecordLine) -> Result<(), Memory>
        ensures { OnOk result ((lines : List Line) → Knows lines self.old →
            Knows (lines ++ line.now ∷ []) self.new) }
    {
        if let Answer::Swapped(number) = line.answer {
            let key = key_of(line.object, number);
            let doer = joined(self.known.get(&key).copied(), line.worker);
            self.known.insert(key, doer)?;
        }
        Ok(())
    }

    /// Whether another worker carried out the swap of this number.
    pub fn has_rival(&self, worker: u32, object: u32, number: u32) -> bool
        ensures { (lines : List Line) → Knows lines self.now →
            result ≡ has_rival lines worker object number }
    {
        match self.known.get(&key_of(object, number)) {
            Some(doer) => doer.several || doer.first != worker,
            None => false,
        }
    }
}
