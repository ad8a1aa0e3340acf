//! The history of a generated script is summed up.
ghost use Rattle.std.specs.Prelude.{◌≡◌, ◌<◌, ◌≤◌, ◌+◌, ◌-◌, ◌^◌, ℕ, length, IfOk, OnOk};
ghost use Rattle.k42_kinds.specs.Operations.{kind_of_op};
ghost use Rattle.script_text.specs.Generated.{generated};
ghost use Rattle.script_text.specs.Lawful.{IsLawful};
ghost use Rattle.load_totals.specs.Loads as loads;

use crate::totals::Summary;
use k42_entries::Entries;
use k42_kinds::{
    Act, Answer, DirectoryState, Entry, KindName, Op, PagesState, Reply, kind_of, step_counter,
    step_directory, step_pages,
};
use k42_memory::Memory;
use script_text::Script;
use std::alloc::Global;

/// What the entries so far come to: counts, and the three objects.
#[derive(Drop)]
pub struct Tally {
    pub calls: u32,
    pub swaps: u32,
    pub hits: u64,
    pub names: DirectoryState,
    pub cache: PagesState,
}

impl Tally {
    fn new(alloc: Global) -> Tally
        ensures { result ≡ loads.no_tally }
    {
        Tally {
            calls: 0,
            swaps: 0,
            hits: 0,
            names: DirectoryState::new(alloc),
            cache: PagesState::new(alloc),
        }
    }

    /// An operation of the one object of its kind.
    fn call(&mut self, op: &Op) -> Result<(), Memory>
        requires { self.old.calls < 2 ^ 32 - 1 }
        ensures { OnOk result (self.new ≡ loads.called_by (kind_of_op op.now) self.old op.now) }
    {
        match kind_of(op) {
            Some(KindName::Counter) => {
                let _ = step_counter(&mut self.hits, op);
            }
            Some(KindName::Directory) => {
                let _ = step_directory(&mut self.names, op)?;
            }
            Some(KindName::Pages) => {
                let _ = step_pages(&mut self.cache, op)?;
            }
            None => {}
        }
        self.calls += 1;
        Ok(())
    }

    fn add(&mut self, entry: &Entry<Op, Reply>) -> Result<(), Memory>
        requires { self.old.calls + self.old.swaps < 2 ^ 32 - 1 }
        ensures tally { OnOk result (self.new ≡ loads.tally_with self.old entry.now) }
        ensures few { OnOk result (self.new.calls + self.new.swaps ≤ self.old.calls + self.old.swaps + 1) }
    {
        match &entry.act {
            Act::Call(op) => self.call(op),
            Act::Swap(_) => {
                if matches!(entry.answer, Answer::Swapped(_)) {
                    self.swaps += 1;
                }
                Ok(())
            }
        }
    }

    fn sums(&self) -> Summary
        ensures { result ≡ loads.summary_of self.now }
    {
        Summary {
            calls: self.calls,
            total: self.hits,
            names: self.names.size() as u64,
            dirty: self.cache.dirty() as u64,
            swaps: self.swaps,
        }
    }
}

fn tallied<E: Entries<Op, Reply> + Drop>(alloc: Global, mut entries: E) -> Result<Tally, Memory>
    requires { length (E.left entries) < 2 ^ 32 }
    ensures { IfOk result (λ tally. tally ≡ loads.tallied (E.left entries)) }
{
    let mut tally = Tally::new(alloc);
    while let Some(entry) = &entries.next() {
        tally.add(entry)?;
    }
    Ok(tally)
}

/// What the entries of the lawful history of a generated script come to. One is held at a time.
pub fn sum_up<E: Entries<Op, Reply> + Drop>(
    alloc: Global,
    script: &Script,
    entries: E,
) -> Result<Summary, Memory>
    requires generated { (n : ℕ) × (n ≤ 10000) × (script.now ≡ generated n) }
    requires lawful { IsLawful script.now (E.left entries) }
    ensures exact { IfOk result (λ summary.
        summary ≡ loads.summary_of (loads.tallied (E.left entries))) }
    ensures due { (n : ℕ) → n ≤ 10000 → script.now ≡ generated n →
        IfOk result (λ summary. summary ≡ loads.summary_due n) }
{
    let tally = tallied(alloc, entries)?;
    Ok(tally.sums())
}

/// What the lawful history of a generated script comes to.
pub fn summary(
    alloc: Global,
    script: &Script,
    entries: &Vec<Entry<Op, Reply>>,
) -> Result<Summary, Memory>
    requires generated { (n : ℕ) × (n ≤ 10000) × (script.now ≡ generated n) }
    requires lawful { IsLawful script.now entries.now.items }
    ensures exact { IfOk result (λ summary. summary ≡ loads.summary_of (loads.tallied entries.now.items)) }
    ensures due { (n : ℕ) → n ≤ 10000 → script.now ≡ generated n →
        IfOk result (λ summary. summary ≡ loads.summary_due n) }
{
    sum_up(alloc, script, entries.as_slice())
}
