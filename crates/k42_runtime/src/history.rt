//! What a closed system leaves.
ghost use Rattle.std.specs.Prelude.{◌≡◌, ◌==◌, length, IfOk};

use crate::plan::Plan;
use crate::system::System;
use k42_journal::{Journal, Reader};
use k42_kinds::{Entry, Layout};
use k42_memory::Memory;
use k42_rule::Pass;
use std::alloc::Global;
use std::marker::Model;

/// One legal history of all objects of a system. Only closing a system makes one.
#[derive(Drop)]
pub struct History<L: Layout> {
    pub(crate) journal: Journal<L::Op, L::Reply>,
    pub(crate) plan: Plan<L>,
}

/// There was no memory for the history. The system and its passes are as they were.
#[derive(Drop)]
pub struct Unclosed<L: Layout> {
    pub system: System<L>,
    pub passes: Vec<Pass<L>>,
}

impl<L: Layout> Model for History<L> {
    ghost use Rattle.k42_runtime.specs.Histories.{HistorySeen};

    ghost Value = { HistorySeen L L.Op L.Reply };

    ghost view = { λ h. record { entries = h.journal; plan = h.plan } };
}

impl<L: Layout> History<L> {
    /// How many entries it has.
    pub fn len(&self) -> usize
        ensures { result ≡ length self.now.entries }
    {
        self.journal.len()
    }

    /// Whether it has none.
    pub fn is_empty(&self) -> bool
        ensures { result ≡ (length self.now.entries == 0) }
    {
        self.journal.is_empty()
    }

    /// Its entries, in order, with their places from 1 as stamps, to be read one after the other.
    /// The memory that it asks for goes by the number of passes.
    pub fn read(&self, alloc: Global) -> Result<Reader<'_, L::Op, L::Reply>, Memory>
        ensures { IfOk result (λ reader. reader ≡ self.now.entries) }
    {
        self.journal.read(alloc)
    }

    /// All of them as a list. Want of memory leaves the history, which can be read again.
    pub fn collect(&self, alloc: Global) -> Result<Vec<Entry<L::Op, L::Reply>>, Memory>
        ensures { IfOk result (λ list. list.items ≡ self.now.entries) }
    {
        self.journal.collect(alloc)
    }

    /// The plan with which the system was started.
    pub fn plan(&self) -> &Plan<L>
        ensures { result.now ≡ self.now.plan }
    {
        &self.plan
    }
}
