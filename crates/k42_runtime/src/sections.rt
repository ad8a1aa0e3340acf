//! A running system gives its history in sections.
ghost use Rattle.std.specs.Prelude.{◌≡◌, ◌≤◌, ◌*◌, length, IfOk, OnErr};
ghost use Rattle.k42_limits.specs.declared.TheConstants.{CALLERS, PASS_ENTRIES};
ghost use Rattle.k42_rule.specs.Sections.{fronts_in};
ghost use Rattle.k42_stamp.specs.Merging.{entries_in};
ghost use Rattle.k42_runtime.specs.Sections.{IsSection, MaySection};

use crate::system::System;
use k42_clustered::Clustered;
use k42_journal::Journal;
use k42_kinds::Layout;
use k42_memory::Memory;
use k42_rule::{Pass, give_section};
use k42_stamp::{lists_have_a_merge, sections_merge_to_the_whole};
use std::alloc::Global;

/// How many entries the passes have given to sections.
fn given_of<L: Layout>(passes: &[Pass<L>]) -> u64
    requires callers { length passes.now ≤ CALLERS }
    ensures is { result ≡ entries_in (fronts_in passes.now) }
    ensures few { result ≤ length passes.now * PASS_ENTRIES }
{
    let Some((pass, others)) = passes.split_first() else {
        return 0;
    };
    given_of::<L>(others) + pass.given()
}

impl<L: Clustered> System<L> {
    /// What its passes have drawn since the last section, as one list in order, which goes on where that ended; and the
    /// system goes on. Whatever they draw from now on is later. Out of memory nothing is done.
    pub fn section(
        &self,
        alloc: Global,
        passes: &mut [Pass<L>],
    ) -> Result<Journal<L::Op, L::Reply>, Memory>
        requires { MaySection self.now passes.old }
        ensures ok { IfOk result (IsSection passes.old passes.new) }
        ensures memory { OnErr result (passes.new ≡ passes.old) }
        ensures again { MaySection self.now passes.new }
    {
        let sys = &self.sys;
        lists_have_a_merge::<L::Op, L::Reply>();
        sections_merge_to_the_whole::<L::Op, L::Reply>();
        let mut logs = Vec::with_capacity(alloc, passes.len())?;
        let first = given_of::<L>(passes) + 1;
        give_section(sys, alloc, passes, &mut logs);
        Ok(Journal::of(first, logs))
    }
}
