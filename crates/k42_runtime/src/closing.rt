//! A system is closed.
ghost use Rattle.std.specs.Prelude.{◌≡◌, IfOk, IfErr};
ghost use Rattle.k42_rule.specs.Finishing.{lists_in};
ghost use Rattle.k42_runtime.specs.Histories.{IsClosed, HasHistory, MayClose, MayEnd};

use crate::history::{History, Unclosed};
use crate::system::System;
use k42_clustered::Clustered;
use k42_joined::trace_at_rest_is_a_history;
use k42_journal::Journal;
use k42_rule::{Pass, give_logs, layouts_are_lawful};
use k42_stamp::lists_have_a_merge;
use std::alloc::Global;

impl<L: Clustered> System<L> {
    /// Ends a system of which nobody asks for the history. It takes no memory.
    pub fn end(self, passes: Vec<Pass<L>>)
        requires { MayEnd self passes.items }
        ensures { HasHistory L.object self.plan (lists_in passes.items) }
    {
        layouts_are_lawful(&self.sys);
        trace_at_rest_is_a_history::<L>(self.sys.procs());
        lists_have_a_merge::<L::Op, L::Reply>();
        let System { sys, .. } = self;
        sys.finish(passes);
    }

    /// The one history of all its passes' entries, of which each has kept its own. It moves no
    /// entry, and needs memory for the list of their logs alone.
    pub fn close(self, alloc: Global, mut passes: Vec<Pass<L>>) -> Result<History<L>, Unclosed<L>>
        requires { MayClose self passes.items }
        ensures ok { IfOk result (IsClosed L.object self.plan (lists_in passes.items)) }
        ensures err { IfErr result (λ back. (back.system ≡ self) × (back.passes.items ≡ passes.items)) }
    {
        layouts_are_lawful(&self.sys);
        trace_at_rest_is_a_history::<L>(self.sys.procs());
        let Ok(mut logs) = Vec::with_capacity(alloc, passes.len()) else {
            return Err(Unclosed {
                system: self,
                passes,
            });
        };
        give_logs::<L>(alloc, passes.as_mut_slice(), &mut logs);
        let System { sys, plan } = self;
        sys.finish(passes);
        let journal = Journal::of(1, logs);
        Ok(History { journal, plan })
    }
}
