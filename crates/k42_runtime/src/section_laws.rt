//! What sections make together.
ghost use Rattle.std.specs.Prelude.{◌≡◌, ◌++◌, List, length};
ghost use Rattle.atomic_table.specs.Table.{State};
ghost use Rattle.k42_board.specs.Cells.{Slot};
ghost use Rattle.k42_board.specs.Rule.{Ruled};
ghost use Rattle.k42_board.specs.declared.view.View.{View};
ghost use Rattle.k42_kinds.specs.Legal.{IsLegalHistoryOf};
ghost use Rattle.k42_board.specs.Seen.{PassSeen};
ghost use Rattle.k42_board.specs.Stepping.{layouts_in};
ghost use Rattle.k42_kinds.specs.declared.entry.Entry.{Entry};
ghost use Rattle.k42_rule.specs.Finishing.{lists_in};
ghost use Rattle.k42_rule.specs.Sections.{fronts_in};
ghost use Rattle.k42_stamp.specs.Lists.{IsMerged};
ghost use Rattle.k42_runtime.specs.Histories.{HasHistory, IsClosed, MayEnd};
ghost use Rattle.k42_runtime.specs.Plans.{PlanSeen};
ghost use Rattle.k42_runtime.specs.Sections.{AreShown, HaveGiven, IsSection, end_to_end};

use crate::system::System;
use k42_joined::trace_at_rest_is_a_history;
use k42_kinds::Layout;
use k42_rule::layouts_are_lawful;
use k42_stamp::a_merge_is_one;

/// In whatever state the table shows once a section was given, it makes one legal history of the plan's objects with what
/// was given before it.
pub fn sections_are_legal<L: Layout>(system: &System<L>)
    ensures { (old passes : List (PassSeen L.Part L.Op L.Reply)) (section : List (Entry L.Op L.Reply)) (is : IsSection old passes section) → MayEnd system.now passes
        → (table : State (Slot L.Part L.Op L.Reply) (View L.Part L.Op L.Reply))
        → Ruled (layouts_in L.Layout system.now.sys) system.now.sys.layouts (length system.now.sys.callers) table → AreShown table passes
        → IsLegalHistoryOf L.object system.now.plan.objects (is.before ++ section) }
{
    layouts_are_lawful(&system.sys);
    trace_at_rest_is_a_history::<L>(system.sys.procs());
}

/// All sections, one behind the other, are the one list in order of what the passes have given.
pub fn sections_lie_end_to_end<L: Layout>()
    ensures { (sections : List (List (Entry L.Op L.Reply))) (passes : List (PassSeen L.Part L.Op L.Reply)) → HaveGiven sections passes
        → IsMerged (fronts_in passes) (end_to_end sections) }
{
    a_merge_is_one::<L::Op, L::Reply>();
}

/// A section leaves nothing that was not given. So where a system has ended after its last section, the sections are its
/// whole history.
pub fn the_last_section_ends_the_history<L: Layout>()
    ensures all { (old new : List (PassSeen L.Part L.Op L.Reply)) (section : List (Entry L.Op L.Reply)) → IsSection old new section → fronts_in new ≡ lists_in new }
    ensures ends { (plan : PlanSeen L) (sections : List (List (Entry L.Op L.Reply))) (old new : List (PassSeen L.Part L.Op L.Reply)) (section : List (Entry L.Op L.Reply))
        → HaveGiven sections old → IsSection old new section → HasHistory L.object plan (lists_in new)
        → IsClosed L.object plan (lists_in new) (record { entries = end_to_end sections ++ section; plan = plan }) }
{
    a_merge_is_one::<L::Op, L::Reply>();
}
