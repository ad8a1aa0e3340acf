//! What holds of a system while its passes are at work.
ghost use Rattle.std.specs.Prelude.{◌≡◌, ℕ, true, false, List};
ghost use Rattle.atomic_table.specs.Table.{State};
ghost use Rattle.k42_board.specs.Cells.{Slot};
ghost use Rattle.k42_board.specs.Rule.{Rule};
ghost use Rattle.k42_board.specs.Steps.{Always};
ghost use Rattle.k42_board.specs.declared.view.PassView.{PassView};
ghost use Rattle.k42_board.specs.declared.view.View.{View};
ghost use Rattle.k42_joined.specs.Fitting.{lists_of};
ghost use Rattle.k42_kinds.specs.Histories.{AtEachPlace};
ghost use Rattle.k42_kinds.specs.Legal.{IsSoFarAmongObjects};
ghost use Rattle.k42_kinds.specs.declared.entry.Entry.{Entry};
ghost use Rattle.k42_stamp.specs.Lists.{IsMerged, is_drawn};
ghost use Rattle.k42_mediator.specs.Swaps.{LeavesOpen};
ghost use Rattle.phase_core.specs.declared.caller.SwapAt.TheVariants.{Opened};
ghost use Rattle.turn_core.specs.Stamps.{last_stamp};
ghost use Rattle.k42_runtime.specs.Calls.{SeesUpTo};
ghost use Rattle.k42_board.specs.Stepping.{layouts_in};

use crate::system::System;
use k42_joined::trace_is_legal;
use k42_kinds::Layout;
use k42_rule::layouts_are_lawful;

/// At every moment between two steps, the entries of all passes, in order and numbered anew, are legal so far: each
/// call, and each swap, destroy, watch or unwatch that was done, spent or gone.
pub fn traces_are_legal<L: Layout>(system: &System<L>)
    ensures { (table : State (Slot L.Part L.Op L.Reply) (View L.Part L.Op L.Reply)) (rule : Rule (layouts_in L.Layout system.now.sys) system.now.sys.layouts table)
        (merged : List (Entry L.Op L.Reply)) → IsMerged (lists_of rule.state) merged
        → AtEachPlace (λ before entry after. is_drawn entry.act entry.answer ≡ true
        → IsSoFarAmongObjects L.object system.now.plan.objects before entry after) merged }
{
    layouts_are_lawful(&system.sys);
    trace_is_legal::<L>(system.sys.procs());
}

/// In whatever state the table shows, what a pass has seen is not later than its last entry: its own entries, what
/// stood before them in the histories of their cells, and what stood in the rows that its swaps handed on.
pub fn nothing_seen_is_later_than_the_last_entry<L: Layout>(system: &System<L>)
    ensures { (id : ℕ) (v : PassView L.Part L.Op L.Reply) → Always (layouts_in L.Layout system.now.sys) system.now.sys.layouts id v (SeesUpTo v.number (last_stamp v.taker.mine)) }
{
    layouts_are_lawful(&system.sys);
}

/// A pass that has opened the entries of its object, which it has not turned over, gives its swap up: whatever state the
/// table shows, the step by which it ends the swap leaves the object as it was when that began, and all its entries lead
/// there.
pub fn the_end_of_a_swap_given_up_leaves_its_object_open<L: Layout>(system: &System<L>)
    ensures { (id object : ℕ) (v : PassView L.Part L.Op L.Reply) → v.visitor.swap ≡ Opened object → v.turned ≡ false
        → LeavesOpen (layouts_in L.Layout system.now.sys) system.now.sys.layouts id v }
{
    layouts_are_lawful(&system.sys);
}
