//! What a quiet grace tells of the activities of others.
ghost use Rattle.std.specs.Prelude.{◌≡◌, ◌<◌, ℕ, List, Some, [], ◌∷◌};
ghost use mathlib.Core.Option.{some};
ghost use lib.ListN.{get_elem?};
ghost use Rattle.atomic_table.specs.Table.{State};
ghost use Rattle.gen_core.specs.declared.state.GraceAt.TheVariants.{Quiet};
ghost use Rattle.k42_joined.specs.Event.{Event};
ghost use Rattle.k42_joined.specs.Runs.{Leaves};
ghost use Rattle.k42_joined.specs.State.{many_callers};
ghost use Rattle.k42_board.specs.Cells.{Slot};
ghost use Rattle.k42_board.specs.Stepping.{layouts_in};
ghost use Rattle.k42_board.specs.Rule.{Rule};
ghost use Rattle.k42_board.specs.Steps.{Always};
ghost use Rattle.k42_board.specs.declared.view.PassView.{PassView};
ghost use Rattle.k42_board.specs.declared.view.View.{View};
ghost use Rattle.k42_board.specs.declared.view.View.TheVariants.{Crew};
ghost use Rattle.k42_quiesce.specs.Quiet.{IsActiveIn, HaveEnded, IsGrace};

use k42_kinds::Layout;
use k42_rule::{Sys, layouts_are_lawful};

/// Each activity that is open in a state in which a pass takes the free role ends before the grace of that pass is
/// quiet: whatever events of whatever callers lie between the two states, its Leave is one of them.
pub fn activities_open_at_the_taking_end<L: Layout>(sys: &Sys<L>)
    ensures { (before after : State (Slot L.Part L.Op L.Reply) (View L.Part L.Op L.Reply))
        (taking : Rule (layouts_in L.Layout sys.now) sys.now.layouts before)
        (quiet : Rule (layouts_in L.Layout sys.now) sys.now.layouts after)
        (holder : ℕ) (notes : List (ℕ × ℕ)) (events : List (Event L L.Op L.Reply))
        → IsGrace (layouts_in L.Layout sys.now) sys.now.layouts
        taking.state quiet.state holder notes events
        → (caller generation : ℕ) → IsActiveIn taking.state caller generation → Leaves caller events }
{
    layouts_are_lawful(sys);
}

/// While the grace of a pass is quiet, no activity is under way but those that began after it flipped their processor.
pub fn quiet_activities_are_younger<L: Layout>(sys: &Sys<L>)
    ensures { (id : ℕ) (v : PassView L.Part L.Op L.Reply) (base : ℕ) → v.turn.grace ≡ Quiet → v.base ≡ Some base → Always
        (layouts_in L.Layout sys.now)
        sys.now.layouts id v (HaveEnded base) }
{
    let _ = sys.procs();
}
