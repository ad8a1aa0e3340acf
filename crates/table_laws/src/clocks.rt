//! A pass tells of its clock, and another skips to it.
ghost use Rattle.std.specs.Prelude.{◌≡◌, ℕ, [], ◌∷◌};
ghost use Rattle.turn_core.specs.declared.event.TurnEvent.TheVariants.{Skip};
ghost use Rattle.k42_joined.specs.Event.{AtCells};
ghost use Rattle.k42_board.specs.Skipping.{skipped_view};
ghost use Rattle.k42_board.specs.Stepping.{layouts_in};
ghost use Rattle.k42_board.specs.declared.view.PassView.{PassView};
ghost use Rattle.k42_board.specs.declared.view.View.TheVariants.{Crew, Drew};
ghost use Rattle.table_laws.specs.Seating.{JoinIs, SplitStays};

use k42_kinds::Layout;
use k42_rule::{Sys, layouts_are_lawful};

/// A seat that is split off to tell of a pass's clock leaves the state.
pub fn telling_a_clock_leaves_the_state<L: Layout>(sys: &Sys<L>)
    ensures { (id : ℕ) (v : PassView L.Part L.Op L.Reply)
        → SplitStays
        (layouts_in L.Layout sys.now)
        sys.now.layouts id (Crew (v ∷ [])) (Crew (v ∷ [])) (Drew v.taker.clock) }
{
    let _ = sys.procs();
}

/// A pass that takes such a seat in has skipped to the stamp, which was possible: of all splits and joins this alone is an
/// event.
pub fn taking_a_clock_in_is_a_skip<L: Layout>(sys: &Sys<L>)
    ensures { (id other stamp : ℕ) (v : PassView L.Part L.Op L.Reply)
        → JoinIs
        (layouts_in L.Layout sys.now)
        sys.now.layouts (AtCells (Skip v.number stamp)) id (Crew (v ∷ [])) other (Drew stamp) (Crew (skipped_view stamp v ∷ [])) }
{
    layouts_are_lawful(sys);
}
