//! What holds in every state that the table shows.
ghost use Rattle.std.specs.Prelude.{◌≡◌, ℕ, true, [], ◌∷◌};
ghost use mathlib.Core.Option.{some};
ghost use lib.ListN.{get_elem?};
ghost use Rattle.atomic_table.specs.Table.{State};
ghost use Rattle.k42_stamp.specs.Laws.{AreLaws};
ghost use Rattle.k42_joined.specs.Event.{Event};
ghost use Rattle.k42_joined.specs.Safe.{IsSafe};
ghost use Rattle.k42_board.specs.Cells.{Slot};
ghost use Rattle.k42_rule.specs.Laws.{IsPresent, Names, StepKeepsFreed};
ghost use Rattle.k42_board.specs.Phases.{is_served};
ghost use Rattle.k42_board.specs.Stepping.{layouts_in};
ghost use Rattle.k42_board.specs.Rule.{Rule};
ghost use Rattle.k42_board.specs.Steps.{StepIs};
ghost use Rattle.k42_board.specs.declared.view.PassView.{PassView};
ghost use Rattle.k42_board.specs.declared.view.Row.{Row};
ghost use Rattle.k42_board.specs.declared.view.View.{View};
ghost use Rattle.k42_board.specs.declared.view.View.TheVariants.{Crew};

use crate::sys::Sys;
use k42_kinds::Layout;

/// The layouts keep the laws on which all that is proved of rows and histories rests.
pub fn layouts_are_lawful<L: Layout>(sys: &Sys<L>)
    ensures { AreLaws (layouts_in L.Layout sys.now) }
{
    let _ = &sys.board;
}

/// In whatever state the table shows, nobody is inside a row from which state is moved, who is inside a row finds
/// its cells open, and no row that was read is freed.
pub fn shown_states_are_safe<L: Layout>(sys: &Sys<L>)
    ensures { (table : State (Slot L.Part L.Op L.Reply) (View L.Part L.Op L.Reply))
        (rule : Rule (layouts_in L.Layout sys.now) sys.now.layouts table)
        → IsSafe rule.state }
{
    let _ = &sys.board;
}

/// The row that a direct or a tracked call is inside is its object's present one, and has the layout that the pass
/// has learned.
pub fn rows_inside_are_present<L: Layout>(sys: &Sys<L>)
    ensures { (table : State (Slot L.Part L.Op L.Reply) (View L.Part L.Op L.Reply))
        (rule : Rule (layouts_in L.Layout sys.now) sys.now.layouts table)
        (id : ℕ) (v : PassView L.Part L.Op L.Reply) → get_elem? table.views id ≡ some (Crew (v ∷ []))
        → is_served v.visitor.place ≡ true → IsPresent v rule.state }
{
    let _ = &sys.board;
}

/// No step takes back that a row is freed.
pub fn freed_rows_stay_freed<L: Layout>(sys: &Sys<L>)
    ensures { (event : Event L L.Op L.Reply) (word : ℕ) (changed : ℕ → ℕ) (id : ℕ) (v : PassView L.Part L.Op L.Reply) (found : ℕ) (w : PassView L.Part L.Op L.Reply)
        → StepIs
        (layouts_in L.Layout sys.now)
        sys.now.layouts event word changed id v found w
        → StepKeepsFreed
        (layouts_in L.Layout sys.now)
        sys.now.layouts word changed id v found w }
{
    let _ = &sys.board;
}

/// A row is named by one seat at most.
pub fn rows_have_one_name<L: Layout>(sys: &Sys<L>)
    ensures { (table : State (Slot L.Part L.Op L.Reply) (View L.Part L.Op L.Reply))
        (rule : Rule (layouts_in L.Layout sys.now) sys.now.layouts table)
        (row : Row) (i j : ℕ) (v w : View L.Part L.Op L.Reply) → get_elem? table.views i ≡ some v → get_elem? table.views j ≡ some w
        → Names v row → Names w row → i ≡ j }
{
    let _ = &sys.board;
}
