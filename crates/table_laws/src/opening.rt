//! What a new system shows.
ghost use Rattle.std.specs.Prelude.{◌≡◌, ℕ, List, length, map};
ghost use Rattle.atomic_table.specs.Table.{State, opening};
ghost use Rattle.k42_board.specs.Cells.{Slot};
ghost use Rattle.k42_board.specs.Rule.{Ruled};
ghost use Rattle.k42_board.specs.Stepping.{layouts_in};
ghost use Rattle.k42_board.specs.Views.{first_view};
ghost use Rattle.k42_board.specs.declared.view.View.{View};
ghost use Rattle.k42_joined.specs.Fresh.{fresh};
ghost use Rattle.k42_limits.specs.declared.TheConstants.{PROCESSORS};
ghost use Rattle.table_laws.specs.Opening.{AreBlank, AreNewPasses, IsNew, state_in_words};

use k42_kinds::Layout;
use k42_rule::Sys;

/// Every pass of a table that was just opened is new.
pub fn an_opened_table_has_new_passes<L: Layout>(sys: &Sys<L>)
    ensures { (words : List ℕ) (slots : List (Slot L.Part L.Op L.Reply))
        (table : State (Slot L.Part L.Op L.Reply) (View L.Part L.Op L.Reply))
        → table
        ≡ opening words slots (first_view L.shapes sys.now.procs sys.now.layouts sys.now.callers)
        → AreNewPasses sys.now.procs (map L.shapes sys.now.layouts) sys.now.callers table.views }
{
    let _ = sys.procs();
}

/// While every pass is new, whatever state the table shows is like the new one.
pub fn a_new_table_shows_the_new_state<L: Layout>(sys: &Sys<L>)
    ensures { (table : State (Slot L.Part L.Op L.Reply) (View L.Part L.Op L.Reply))
        (ruled : Ruled
        (layouts_in L.Layout sys.now)
        sys.now.layouts (length sys.now.callers) table)
        → AreNewPasses sys.now.procs (map L.shapes sys.now.layouts) sys.now.callers table.views
        → IsNew (layouts_in L.Layout sys.now) sys.now.layouts sys.now.callers ruled.rule.state }
{
    let _ = sys.procs();
}

/// And where no entry leads anywhere yet, the words of processors are 0, and each place has one, then words and passes
/// tell of just that state.
pub fn a_blank_table_shows_just_the_new_state<L: Layout>(sys: &Sys<L>)
    ensures { (table : State (Slot L.Part L.Op L.Reply) (View L.Part L.Op L.Reply))
        (ruled : Ruled
        (layouts_in L.Layout sys.now)
        sys.now.layouts (length sys.now.callers) table)
        → AreNewPasses sys.now.procs (map L.shapes sys.now.layouts) sys.now.callers table.views
        → AreBlank sys.now.procs (length sys.now.layouts) table.words
        → sys.now.procs ≡ PROCESSORS
        → state_in_words ruled.rule.state
        ≡ fresh (layouts_in L.Layout sys.now) sys.now.layouts sys.now.callers }
{
    let _ = sys.procs();
}
