//! No count of the table passes its field.
ghost use Rattle.std.specs.Prelude.{ℕ};
ghost use Rattle.atomic_table.specs.Table.{State};
ghost use Rattle.k42_board.specs.Cells.{Slot};
ghost use Rattle.k42_board.specs.Rule.{Rule};
ghost use Rattle.k42_board.specs.Stepping.{layouts_in};
ghost use Rattle.k42_board.specs.declared.view.PassView.{PassView};
ghost use Rattle.k42_board.specs.declared.view.View.{View};
ghost use Rattle.table_laws.specs.Fields.{CountsEntry, NumbersAreRead, entering};
ghost use Rattle.table_laws.specs.Numbers.{NumbersFit};

use k42_kinds::Layout;
use k42_rule::Sys;

/// In whatever state the table shows, each count is within its bound.
pub fn numbers_fit<L: Layout>(sys: &Sys<L>)
    ensures { (table : State (Slot L.Part L.Op L.Reply) (View L.Part L.Op L.Reply))
        (rule : Rule (layouts_in L.Layout sys.now) sys.now.layouts table)
        → NumbersFit rule.state }
{
    let _ = sys.procs();
}

/// And so what is read of a word's field is the state's number, whatever stands in the other fields.
pub fn numbers_are_read<L: Layout>(sys: &Sys<L>)
    ensures { (table : State (Slot L.Part L.Op L.Reply) (View L.Part L.Op L.Reply))
        (rule : Rule (layouts_in L.Layout sys.now) sys.now.layouts table)
        → NumbersAreRead table.words rule.state }
{
    let _ = sys.procs();
}

/// An enter leaves the generation in its processor's word, whatever count of entries stands beside it.
pub fn entering_leaves_the_generation<L: Layout>(sys: &Sys<L>)
    ensures { (pass : PassView L.Part L.Op L.Reply) (word : ℕ)
        → CountsEntry (entering (layouts_in L.Layout sys.now) pass) word }
{
    let _ = sys.procs();
}
