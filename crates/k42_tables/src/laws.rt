//! What a call inside a row may rely on.
ghost use Rattle.std.specs.Prelude.{◌<◌, ℕ};
ghost use Rattle.k42_joined.specs.Safe.{IsOpenRow};
ghost use Rattle.k42_board.specs.Steps.{Always};
ghost use Rattle.k42_board.specs.Stepping.{layouts_in};
ghost use Rattle.k42_board.specs.declared.view.PassView.{PassView};
ghost use Rattle.phase_core.specs.Stages.{IsInside};

use k42_kinds::Layout;
use k42_rule::{Sys, shown_states_are_safe};

/// A call inside a row never finds a cell of it closed, nor one that was given to another row.
pub fn cells_inside_are_open<L: Layout>(sys: &Sys<L>)
    ensures { (id object row place : ℕ) (v : PassView L.Part L.Op L.Reply) → IsInside v.visitor.place object row → place < sys.now.procs
        → Always (layouts_in L.Layout sys.now) sys.now.layouts id v (λ s. IsOpenRow s object row place) }
{
    shown_states_are_safe(sys);
}
