//! The entries of all processors change.
ghost use Rattle.std.specs.Prelude.{◌≡◌, Some};
ghost use Rattle.k42_board.specs.Log.{ComesTo};
ghost use Rattle.k42_board.specs.Seen.{IsPassOf, IsSamePass};
ghost use Rattle.k42_board.specs.Swapping.{next_entry};
ghost use Rattle.k42_mediator.specs.Swaps.{staged, stage_changed, HasBegun, interposed_view};

use k42_kinds::Layout;
use k42_rule::{Pass, Sys, entry_step};

/// Changes the entries of all processors, one after the other.
pub(crate) fn change_entries<L: Layout>(sys: &Sys<L>, pass: &mut Pass<L>)
    requires ours { IsPassOf sys.now pass.old }
    requires first { next_entry pass.old.view.visitor.swap ≡ Some 0 }
    ensures same { IsSamePass pass.old pass.new }
    ensures comes { ComesTo pass.old.view (staged (stage_changed pass.old.view.visitor.swap) pass.old.view) pass.new.view }
{
    let procs = sys.procs();
    for proc in 0..procs {
        entry_step(sys, pass, proc);
    }
}

/// Leads the entry of every processor to the mediator. Who looks the object up from now on is sent to knock; who read
/// an entry before is not counted, and is waited for by a grace.
pub fn interpose<L: Layout>(sys: &Sys<L>, pass: &mut Pass<L>)
    requires ours { IsPassOf sys.now pass.old }
    requires begun { HasBegun pass.old.view }
    ensures same { IsSamePass pass.old pass.new }
    ensures comes { ComesTo pass.old.view (interposed_view pass.old.view) pass.new.view }
{
    change_entries(sys, pass);
}
