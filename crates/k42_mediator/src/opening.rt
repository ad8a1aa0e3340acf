//! The object is turned over and opened, and the swap ends.
ghost use Rattle.std.specs.Prelude.{◌≡◌, ◌<◌};
ghost use Rattle.k42_board.specs.Log.{ComesTo, last_found, with_log};
ghost use Rattle.k42_board.specs.Protocol as protocol;
ghost use Rattle.k42_board.specs.Seen.{IsPassOf, IsSamePass, HasSameRoom};
ghost use Rattle.k42_board.specs.Stepping.{TakesIn};
ghost use Rattle.k42_mediator.specs.Swaps.{HasTransferred, opened_view, HasOpened, swap_ended_view};

use crate::interposing::change_entries;
use k42_kinds::Layout;
use k42_rule::{Pass, Sys, clear_step, turn_over};

/// Turns the object over to its next incarnation, and empties the entry of every processor there.
pub fn open_entries<L: Layout>(sys: &Sys<L>, pass: &mut Pass<L>)
    requires ours { IsPassOf sys.now pass.old }
    requires transferred { HasTransferred pass.old.view }
    ensures same { IsSamePass pass.old pass.new }
    ensures comes { ComesTo pass.old.view (opened_view pass.old.view) pass.new.view }
{
    let layout = pass.handed_layout();
    turn_over(sys, pass, layout);
    change_entries(sys, pass);
}

/// Ends the swap. The old row is then the newest of the rows that the pass holds.
pub fn end<L: Layout>(sys: &Sys<L>, pass: &mut Pass<L>)
    requires ours { IsPassOf sys.now pass.old }
    requires opened { HasOpened pass.old.view }
    requires room { 0 < pass.old.row_room }
    ensures same { HasSameRoom pass.old pass.new }
    ensures knows { pass.new.view ≡ with_log pass.new.view.log (swap_ended_view pass.old.view) }
    ensures takes { TakesIn L.Layout sys.now protocol.clear pass.old (last_found pass.new.view.log) pass.new }
{
    clear_step(sys, pass);
}
