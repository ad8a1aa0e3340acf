//! A swap is given up.
ghost use Rattle.std.specs.Prelude.{◌≡◌, ◌<◌, ◌≤◌, [], length};
ghost use Rattle.k42_shapes.specs.Shapes.{IsKnownTag};
ghost use Rattle.turn_core.specs.Stamps.{last_stamp};
ghost use Rattle.k42_limits.specs.declared.TheConstants.{PASS_ENTRIES};
ghost use Rattle.k42_board.specs.Drawing.{IsDrawer, stamp_next};
ghost use Rattle.k42_board.specs.Log.{with_log};
ghost use Rattle.k42_board.specs.Seen.{HasRoom, IsPassOf};
ghost use Rattle.k42_board.specs.Stepping.{layouts_in};
ghost use Rattle.k42_mediator.specs.Swaps.{HasMoved, HasGivenUp, abandoned_view};

use crate::begun::moved_row;
use crate::interposing::change_entries;
use k42_kinds::{Answer, Layout};
use k42_rule::{Pass, Sys, clear_step, draw_alone};

/// Opens the old implementation again, and draws that the swap was given up.
pub fn abandon<L: Layout>(sys: &Sys<L>, pass: &mut Pass<L>, to: &L)
    requires ours { IsPassOf sys.now pass.old }
    requires moved { HasMoved pass.old.view }
    requires room { HasRoom pass.old }
    requires few { length pass.old.view.taker.mine < PASS_ENTRIES }
    requires known { IsKnownTag (L.shapes to.now) (L.tag_of to.now) }
    ensures same { IsDrawer pass.old pass.new }
    ensures knows { pass.new.view ≡ with_log pass.new.view.log (abandoned_view (L.act_of to.now) pass.old.view) }
    ensures later { last_stamp pass.old.view.taker.mine < stamp_next pass.old.view [] }
    ensures up { HasGivenUp (layouts_in L.Layout sys.now) sys.now.layouts pass.old.seat (L.act_of to.now) pass.old.view pass.new.view }
{
    let number = moved_row::<L>(pass).incarnation + 1;
    clear_step(sys, pass);
    change_entries(sys, pass);
    draw_alone(sys, pass, to.act(), Answer::Abandoned(number));
    clear_step(sys, pass);
}
