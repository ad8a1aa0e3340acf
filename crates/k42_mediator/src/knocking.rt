//! Callers knock at the mediator.
ghost use Rattle.std.specs.Prelude.{◌≡◌, true, length};
ghost use Rattle.k42_joined.specs.Swapping.{holds_none};
ghost use Rattle.k42_board.specs.Seen.{IsPassOf, IsSamePass};
ghost use Rattle.k42_board.specs.Stepping.{layouts_in};
ghost use Rattle.k42_board.specs.Tabling.{MayKnock};
ghost use Rattle.k42_mediator.specs.Knocks.{IsKnock};

use crate::answers::Knocked;
use k42_board::{incarnation_in, is_blocked};
use k42_kinds::Layout;
use k42_rule::{Pass, Sys, knock_step, step_out};

/// Knocks at the mediator of the object, which lets the caller into the present row and counts it. Where the swap
/// blocks, the caller is out of its call again, and may look the object up anew.
pub fn knock<L: Layout>(sys: &Sys<L>, pass: &mut Pass<L>, object: u32) -> Knocked
    requires ours { IsPassOf sys.now pass.old }
    requires sent { MayKnock (length sys.now.layouts) object pass.old.view }
    requires free { holds_none pass.old.view.taker.held ≡ true }
    ensures same { IsSamePass pass.old pass.new }
    ensures knocked { IsKnock (layouts_in L.Layout sys.now) sys.now.layouts pass.old.seat object pass.old.view pass.new.view result }
{
    let found = knock_step(sys, pass, object);
    if is_blocked(found) {
        step_out(sys, pass);
        return Knocked::Blocked;
    }
    Knocked::Admitted {
        incarnation: incarnation_in(found),
    }
}
