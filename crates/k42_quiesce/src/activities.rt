//! Activities.
ghost use Rattle.k42_board.specs.Generating.{CanLeave, active_in};
ghost use Rattle.k42_board.specs.Log.{last_found};
ghost use Rattle.k42_board.specs.Protocol as protocol;
ghost use Rattle.k42_board.specs.Seen.{IsOf};
ghost use Rattle.k42_board.specs.Stepping.{MayStep, HasStepped};
ghost use Rattle.k42_quiesce.specs.Activities.{HasEntered};

use k42_kinds::Layout;
use k42_rule::{Pass, Sys, enter_step, leave_step};

/// Begins an activity, in the present generation of the pass's processor.
pub fn enter<L: Layout>(sys: &Sys<L>, pass: &mut Pass<L>)
    requires may { MayStep L.Layout sys.now protocol.enter pass.old }
    ensures entered { HasEntered pass.new.view }
    ensures stepped { HasStepped L.Layout sys.now protocol.enter pass.old (last_found pass.new.view.log) pass.new }
{
    enter_step(sys, pass);
}

/// Ends the activity.
pub fn leave<L: Layout>(sys: &Sys<L>, pass: &mut Pass<L>)
    requires ours { IsOf sys.now pass.old }
    requires may { CanLeave pass.old.view }
    ensures { HasStepped L.Layout sys.now (protocol.leave (active_in pass.old.view)) pass.old (last_found pass.new.view.log) pass.new }
{
    leave_step(sys, pass);
}
