//! The steps of activities and graces.
ghost use Rattle.k42_board.specs.Generating.{active_in};
ghost use Rattle.k42_board.specs.Protocol as protocol;
ghost use Rattle.k42_board.specs.Stepping.{MayStep, HasStepped};

use crate::pass::Pass;
use crate::sys::Sys;
use k42_board::{enter_word, generation_in, leave_word};
use k42_kinds::Layout;

/// Begins an activity in the generation that it finds.
pub fn enter_step<L: Layout>(sys: &Sys<L>, pass: &mut Pass<L>) -> u64
    requires { MayStep L.Layout sys.now protocol.enter pass.old }
    ensures { HasStepped L.Layout sys.now protocol.enter pass.old result pass.new }
{
    let home = pass.home as usize;
    let found = enter_word(&sys.board, &mut pass.seat, home);
    pass.active = Some(generation_in(found));
    found
}

/// Ends the activity.
pub fn leave_step<L: Layout>(sys: &Sys<L>, pass: &mut Pass<L>) -> u64
    requires { MayStep L.Layout sys.now (protocol.leave (active_in pass.old.view)) pass.old }
    ensures { HasStepped L.Layout sys.now (protocol.leave (active_in pass.old.view)) pass.old result pass.new }
{
    let home = pass.home as usize;
    let Some(generation) = pass.active else {
        unreachable!()
    };
    let found = leave_word(&sys.board, &mut pass.seat, home, generation);
    pass.active = None;
    found
}
