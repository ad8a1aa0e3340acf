//! An activity of a pass.
ghost use Rattle.k42_crews.specs.Ready.{IsFree, IsIn};

use co_system::{Pass, System};

/// Begins an activity.
pub(super) fn come_in(system: &System, pass: &mut Pass)
    requires free { IsFree system.now pass.old }
    ensures inside { IsIn system.now pass.new }
{
    system.enter(pass);
}

/// Ends it.
pub(super) fn go_home(system: &System, pass: &mut Pass)
    requires inside { IsIn system.now pass.old }
    ensures free { IsFree system.now pass.new }
{
    system.leave(pass);
}
