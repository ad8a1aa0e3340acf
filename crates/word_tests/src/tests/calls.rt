//! Activities with one call, and the words that they find.
ghost use Rattle.table_crews.specs.Ready.{HoldsNoCell, IsServing};

use co_any::AnyLayout;
use k42_rule::Sys;
use std::process::Abort;
use table_crews::{Walk, end, enter, leave, look_up, may_enter};

/// An activity without a call.
pub(super) fn visit(rt: &impl Abort, sys: &Sys<AnyLayout>, pass: &mut Walk)
    requires free { HoldsNoCell sys.now pass.old }
    ensures free { HoldsNoCell sys.now pass.new }
{
    assert!(rt; may_enter::<AnyLayout>(pass));
    enter(sys, pass);
    leave(sys, pass);
}

/// Begins an activity and a call of the object in it. Answers the words that it found as it entered and looked up.
pub(super) fn go_in(
    rt: &impl Abort,
    sys: &Sys<AnyLayout>,
    pass: &mut Walk,
    object: u32,
) -> (u64, u64)
    requires free { HoldsNoCell sys.now pass.old }
    ensures free { HoldsNoCell sys.now pass.new }
    ensures serving { IsServing pass.new.view }
{
    assert!(rt; object < sys.objects() && may_enter::<AnyLayout>(pass));
    let entered = enter(sys, pass);
    let found = look_up(sys, pass, object);
    assert!(rt; found.served);
    (entered, found.word)
}

/// Ends both.
pub(super) fn go_out(sys: &Sys<AnyLayout>, pass: &mut Walk)
    requires free { HoldsNoCell sys.now pass.old }
    requires serving { IsServing pass.old.view }
    ensures free { HoldsNoCell sys.now pass.new }
{
    end(sys, pass);
    leave(sys, pass);
}

/// An activity with a call, and the words that it found as it entered and looked up.
pub(super) fn look(
    rt: &impl Abort,
    sys: &Sys<AnyLayout>,
    pass: &mut Walk,
    object: u32,
) -> (u64, u64)
    requires free { HoldsNoCell sys.now pass.old }
    ensures free { HoldsNoCell sys.now pass.new }
{
    let words = go_in(rt, sys, pass, object);
    go_out(sys, pass);
    words
}
