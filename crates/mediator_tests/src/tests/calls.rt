//! Calls of the first object, from their look-up to their end.
ghost use Rattle.std.specs.Prelude.{◌≡◌, ◌<◌, true};
ghost use Rattle.phase_core.specs.Stages.{is_at_mediator, is_missed, is_out};
ghost use Rattle.k42_board.specs.Phases.{is_served};
ghost use Rattle.mediator_tests.specs.Ready.{IsBusy, IsHolding};
ghost use Rattle.table_crews.specs.Ready.{HoldsNoCell, IsServing};

use k42_board::layout_in;
use k42_kinds::Layout;
use k42_mediator::{Begun, Knocked, Phase, begin, knock};
use k42_quiesce::{enter, leave};
use k42_rule::{Pass, Sys, end_call, install_step, lock, root_step, unlock};
use k42_tables::{Entered, Filled, finish_call, look_up, miss};
use std::alloc::Global;
use std::process::Abort;
use std::sync::Wait;
use table_crews::may_enter;

/// Would begin a swap, of which another one has begun the first and is so far.
pub(super) fn find_busy<L: Layout>(rt: &impl Abort, sys: &Sys<L>, pass: &mut Pass<L>, phase: Phase)
    requires { HoldsNoCell sys.now pass.old }
    ensures { HoldsNoCell sys.now pass.new }
{
    assert!(rt; pass.is_idle() && 0 < sys.objects());
    assert_eq!(rt; begin(sys, pass, 0), Begun::Busy { number: 1, phase });
}

/// Begins an activity.
pub(super) fn start_activity<L: Layout>(rt: &impl Abort, sys: &Sys<L>, pass: &mut Pass<L>)
    requires { HoldsNoCell sys.now pass.old }
    ensures busy { IsBusy sys.now pass.new }
    ensures out { is_out pass.new.view.visitor.place ≡ true }
{
    assert!(rt; may_enter::<L>(pass));
    enter(sys, pass);
}

/// Looks the object up, which is to lead to the mediator.
pub(super) fn look<L: Layout>(rt: &impl Abort, sys: &Sys<L>, pass: &mut Pass<L>)
    requires busy { IsBusy sys.now pass.old }
    requires out { is_out pass.old.view.visitor.place ≡ true }
    ensures busy { IsBusy sys.now pass.new }
    ensures sent { is_at_mediator pass.new.view.visitor.place 0 ≡ true }
{
    assert!(rt; 0 < sys.objects());
    assert_eq!(rt; look_up(sys, pass, 0), Entered::Mediated);
}

/// Looks the object up, whose entry is to be empty.
pub(super) fn look_in_vain<L: Layout>(rt: &impl Abort, sys: &Sys<L>, pass: &mut Pass<L>)
    requires busy { IsBusy sys.now pass.old }
    requires out { is_out pass.old.view.visitor.place ≡ true }
    ensures busy { IsBusy sys.now pass.new }
    ensures missed { is_missed pass.new.view.visitor.place 0 ≡ true }
{
    assert!(rt; 0 < sys.objects());
    assert_eq!(rt; look_up(sys, pass, 0), Entered::Missed);
}

/// Has the miss handled, which is to lead to the first cell.
pub(super) fn fill<L: Layout, R: Abort + Wait>(
    rt: &R,
    alloc: Global,
    sys: &Sys<L>,
    pass: &mut Pass<L>,
)
    requires busy { IsBusy sys.now pass.old }
    requires missed { is_missed pass.old.view.visitor.place 0 ≡ true }
    ensures busy { IsBusy sys.now pass.new }
    ensures served { is_served pass.new.view.visitor.place ≡ true }
{
    assert!(rt; 0 < sys.objects());
    let filled = miss(rt, alloc, sys, pass, 0).expect(rt, "memory");
    assert_eq!(rt; filled, Filled::Installed { cell: 0 });
}

/// Reads the word of the object that it missed, which is to be this one.
pub(super) fn ask<L: Layout>(rt: &impl Abort, sys: &Sys<L>, pass: &mut Pass<L>, word: u64)
    requires busy { IsBusy sys.now pass.old }
    requires missed { is_missed pass.old.view.visitor.place 0 ≡ true }
    ensures busy { IsBusy sys.now pass.new }
    ensures missed { is_missed pass.new.view.visitor.place 0 ≡ true }
{
    assert!(rt; 0 < sys.objects());
    assert_eq!(rt; root_step(sys, pass, 0), word);
}

/// Ends a call that has missed.
pub(super) fn turn_back<L: Layout>(sys: &Sys<L>, pass: &mut Pass<L>)
    requires busy { IsBusy sys.now pass.old }
    requires missed { is_missed pass.old.view.visitor.place 0 ≡ true }
    ensures busy { IsBusy sys.now pass.new }
    ensures out { is_out pass.new.view.visitor.place ≡ true }
{
    end_call(sys, pass);
}

/// Leads the entry that it found empty to the cell that the root names, by the steps themselves.
pub(super) fn install<L: Layout>(rt: &impl Abort, sys: &Sys<L>, pass: &mut Pass<L>)
    requires busy { IsBusy sys.now pass.old }
    requires missed { is_missed pass.old.view.visitor.place 0 ≡ true }
    ensures busy { IsBusy sys.now pass.new }
    ensures serving { IsServing pass.new.view }
{
    assert!(rt; 0 < sys.objects());
    let root = root_step(sys, pass, 0);
    let layout = sys.declared(0).with_tag(layout_in(root));
    let cell = layout.shape().cell_called(pass.processor());
    let found = install_step(sys, pass, 0, cell);
    assert!(rt; found == root / 4_294_967_296 * 4_294_967_296);
}

/// Takes the lock of the first cell of the row that its call is inside, which is to be that cell.
pub(super) fn hold<L: Layout>(rt: &impl Abort, sys: &Sys<L>, pass: &mut Pass<L>, cell: u32)
    requires busy { IsBusy sys.now pass.old }
    requires served { is_served pass.old.view.visitor.place ≡ true }
    ensures { IsHolding cell sys.now pass.new }
{
    let inside = pass.inside();
    let first = (inside.object * 2 + inside.incarnation % 2) * 8;
    assert!(rt; first == cell);
    assert!(rt; lock(sys, pass, first) == 0);
}

/// Leaves that lock.
pub(super) fn let_go<L: Layout>(sys: &Sys<L>, pass: &mut Pass<L>, cell: u32)
    requires few { cell < 256 }
    requires holding { IsHolding cell sys.now pass.old }
    ensures busy { IsBusy sys.now pass.new }
    ensures served { is_served pass.new.view.visitor.place ≡ true }
{
    unlock(sys, pass, cell);
}

/// Knocks, and is let in.
pub(super) fn let_in<L: Layout>(rt: &impl Abort, sys: &Sys<L>, pass: &mut Pass<L>)
    requires busy { IsBusy sys.now pass.old }
    requires sent { is_at_mediator pass.old.view.visitor.place 0 ≡ true }
    ensures busy { IsBusy sys.now pass.new }
    ensures served { is_served pass.new.view.visitor.place ≡ true }
{
    let admitted = Knocked::Admitted { incarnation: 0 };
    assert!(rt; 0 < sys.objects());
    assert_eq!(rt; knock(sys, pass, 0), admitted);
}

/// Ends the call.
pub(super) fn end<L: Layout>(sys: &Sys<L>, pass: &mut Pass<L>)
    requires busy { IsBusy sys.now pass.old }
    requires served { is_served pass.old.view.visitor.place ≡ true }
    ensures busy { IsBusy sys.now pass.new }
    ensures out { is_out pass.new.view.visitor.place ≡ true }
{
    finish_call(sys, pass);
}

/// Knocks, and is kept out.
pub(super) fn keep_out<L: Layout>(rt: &impl Abort, sys: &Sys<L>, pass: &mut Pass<L>)
    requires busy { IsBusy sys.now pass.old }
    requires sent { is_at_mediator pass.old.view.visitor.place 0 ≡ true }
    ensures busy { IsBusy sys.now pass.new }
    ensures out { is_out pass.new.view.visitor.place ≡ true }
{
    assert!(rt; 0 < sys.objects());
    assert_eq!(rt; knock(sys, pass, 0), Knocked::Blocked);
}

/// Ends the activity.
pub(super) fn end_activity<L: Layout>(sys: &Sys<L>, pass: &mut Pass<L>)
    requires busy { IsBusy sys.now pass.old }
    requires out { is_out pass.old.view.visitor.place ≡ true }
    ensures { HoldsNoCell sys.now pass.new }
{
    leave(sys, pass);
}
