//! The phases of a swap.
ghost use Rattle.std.specs.Prelude.{◌≡◌, ◌≤◌, true, None};
ghost use Rattle.k42_shapes.specs.Shapes.{IsKnownTag};
ghost use Rattle.k42_board.specs.Swapping.{MayMove};
ghost use Rattle.k42_mediator.specs.Swaps.{HasBegun, HasMoved, HasTransferred, HasOpened};
ghost use Rattle.k42_mediator.specs.Transfers.{IsOfKind};
ghost use Rattle.table_crews.specs.Ready.{HoldsNoCell};

use k42_kinds::Layout;
use k42_limits::PASS_ENTRIES;
use k42_mediator::{
    Begun, Moving, abandon, begin, block, end, interpose, open_entries, transfer, try_move,
};
use k42_quiesce::{Grace, GraceStep, reclaim};
use k42_rule::{Pass, Sys};
use phase_core::SwapAt;
use std::alloc::Global;
use std::process::Abort;
use table_crews::{has_moved, may_block, may_move, may_wait};

fn has_begun<L: Layout>(pass: &Pass<L>) -> bool
    ensures { result ≡ true → HasBegun pass.now.view }
{
    matches!(pass.swap(), SwapAt::Begun(_))
}

/// Begins a swap of the first object, which is to be its only one, and leads callers to the mediator.
pub(super) fn send_to_mediator<L: Layout>(rt: &impl Abort, sys: &Sys<L>, pass: &mut Pass<L>)
    requires { HoldsNoCell sys.now pass.old }
    ensures { HoldsNoCell sys.now pass.new }
{
    assert!(rt; pass.is_idle() && 0 < sys.objects());
    assert_eq!(rt; begin(sys, pass, 0), Begun::Begun);
    assert!(rt; has_begun::<L>(pass));
    interpose(sys, pass);
}

/// Has a grace, which is to be quiet at once and to free no row.
pub(super) fn wait_quiet<L: Layout>(rt: &impl Abort, sys: &Sys<L>, pass: &mut Pass<L>)
    requires { HoldsNoCell sys.now pass.old }
    ensures { HoldsNoCell sys.now pass.new }
{
    let mut grace = Grace::new();
    assert!(rt; may_wait::<L>(pass));
    assert_eq!(rt; grace.step(sys, pass), GraceStep::Quiet);
    assert_eq!(rt; reclaim(sys, pass), 0);
}

/// Keeps out whoever knocks from now on.
pub(super) fn close<L: Layout>(rt: &impl Abort, sys: &Sys<L>, pass: &mut Pass<L>)
    requires { HoldsNoCell sys.now pass.old }
    ensures { HoldsNoCell sys.now pass.new }
{
    assert!(rt; may_block::<L>(pass));
    block(sys, pass);
}

/// Tries to move the state of a closed object, in which one caller is counted still.
pub(super) fn try_early<L: Layout>(rt: &impl Abort, sys: &Sys<L>, pass: &mut Pass<L>)
    requires { HoldsNoCell sys.now pass.old }
    ensures { HoldsNoCell sys.now pass.new }
{
    assert!(rt; may_move::<L>(pass));
    assert_eq!(rt; try_move(sys, pass), Moving::InFlight { count: 1 });
}

/// Moves the state of a closed object, in which nobody is counted.
#[tactic(auto, using(table_crews::proofs::Handed::still_unhanded))]
fn try_again<L: Layout>(rt: &impl Abort, sys: &Sys<L>, pass: &mut Pass<L>)
    requires free { HoldsNoCell sys.now pass.old }
    requires may { MayMove pass.old.view }
    requires unhanded { pass.old.view.handed ≡ None }
    ensures free { HoldsNoCell sys.now pass.new }
    ensures unhanded { pass.new.view.handed ≡ None }
{
    assert_eq!(rt; try_move(sys, pass), Moving::Moved);
}

/// Begins to move the state.
pub(super) fn move_now<L: Layout>(rt: &impl Abort, sys: &Sys<L>, pass: &mut Pass<L>)
    requires { HoldsNoCell sys.now pass.old }
    ensures free { HoldsNoCell sys.now pass.new }
    ensures moved { HasMoved pass.new.view }
{
    assert!(rt; may_move::<L>(pass));
    try_again(rt, sys, pass);
    assert!(rt; has_moved::<L>(pass));
}

/// Gives up the swap to that layout.
pub(super) fn give_up<L: Layout>(rt: &impl Abort, sys: &Sys<L>, pass: &mut Pass<L>, to: &L)
    requires free { HoldsNoCell sys.now pass.old }
    requires moved { HasMoved pass.old.view }
    requires known { IsKnownTag (L.shapes to.now) (L.tag_of to.now) }
    ensures { HoldsNoCell sys.now pass.new }
{
    pass.reserve().expect(rt, "memory");
    assert!(rt; pass.drawn() < PASS_ENTRIES);
    abandon(sys, pass, to);
}

/// Tries to hand the state of the first object on to that layout, for which there is to be no memory.
pub(super) fn hand_nothing_on<L: Layout>(
    rt: &impl Abort,
    alloc: Global,
    sys: &Sys<L>,
    pass: &mut Pass<L>,
    to: &L,
)
    requires free { HoldsNoCell sys.now pass.old }
    requires moved { HasMoved pass.old.view }
    requires kind { IsOfKind L.object sys.now.layouts 0 to.now }
    requires known { IsKnownTag (L.shapes to.now) (L.tag_of to.now) }
    ensures free { HoldsNoCell sys.now pass.new }
    ensures moved { HasMoved pass.new.view }
{
    assert!(rt; pass.swap() == SwapAt::Moved(0));
    pass.reserve().expect(rt, "memory");
    assert!(rt; pass.drawn() < PASS_ENTRIES);
    assert!(rt; transfer(alloc, sys, pass, to).is_err());
}

/// Hands the state of the first object on to that layout.
pub(super) fn transfer_to<L: Layout>(
    rt: &impl Abort,
    alloc: Global,
    sys: &Sys<L>,
    pass: &mut Pass<L>,
    to: &L,
)
    requires free { HoldsNoCell sys.now pass.old }
    requires moved { HasMoved pass.old.view }
    requires kind { IsOfKind L.object sys.now.layouts 0 to.now }
    requires known { IsKnownTag (L.shapes to.now) (L.tag_of to.now) }
    ensures free { HoldsNoCell sys.now pass.new }
    ensures transferred { HasTransferred pass.new.view }
{
    assert!(rt; pass.swap() == SwapAt::Moved(0));
    pass.reserve().expect(rt, "memory");
    assert!(rt; pass.drawn() < PASS_ENTRIES);
    transfer(alloc, sys, pass, to).expect(rt, "memory");
}

fn has_opened<L: Layout>(pass: &Pass<L>) -> bool
    ensures { result ≡ true → HasOpened pass.now.view }
{
    matches!(pass.swap(), SwapAt::Opened(_)) && pass.has_turned()
}

/// Opens the new row, and ends the swap.
pub(super) fn open<L: Layout>(rt: &impl Abort, sys: &Sys<L>, pass: &mut Pass<L>)
    requires free { HoldsNoCell sys.now pass.old }
    requires transferred { HasTransferred pass.old.view }
    ensures free { HoldsNoCell sys.now pass.new }
{
    open_entries(sys, pass);
    assert!(rt; has_opened::<L>(pass) && pass.row_room() > 0);
    end(sys, pass);
}

/// Begins a swap of the first object, as far as its state is to be handed on.
pub(super) fn take_over<L: Layout>(rt: &impl Abort, sys: &Sys<L>, pass: &mut Pass<L>)
    requires { HoldsNoCell sys.now pass.old }
    ensures free { HoldsNoCell sys.now pass.new }
    ensures moved { HasMoved pass.new.view }
{
    send_to_mediator(rt, sys, pass);
    wait_quiet(rt, sys, pass);
    close(rt, sys, pass);
    move_now(rt, sys, pass);
}

/// Swaps the first object to that layout.
pub(super) fn swap<L: Layout>(
    rt: &impl Abort,
    alloc: Global,
    sys: &Sys<L>,
    pass: &mut Pass<L>,
    to: &L,
)
    requires free { HoldsNoCell sys.now pass.old }
    requires kind { IsOfKind L.object sys.now.layouts 0 to.now }
    requires known { IsKnownTag (L.shapes to.now) (L.tag_of to.now) }
    ensures { HoldsNoCell sys.now pass.new }
{
    take_over(rt, sys, pass);
    transfer_to(rt, alloc, sys, pass, to);
    open(rt, sys, pass);
}
