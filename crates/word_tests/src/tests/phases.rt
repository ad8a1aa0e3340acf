//! A swap of one pass, phase by phase.
ghost use Rattle.std.specs.Prelude.{◌≡◌, true, None};
ghost use Rattle.k42_board.specs.Swapping.{MayMove};
ghost use Rattle.k42_mediator.specs.Swaps.{HasBegun, HasMoved, HasTransferred, HasOpened};
ghost use Rattle.table_crews.specs.Ready.{HoldsNoCell};

use co_any::AnyLayout;
use k42_kinds::Layout;
use k42_limits::PASS_ENTRIES;
use k42_mediator::{Begun, Moving, begin, block, end, interpose, open_entries, transfer, try_move};
use k42_quiesce::{grace, reclaim};
use k42_rule::Sys;
use phase_core::SwapAt;
use std::alloc::Global;
use std::process::Abort;
use std::sync::Wait;
use table_crews::{Walk, has_moved, may_block, may_move, may_wait};

fn has_begun(pass: &Walk) -> bool
    ensures { result ≡ true → HasBegun pass.now.view }
{
    matches!(pass.swap(), SwapAt::Begun(_))
}

/// Begins a swap, which is to be the only one of the object.
pub(super) fn begin_alone(rt: &impl Abort, sys: &Sys<AnyLayout>, pass: &mut Walk, object: u32)
    requires free { HoldsNoCell sys.now pass.old }
    ensures free { HoldsNoCell sys.now pass.new }
    ensures begun { HasBegun pass.new.view }
{
    assert!(rt; pass.is_idle() && object < sys.objects());
    assert_eq!(rt; begin(sys, pass, object), Begun::Begun);
    assert!(rt; has_begun(pass));
}

/// Waits for a grace, which is to free so many rows.
pub(super) fn wait_free<R: Abort + Wait>(rt: &R, sys: &Sys<AnyLayout>, pass: &mut Walk, freed: u32)
    requires free { HoldsNoCell sys.now pass.old }
    ensures free { HoldsNoCell sys.now pass.new }
{
    assert!(rt; may_wait::<AnyLayout>(pass));
    grace(rt, sys, pass);
    assert!(rt; reclaim(sys, pass) == freed);
}

/// Begins to move the state of a shut object: nobody is counted.
#[tactic(auto, using(table_crews::proofs::Handed::still_unhanded))]
pub(super) fn move_now(rt: &impl Abort, sys: &Sys<AnyLayout>, pass: &mut Walk)
    requires free { HoldsNoCell sys.now pass.old }
    requires may { MayMove pass.old.view }
    requires unhanded { pass.old.view.handed ≡ None }
    ensures free { HoldsNoCell sys.now pass.new }
    ensures unhanded { pass.new.view.handed ≡ None }
{
    assert_eq!(rt; try_move(sys, pass), Moving::Moved);
}

/// Keeps the object shut, and begins to move its state.
fn shut(rt: &impl Abort, sys: &Sys<AnyLayout>, pass: &mut Walk)
    requires free { HoldsNoCell sys.now pass.old }
    ensures free { HoldsNoCell sys.now pass.new }
    ensures moved { HasMoved pass.new.view }
{
    assert!(rt; may_block::<AnyLayout>(pass));
    block(sys, pass);
    assert!(rt; may_move::<AnyLayout>(pass));
    move_now(rt, sys, pass);
    assert!(rt; has_moved::<AnyLayout>(pass));
}

/// Hands the state on to the layout of that tag.
pub(super) fn transfer_to(
    rt: &impl Abort,
    alloc: Global,
    sys: &Sys<AnyLayout>,
    pass: &mut Walk,
    object: u32,
    tag: u32,
)
    requires free { HoldsNoCell sys.now pass.old }
    requires moved { HasMoved pass.old.view }
    ensures free { HoldsNoCell sys.now pass.new }
    ensures transferred { HasTransferred pass.new.view }
{
    assert!(rt; object < sys.objects() && tag <= 2);
    assert!(rt; pass.swap() == SwapAt::Moved(object));
    pass.reserve().expect(rt, "memory");
    assert!(rt; pass.drawn() < PASS_ENTRIES);
    let to = sys.declared(object).with_tag(tag);
    transfer(alloc, sys, pass, &to).expect(rt, "memory");
}

pub(super) fn has_opened(pass: &Walk) -> bool
    ensures { result ≡ true → HasOpened pass.now.view }
{
    matches!(pass.swap(), SwapAt::Opened(_)) && pass.has_turned()
}

/// Opens the new row, and ends the swap.
fn open(rt: &impl Abort, sys: &Sys<AnyLayout>, pass: &mut Walk)
    requires free { HoldsNoCell sys.now pass.old }
    requires transferred { HasTransferred pass.old.view }
    ensures free { HoldsNoCell sys.now pass.new }
{
    open_entries(sys, pass);
    assert!(rt; has_opened(pass) && pass.row_room() > 0);
    end(sys, pass);
}

/// Swaps the object to the layout of that tag. The grace of the swap is to free so many rows.
pub(super) fn swap<R: Abort + Wait>(
    rt: &R,
    alloc: Global,
    sys: &Sys<AnyLayout>,
    pass: &mut Walk,
    object: u32,
    tag: u32,
    freed: u32,
)
    requires free { HoldsNoCell sys.now pass.old }
    ensures free { HoldsNoCell sys.now pass.new }
{
    begin_alone(rt, sys, pass, object);
    interpose(sys, pass);
    wait_free(rt, sys, pass, freed);
    shut(rt, sys, pass);
    transfer_to(rt, alloc, sys, pass, object, tag);
    open(rt, sys, pass);
}
