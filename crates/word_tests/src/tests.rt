//! The words that the table shows in the course of four swaps, bit by bit.
ghost use Rattle.k42_mediator.specs.Swaps.{HasMoved};
ghost use Rattle.table_crews.specs.Ready.{HoldsNoCell};

use crate::tests::calls::{go_in, go_out, look, visit};
use crate::tests::crews::start;
use crate::tests::phases::{begin_alone, has_opened, move_now, swap, transfer_to, wait_free};
use co_any::AnyLayout;
use k42_mediator::{Begun, Moving, Phase, begin, block, end, interpose, open_entries, try_move};
use k42_rule::Sys;
use std::alloc::Global;
use std::process::Abort;
use std::sync::Wait;
use table_crews::{Walk, has_moved, may_block, may_move};

mod calls;
mod crews;
mod phases;

/// Incarnation 3, spread, a swap blocks, two are counted.
const BLOCKED: u64 = 0x0000_0003_1300_0002;
/// The same, nobody is counted, and the state is being moved.
const MOVING: u64 = 0x0000_0003_1700_0000;
/// Turned over to the shared layout and incarnation 4.
const TURNED: u64 = 0x0000_0004_0900_0000;
/// A direct entry that leads to cell 5 of the spread row of incarnation 3.
const DIRECT: u64 = 0x0000_0003_0000_0511;
/// An empty entry of incarnation 1.
const EMPTY: u64 = 0x0000_0001_0000_0000;
/// Seven entries, and generation 2.
const ENTERED: u64 = 0x0000_0007_0000_0002;

fn visit_seven_times(rt: &impl Abort, sys: &Sys<AnyLayout>, pass: &mut Walk)
    requires free { HoldsNoCell sys.now pass.old }
    ensures free { HoldsNoCell sys.now pass.new }
{
    visit(rt, sys, pass);
    visit(rt, sys, pass);
    visit(rt, sys, pass);
    visit(rt, sys, pass);
    visit(rt, sys, pass);
    visit(rt, sys, pass);
    visit(rt, sys, pass);
}

/// Three swaps, and the words of entries and generations that a caller finds between them.
fn swap_three_times<R: Abort + Wait>(
    rt: &R,
    alloc: Global,
    sys: &Sys<AnyLayout>,
    swapper: &mut Walk,
    caller: &mut Walk,
)
    requires free { HoldsNoCell sys.now swapper.old × HoldsNoCell sys.now caller.old }
    ensures free { HoldsNoCell sys.now swapper.new × HoldsNoCell sys.now caller.new }
{
    visit_seven_times(rt, sys, caller);
    swap(rt, alloc, sys, swapper, 0, 0, 0);
    assert!(rt; look(rt, sys, caller, 0).1 == EMPTY);
    swap(rt, alloc, sys, swapper, 0, 0, 1);
    assert!(rt; look(rt, sys, caller, 0).0 == ENTERED);
    swap(rt, alloc, sys, swapper, 0, 1, 1);
    look(rt, sys, caller, 0);
    assert!(rt; look(rt, sys, caller, 0).1 == DIRECT);
}

/// Tries to begin a swap while the fourth one is in that phase, and finds that word.
fn find(rt: &impl Abort, sys: &Sys<AnyLayout>, observer: &mut Walk, phase: Phase, word: u64)
    requires free { HoldsNoCell sys.now observer.old }
    ensures free { HoldsNoCell sys.now observer.new }
{
    assert!(rt; observer.is_idle() && sys.objects() > 0);
    let busy = Begun::Busy { number: 4, phase };
    assert_eq!(rt; begin(sys, observer, 0), busy);
    assert!(rt; observer.last_begin().map_or(0, |begin| begin.word) == word);
}

/// Keeps the object shut while two calls are inside.
fn block_two(
    rt: &impl Abort,
    sys: &Sys<AnyLayout>,
    swapper: &mut Walk,
    caller: &mut Walk,
    other: &mut Walk,
    observer: &mut Walk,
)
    requires free { HoldsNoCell sys.now swapper.old × HoldsNoCell sys.now caller.old × HoldsNoCell sys.now other.old × HoldsNoCell sys.now observer.old }
    ensures free { HoldsNoCell sys.now swapper.new × HoldsNoCell sys.now caller.new × HoldsNoCell sys.now other.new × HoldsNoCell sys.now observer.new }
{
    go_in(rt, sys, caller, 0);
    go_in(rt, sys, other, 0);
    assert!(rt; may_block::<AnyLayout>(swapper));
    block(sys, swapper);
    assert!(rt; may_move::<AnyLayout>(swapper));
    let inside = Moving::InFlight { count: 2 };
    assert_eq!(rt; try_move(sys, swapper), inside);
    find(rt, sys, observer, Phase::Block, BLOCKED);
    go_out(sys, caller);
    go_out(sys, other);
}

/// Begins to move the state once nobody is inside.
fn move_shut(rt: &impl Abort, sys: &Sys<AnyLayout>, swapper: &mut Walk, observer: &mut Walk)
    requires free { HoldsNoCell sys.now swapper.old × HoldsNoCell sys.now observer.old }
    ensures free { HoldsNoCell sys.now swapper.new × HoldsNoCell sys.now observer.new }
    ensures moved { HasMoved swapper.new.view }
{
    assert!(rt; may_move::<AnyLayout>(swapper));
    move_now(rt, sys, swapper);
    assert!(rt; has_moved::<AnyLayout>(swapper));
    find(rt, sys, observer, Phase::Transfer, MOVING);
}

/// Hands the state on, turns the object over, and ends the swap.
fn turn(
    rt: &impl Abort,
    alloc: Global,
    sys: &Sys<AnyLayout>,
    swapper: &mut Walk,
    observer: &mut Walk,
)
    requires free { HoldsNoCell sys.now swapper.old × HoldsNoCell sys.now observer.old }
    requires moved { HasMoved swapper.old.view }
{
    transfer_to(rt, alloc, sys, swapper, 0, 0);
    open_entries(sys, swapper);
    find(rt, sys, observer, Phase::Complete, TURNED);
    assert!(rt; has_opened(swapper) && swapper.row_room() > 0);
    end(sys, swapper);
}

#[test]
fn three_swaps_and_a_fourth_show_the_words_of_the_table(rt: HostRuntime) {
    let alloc = rt.alloc();
    let (sys, mut swapper, mut caller, mut other, mut observer) = start(&rt, alloc);
    swap_three_times(&rt, alloc, &sys, &mut swapper, &mut caller);
    begin_alone(&rt, &sys, &mut swapper, 0);
    interpose(&sys, &mut swapper);
    wait_free(&rt, &sys, &mut swapper, 1);
    block_two(
        &rt,
        &sys,
        &mut swapper,
        &mut caller,
        &mut other,
        &mut observer,
    );
    move_shut(&rt, &sys, &mut swapper, &mut observer);
    turn(&rt, alloc, &sys, &mut swapper, &mut observer);
}
