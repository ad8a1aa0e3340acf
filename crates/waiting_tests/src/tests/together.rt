//! Calls that wait, until another thread gives them what they need.
ghost use Rattle.std.specs.Prelude.{◌<◌, [], ◌∷◌};
ghost use Rattle.std.specs.Thread.{IsSync};
ghost use Rattle.k42_crews.specs.Ready.{IsFree, IsIn};
ghost use Rattle.waiting_tests.specs.Ready.{IsInRow, IsSwapping};

use crate::tests::shut::find_done;
use crate::tests::steps::{ask, go_home};
use crate::tests::table::{end_call, let_go};
use co_system::{Pass, Swap, System};
use crossbeam_utils::Backoff;
use k42_kinds::{Op, Reply};
use std::alloc::Global;
use std::process::Abort;
use std::sync::Wait;
use std::sync::atomic::{AtomicU32, Ordering};
use std::thread::{Threads, join_mut};

/// Adds 5, and tells that it is about to.
fn add_told<R: Abort + Wait>(
    rt: &R,
    alloc: Global,
    system: &System,
    pass: &mut Pass,
    told: &AtomicU32,
)
    requires inside { IsIn system.now pass.old }
    ensures inside { IsIn system.now pass.new }
{
    told.store(1, Ordering::SeqCst);
    ask(rt, alloc, system, pass, Op::Add(5), Reply::Done);
}

/// Finds 0, and tells that it is about to look.
fn get_told<R: Abort + Wait>(
    rt: &R,
    alloc: Global,
    system: &System,
    pass: &mut Pass,
    told: &AtomicU32,
)
    requires inside { IsIn system.now pass.old }
    ensures inside { IsIn system.now pass.new }
{
    told.store(1, Ordering::SeqCst);
    ask(rt, alloc, system, pass, Op::Get, Reply::Number(0));
}

/// Waits until the call is under way, and so long that it is held up.
fn let_it_wait(rt: &impl Wait, told: &AtomicU32) {
    let backoff = Backoff::new();
    for _ in rt.forever() {
        if told.load(Ordering::SeqCst) == 1 {
            break;
        }
        backoff.snooze();
    }
    for _ in 0..10_000 {
        backoff.snooze();
    }
}

/// Lets the cell go once another waits for it.
fn let_go_late<R: Wait>(rt: &R, system: &System, pass: &mut Pass, cell: u32, told: &AtomicU32)
    requires served { IsInRow system.now (cell ∷ []) pass.old }
    requires few { cell < 256 }
    ensures inside { IsIn system.now pass.new }
{
    let_it_wait(rt, told);
    let_go(system, pass, cell);
    end_call(system, pass);
}

/// One pass adds while another holds the cell.
pub(super) fn add_at_a_held_cell<R: Abort + Threads + Wait + Sync>(
    rt: &R,
    alloc: Global,
    system: &System,
    zero: &mut Pass,
    one: &mut Pass,
    cell: u32,
)
    requires zero { IsIn system.now zero.old }
    requires one { IsInRow system.now (cell ∷ []) one.old }
    requires few { cell < 256 }
    ensures zero { IsIn system.now zero.new }
    ensures one { IsIn system.now one.new }
{
    let told = &AtomicU32::new(0);
    let mut adds = || -> ()
        requires { IsSync R.row × IsIn system.now zero.now }
        ensures { IsIn system.entry.now zero.exit.now }
    { add_told(rt, alloc, system, zero, told) };
    let mut lets_go = || -> ()
        requires { IsSync R.row × IsInRow system.now (cell ∷ []) one.now × (cell < 256) }
        ensures { IsIn system.entry.now one.exit.now }
    { let_go_late(rt, system, one, cell, told) };
    join_mut(rt, &mut adds, &mut lets_go);
}

/// Ends the call for which the swap waits, and the swap, once another call waits for that.
fn open_late<R: Abort + Wait>(
    rt: &R,
    alloc: Global,
    system: &System,
    one: &mut Pass,
    two: &mut Pass,
    swap: &mut Swap,
    told: &AtomicU32,
)
    requires one { IsSwapping system.now swap.old one.old }
    requires two { IsInRow system.now [] two.old }
    ensures one { IsFree system.now one.new }
    ensures two { IsFree system.now two.new }
{
    let_it_wait(rt, told);
    end_call(system, two);
    go_home(system, two);
    find_done(rt, alloc, system, one, swap);
}

/// One pass asks an object that the swap of a second one keeps shut, for a third one that is inside.
pub(super) fn get_at_a_shut_object<R: Abort + Threads + Wait + Sync>(
    rt: &R,
    alloc: Global,
    system: &System,
    zero: &mut Pass,
    one: &mut Pass,
    two: &mut Pass,
    swap: &mut Swap,
)
    requires zero { IsIn system.now zero.old }
    requires one { IsSwapping system.now swap.old one.old }
    requires two { IsInRow system.now [] two.old }
    ensures zero { IsIn system.now zero.new }
    ensures one { IsFree system.now one.new }
    ensures two { IsFree system.now two.new }
{
    let told = &AtomicU32::new(0);
    let mut gets = || -> ()
        requires { IsSync R.row × IsIn system.now zero.now }
        ensures { IsIn system.entry.now zero.exit.now }
    { get_told(rt, alloc, system, zero, told) };
    let mut opens = || -> ()
        requires { IsSync R.row × IsSwapping system.now swap.now one.now × IsInRow system.now [] two.now }
        ensures { IsFree system.entry.now one.exit.now × IsFree system.entry.now two.exit.now }
    { open_late(rt, alloc, system, one, two, swap, told) };
    join_mut(rt, &mut gets, &mut opens);
}
