//! A cell that one pass holds, and a call that finds it held.
ghost use Rattle.std.specs.Prelude.{◌<◌, [], ◌∷◌};
ghost use Rattle.k42_crews.specs.Ready.{IsFree, IsIn};
ghost use Rattle.waiting_tests.specs.Ready.{IsCallOf, IsInRow};

use crate::tests::steps::{ask, come_in, find_answered, find_held_up, go_home};
use crate::tests::table::{end_call, hold_cell, let_go};
use co_system::{Call, CallCause, Pass, System};
use k42_kinds::{Op, Reply};
use std::alloc::Global;
use std::process::Abort;
use std::sync::Wait;

/// Calls once, and then holds the cell.
pub(super) fn hold<R: Abort + Wait>(rt: &R, alloc: Global, system: &System, pass: &mut Pass) -> u32
    requires free { IsFree system.now pass.old }
    ensures served { IsInRow system.now (result ∷ []) pass.new }
    ensures few { result < 256 }
{
    come_in(system, pass);
    ask(rt, alloc, system, pass, Op::Get, Reply::Number(0));
    hold_cell(rt, system, pass, 0)
}

/// A call finds the cell held by the second pass, and is answered once that has let it go.
pub(super) fn wait_for_cell(
    rt: &impl Abort,
    alloc: Global,
    system: &System,
    zero: &mut Pass,
    one: &mut Pass,
    cell: u32,
    add: &mut Call,
)
    requires zero { IsFree system.now zero.old }
    requires one { IsInRow system.now (cell ∷ []) one.old }
    requires few { cell < 256 }
    requires asked { IsCallOf system.now add.old }
    ensures zero { IsFree system.now zero.new }
    ensures one { IsIn system.now one.new }
{
    come_in(system, zero);
    let held = CallCause::CellHeld { holder: 1 };
    find_held_up(rt, alloc, system, zero, add, held);
    let_go(system, one, cell);
    find_answered(rt, alloc, system, zero, add, Reply::Done);
    end_call(system, one);
    go_home(system, zero);
}

/// Finds what was added.
pub(super) fn see_added<R: Abort + Wait>(rt: &R, alloc: Global, system: &System, pass: &mut Pass)
    requires inside { IsIn system.now pass.old }
    ensures free { IsFree system.now pass.new }
{
    ask(rt, alloc, system, pass, Op::Get, Reply::Number(5));
    go_home(system, pass);
}
