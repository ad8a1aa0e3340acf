//! Calls that stay inside a row, made at the table of a system.
ghost use Rattle.std.specs.Prelude.{◌<◌, [], ◌∷◌};
ghost use Rattle.k42_crews.specs.Ready.{IsIn};
ghost use Rattle.waiting_tests.specs.Ready.{IsInRow};

use co_system::{Pass, System};
use k42_mediator::{Knocked, knock};
use k42_rule::{lock, unlock};
use k42_tables::{Entered, finish_call, look_up};
use std::process::Abort;

/// Gets inside the present row of an object by the mediator, which counts the caller.
pub(super) fn knock_in(rt: &impl Abort, system: &System, pass: &mut Pass, object: u32)
    requires inside { IsIn system.now pass.old }
    ensures served { IsInRow system.now [] pass.new }
{
    assert!(rt; object < system.table().objects());
    let Entered::Mediated = look_up(system.table(), pass, object) else {
        panic!(rt; "no mediator")
    };
    let Knocked::Admitted { .. } = knock(system.table(), pass, object) else {
        panic!(rt; "not let in")
    };
}

/// Gets inside the row of an object that the pass has called before.
fn look_in(rt: &impl Abort, system: &System, pass: &mut Pass, object: u32)
    requires inside { IsIn system.now pass.old }
    ensures served { IsInRow system.now [] pass.new }
{
    assert!(rt; object < system.table().objects());
    let Entered::Direct { .. } = look_up(system.table(), pass, object) else {
        panic!(rt; "no direct entry")
    };
}

/// Takes the lock of the first cell of the row that the pass is inside, and answers the number of the cell.
fn hold_first(rt: &impl Abort, system: &System, pass: &mut Pass) -> u32
    requires served { IsInRow system.now [] pass.old }
    ensures served { IsInRow system.now (result ∷ []) pass.new }
    ensures few { result < 256 }
{
    let inside = pass.inside();
    let cell = (inside.object * 2 + inside.incarnation % 2) * 8;
    if lock(system.table(), pass, cell) != 0 {
        panic!(rt; "another has the cell")
    }
    cell
}

/// Gets inside the row of an object that the pass has called before, and holds its first cell.
pub(super) fn hold_cell(rt: &impl Abort, system: &System, pass: &mut Pass, object: u32) -> u32
    requires inside { IsIn system.now pass.old }
    ensures served { IsInRow system.now (result ∷ []) pass.new }
    ensures few { result < 256 }
{
    look_in(rt, system, pass, object);
    hold_first(rt, system, pass)
}

/// Leaves the lock of the one cell that the pass holds.
pub(super) fn let_go(system: &System, pass: &mut Pass, cell: u32)
    requires served { IsInRow system.now (cell ∷ []) pass.old }
    requires few { cell < 256 }
    ensures served { IsInRow system.now [] pass.new }
{
    unlock(system.table(), pass, cell);
}

/// Ends the call.
pub(super) fn end_call(system: &System, pass: &mut Pass)
    requires served { IsInRow system.now [] pass.old }
    ensures inside { IsIn system.now pass.new }
{
    finish_call(system.table(), pass);
}
