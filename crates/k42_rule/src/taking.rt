//! The steps of a call on cells.
ghost use Rattle.std.specs.Prelude.{◌≡◌, ◌≢◌, None, IfSome, IsSomeAnd};
ghost use Rattle.k42_board.specs.Protocol as protocol;
ghost use Rattle.k42_board.specs.Seen.{IsOf};
ghost use Rattle.k42_board.specs.Stepping.{MayStep, HasStepped, HasDone, HasMoved, AlwaysIn, layouts_in};
ghost use Rattle.k42_board.specs.Taking.{HoldsHome, MayPut, IsWhole, AreRowsNoted};

use crate::pass::Pass;
use crate::sys::Sys;
use k42_board::{Cell, lock_cell, lock_cell_quietly, put_cell, take_cell, unlock_cell};
use k42_kinds::Layout;
use std::marker::Brand;

/// Takes the lock of a cell, where it is free.
pub fn lock<L: Layout>(sys: &Sys<L>, pass: &mut Pass<L>, cell: u32) -> u64
    requires { MayStep L.Layout sys.now (protocol.lock cell) pass.old }
    ensures { HasStepped L.Layout sys.now (protocol.lock cell) pass.old result pass.new }
{
    let number = pass.number;
    lock_cell(&sys.board, &mut pass.seat, cell as usize, number)
}

/// Tries to take the lock of a cell, as `lock` does. Where another caller has it, the log tells nothing of the try.
pub fn lock_quietly<L: Layout>(sys: &Sys<L>, pass: &mut Pass<L>, cell: u32) -> u64
    requires { MayStep L.Layout sys.now (protocol.lock_quietly cell) pass.old }
    ensures stepped { HasStepped L.Layout sys.now (protocol.lock_quietly cell) pass.old result pass.new }
    ensures free { result ≡ 0 → HasStepped L.Layout sys.now (protocol.lock cell) pass.old 0 pass.new }
    ensures held { result ≢ 0 → pass.new ≡ pass.old }
{
    let number = pass.number;
    lock_cell_quietly(&sys.board, &mut pass.seat, cell as usize, number)
}

/// Leaves the lock of a cell that is in its place.
pub fn unlock<L: Layout>(sys: &Sys<L>, pass: &mut Pass<L>, cell: u32)
    requires { MayStep L.Layout sys.now (protocol.unlock cell) pass.old }
    ensures { HasDone L.Layout sys.now (protocol.unlock cell) pass.old pass.new }
{
    unlock_cell(&sys.board, &mut pass.seat, cell as usize);
}

/// Takes a cell out of its slot, to where room for it was lent. The first move of the slot is the Take, the second is no
/// event.
#[inline(always)]
pub fn take_into<L: Layout>(sys: &Sys<L>, pass: &mut Pass<L>, cell: u32, held: &mut Option<Cell<L>>)
    requires ours { IsOf sys.now pass.old }
    requires free { held.old ≡ None }
    requires may { HoldsHome cell pass.old.view }
    ensures number { IsSomeAnd held.new (λ content. content.number ≡ cell) }
    ensures moved { IfSome held.new (λ content. HasMoved L.Layout sys.now (protocol.lift cell content) (protocol.give_back cell) pass.old pass.new) }
    ensures whole { IfSome held.new (λ content. AlwaysIn L.Layout sys.now pass.new (IsWhole (layouts_in L.Layout sys.now) sys.now.layouts cell content)) }
    ensures row { AreRowsNoted (layouts_in L.Layout sys.now) sys.now.layouts pass.new.view }
{
    take_cell::<L, Brand>(&sys.board, &mut pass.seat, cell as usize, held);
}

/// The same, where the cell is to be moved on.
pub fn take<L: Layout>(sys: &Sys<L>, pass: &mut Pass<L>, cell: u32) -> Cell<L>
    requires ours { IsOf sys.now pass.old }
    requires may { HoldsHome cell pass.old.view }
    ensures number { result.number ≡ cell }
    ensures moved { HasMoved L.Layout sys.now (protocol.lift cell result) (protocol.give_back cell) pass.old pass.new }
    ensures whole { AlwaysIn L.Layout sys.now pass.new (IsWhole (layouts_in L.Layout sys.now) sys.now.layouts cell result) }
    ensures row { AreRowsNoted (layouts_in L.Layout sys.now) sys.now.layouts pass.new.view }
{
    let mut held = None;
    take_into(sys, pass, cell, &mut held);
    let Some(content) = held else { unreachable!() };
    content
}

/// Puts the cell that is held back. The first move of the slot is no event, the second is the Put.
#[inline(always)]
pub fn put_from<L: Layout>(sys: &Sys<L>, pass: &mut Pass<L>, cell: u32, held: &mut Option<Cell<L>>)
    requires ours { IsOf sys.now pass.old }
    requires may { IsSomeAnd held.old (λ content. MayPut (layouts_in L.Layout sys.now) sys.now.layouts pass.old.seat cell content pass.old.view) }
    ensures none { held.new ≡ None }
    ensures put { IfSome held.old (λ content. HasMoved L.Layout sys.now (protocol.reach cell) (protocol.put cell content) pass.old pass.new) }
{
    put_cell(&sys.board, &mut pass.seat, cell as usize, held);
}

/// Puts a cell back.
pub fn put<L: Layout>(sys: &Sys<L>, pass: &mut Pass<L>, cell: u32, content: Cell<L>)
    requires ours { IsOf sys.now pass.old }
    requires may { MayPut (layouts_in L.Layout sys.now) sys.now.layouts pass.old.seat cell content pass.old.view }
    ensures { HasMoved L.Layout sys.now (protocol.reach cell) (protocol.put cell content) pass.old pass.new }
{
    let mut held = Some(content);
    put_from(sys, pass, cell, &mut held);
}
