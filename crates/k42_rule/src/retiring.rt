//! Rows are handed on and taken in.
ghost use Rattle.std.specs.Prelude.{◌≡◌, ◌<◌, ◌≤◌, true, false, length, OnOk, OnErr};
ghost use Rattle.k42_board.specs.Queueing.{MOST_ROWS, HasPushed, HasPopped};
ghost use Rattle.k42_board.specs.Seen.{IsPassOf, IsSamePass};

use crate::pass::Pass;
use crate::sys::Sys;
use k42_board::{Pop, Push, Slip, name_newest, take_back, take_in};
use k42_kinds::Layout;
use k42_memory::Memory;
use std::sync::Wait;

/// Hands on the newest row that the pass holds. Where there is no memory it holds the row as before.
pub fn push_row<L: Layout, R: Wait>(rt: &R, sys: &Sys<L>, pass: &mut Pass<L>) -> Result<(), Memory>
    requires ours { IsPassOf sys.now pass.old }
    requires holds { 0 < length pass.old.view.rows }
    ensures ok { OnOk result (HasPushed pass.old pass.new) }
    ensures err { OnErr result (IsSamePass pass.old pass.new × (pass.new.view ≡ pass.old.view)) }
{
    let seat = name_newest(&sys.board, &mut pass.seat);
    let row = pass.rows.take_last();
    // Whether the row is granted, and so are all others.
    let granted = pass.granted > pass.rows.len();
    pass.granted = pass.granted.min(pass.rows.len());
    let slip = Slip::of(row, seat);
    let Err(slip) = sys.lane.line.push_as::<Push, R>(rt, &mut pass.post, slip) else {
        return Ok(());
    };
    let (row, seat) = slip.into_parts();
    take_back(&sys.board, &mut pass.seat, seat, granted);
    pass.rows.push_reserved(row);
    pass.granted += usize::from(granted);
    Err(Memory)
}

/// Takes in the row at the front of the queue, and answers false where the queue was empty; no clause says that it was.
pub fn pop_row<L: Layout, R: Wait>(rt: &R, sys: &Sys<L>, pass: &mut Pass<L>) -> bool
    requires ours { IsPassOf sys.now pass.old }
    requires room { 2 ≤ pass.old.row_room }
    ensures popped { result ≡ true → HasPopped pass.old pass.new }
    ensures few { result ≡ true → length pass.new.view.rows ≤ MOST_ROWS }
    ensures empty { result ≡ false → IsSamePass pass.old pass.new × (pass.new.view ≡ pass.old.view) }
{
    let Some(slip) = sys.lane.line.pop_as::<Pop, R>(rt, &mut pass.post) else {
        return false;
    };
    let (row, seat) = slip.into_parts();
    take_in(&sys.board, &mut pass.seat, seat);
    pass.rows.push_reserved(row);
    true
}
