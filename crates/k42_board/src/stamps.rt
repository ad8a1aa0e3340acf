//! The stamp that a draw bears.
ghost use Rattle.std.specs.Prelude.{◌≡◌, ◌≤◌, ◌+◌, max};
ghost use Rattle.k42_board.specs.Drawing.{last_told};
ghost use Rattle.k42_limits.specs.declared.TheConstants.{LAST_STAMP};

use crate::cell::Content;

/// The greatest last stamp that these cells tell.
pub fn last_at<P: Drop, O, R>(cells: &[Content<P, O, R>]) -> u64
    ensures told { result ≡ last_told cells.now }
    ensures small { result ≤ LAST_STAMP }
{
    match cells.split_first() {
        Some((cell, others)) => cell.last.max(last_at(others)),
        None => 0,
    }
}

/// One more than the clock of a pass, and than the last stamps of cells.
#[inline(always)]
pub fn stamp_after(clock: u64, at_cells: u64) -> u64
    requires { (clock ≤ LAST_STAMP) × (at_cells ≤ LAST_STAMP) }
    ensures { result ≡ max clock at_cells + 1 }
{
    clock.max(at_cells) + 1
}
