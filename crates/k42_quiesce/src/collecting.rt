//! Rows are handed over to whoever collects them.
ghost use Rattle.std.specs.Prelude.{◌≡◌, ◌<◌, List, [], length, OnOk, OnErr};
ghost use Rattle.k42_board.specs.Seen.{IsPassOf};
ghost use Rattle.k42_board.specs.declared.view.Row.{Row};
ghost use Rattle.k42_quiesce.specs.Collecting.{HasHandedOver, HasCollected};

use k42_kinds::Layout;
use k42_memory::Memory;
use k42_rule::{Pass, Sys, pop_row, push_row};
use std::sync::Wait;

/// Pushes the rows that the pass holds, the newest first. Where there is no memory for one, it and the older ones stay.
pub fn hand_over<L: Layout, R: Wait>(rt: &R, sys: &Sys<L>, pass: &mut Pass<L>) -> Result<(), Memory>
    requires ours { IsPassOf sys.now pass.old }
    ensures handed { HasHandedOver pass.old pass.new }
    ensures ok { OnOk result (pass.new.view.rows ≡ []) }
    ensures err { OnErr result (0 < length pass.new.view.rows) }
{
    while !pass.rows().is_empty() {
        push_row(rt, sys, pass)?;
    }
    Ok(())
}

/// Pops rows for the pass, and answers how many. It goes on until a pop finds no row, or the pass has room for one row at
/// most; no clause says that.
pub fn collect<L: Layout, R: Wait>(rt: &R, sys: &Sys<L>, pass: &mut Pass<L>) -> u32
    requires ours { IsPassOf sys.now pass.old }
    ensures collected { (rows : List Row) × (result ≡ length rows) × HasCollected rows pass.old pass.new }
{
    let mut count: u32 = 0;
    while pass.row_room() > 1 && pop_row(rt, sys, pass) {
        count += 1;
    }
    count
}
