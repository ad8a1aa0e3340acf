//! The cells of rows that were freed.
ghost use Rattle.std.specs.Prelude.{◌≡◌, ◌<◌, ◌≤◌, true};
ghost use Rattle.k42_stamp.specs.Laws.{AreLaws};
ghost use Rattle.k42_joined.specs.Numbers.{cell_of};
ghost use Rattle.k42_joined.specs.Swapping.{holds_none};
ghost use Rattle.k42_joined.specs.Touching.{is_freeing};
ghost use Rattle.k42_board.specs.Seen.{IsPassOf, IsSamePass};
ghost use Rattle.k42_board.specs.Stepping.{layouts_in};
ghost use Rattle.k42_quiesce.specs.Reclaiming.{emptied_view, row_emptied_view};

use k42_board::cell_number;
use k42_kinds::Layout;
use k42_rule::{Pass, Sys, lock, put, take, unlock};

/// Drops the part of a cell. Nobody else has its lock, so this does not wait.
fn empty_cell<L: Layout>(sys: &Sys<L>, pass: &mut Pass<L>, object: u32, row: u32, place: u32)
    requires ours { IsPassOf sys.now pass.old }
    requires laws { AreLaws (layouts_in L.Layout sys.now) }
    requires there { (object < 16) × (place < sys.now.procs) × (sys.now.procs ≤ 8) }
    requires freed { is_freeing pass.old.view.visitor.freeing object row ≡ true }
    requires free { holds_none pass.old.view.taker.held ≡ true }
    ensures same { IsSamePass pass.old pass.new }
    ensures knows { pass.new.view ≡ emptied_view (cell_of object row place) pass.old.view }
{
    let cell = cell_number(object, row, place);
    lock(sys, pass, cell);
    let mut content = take(sys, pass, cell);
    content.take_part();
    put(sys, pass, cell, content);
    unlock(sys, pass, cell);
}

/// Drops the parts of a row.
pub(crate) fn empty_row<L: Layout>(sys: &Sys<L>, pass: &mut Pass<L>, object: u32, row: u32)
    requires ours { IsPassOf sys.now pass.old }
    requires laws { AreLaws (layouts_in L.Layout sys.now) }
    requires there { (object < 16) × (0 < sys.now.procs) }
    requires freed { is_freeing pass.old.view.visitor.freeing object row ≡ true }
    requires free { holds_none pass.old.view.taker.held ≡ true }
    ensures same { IsSamePass pass.old pass.new }
    ensures knows { pass.new.view ≡ row_emptied_view sys.now.procs object row pass.old.view }
{
    for place in 0..sys.procs() {
        empty_cell(sys, pass, object, row, place);
    }
}
