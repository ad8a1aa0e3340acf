//! The state is handed over to a row of the new layout.
ghost use Rattle.std.specs.Prelude.{◌≡◌, ◌<◌, ◌≤◌, ◌+◌, ◌++◌, None, length, OnOk, OnErr};
ghost use Rattle.k42_shapes.specs.Shapes.{IsKnownTag};
ghost use Rattle.k42_limits.specs.declared.TheConstants.{LAST_INCARNATION, PASS_ENTRIES};
ghost use Rattle.phase_core.specs.declared.caller.SwapAt.TheVariants.{Moved};
ghost use Rattle.k42_joined.specs.Numbers.{row_cells};
ghost use Rattle.k42_board.specs.Drawing.{numbers_of};
ghost use Rattle.k42_board.specs.Seen.{HasRoom, IsPassOf};
ghost use Rattle.k42_board.specs.Steps.{Always};
ghost use Rattle.k42_board.specs.Stepping.{layouts_in};
ghost use Rattle.k42_board.specs.Swapping.{object_swapped};
ghost use Rattle.k42_board.specs.Taking.{AreRowsNoted};
ghost use Rattle.k42_board.specs.Values.{incarnation_in};
ghost use Rattle.k42_board.specs.Views.{word_begun};
ghost use Rattle.k42_board.specs.declared.view.PassView.{PassView};
ghost use Rattle.k42_mediator.specs.Swaps.{HasMoved};
ghost use Rattle.k42_mediator.specs.Taken.{AreTaken, MayPutAllBack};
ghost use Rattle.k42_mediator.specs.Transfers.{IsOfKind, IsVacant, HasHanded, HasDone, HasKept};

use crate::begun::moved_row;
use crate::parts::move_state;
use crate::rows::{give_back, take_row};
use k42_kinds::{Answer, Layout};
use k42_memory::Memory;
use k42_rule::{Cell, Pass, Row, Sys, draw_done, layouts_are_lawful};
use std::alloc::Global;

/// Moves the state of the old row, whose cells come first, into the new one, and closes the old one.
fn move_and_draw<L: Layout>(
    alloc: Global,
    sys: &Sys<L>,
    pass: &mut Pass<L>,
    to: &L,
    row: Row,
    cells: &mut Vec<Cell<L>>,
) -> Result<(), Memory>
    requires ours { IsPassOf sys.now pass.old }
    requires moved { pass.old.view.visitor.swap ≡ Moved row.object }
    requires row { row.incarnation ≡ incarnation_in (word_begun pass.old.view.last) }
    requires object { row.object < 16 }
    requires before { row.incarnation < LAST_INCARNATION }
    requires unhanded { pass.old.view.handed ≡ None }
    requires kind { IsOfKind L.object sys.now.layouts row.object to.now }
    requires known { IsKnownTag (L.shapes to.now) (L.tag_of to.now) }
    requires room { HasRoom pass.old }
    requires few { length pass.old.view.taker.mine < PASS_ENTRIES }
    requires numbers { numbers_of cells.old.items ≡ row_cells sys.now.procs row.object row.incarnation ++ row_cells sys.now.procs row.object (row.incarnation + 1) }
    requires held { pass.old.view.taker.held ≡ numbers_of cells.old.items }
    requires taken { AreTaken pass.old.view.notes cells.old.items }
    requires rows { AreRowsNoted (layouts_in L.Layout sys.now) sys.now.layouts pass.old.view }
    ensures numbers { numbers_of cells.new.items ≡ numbers_of cells.old.items }
    ensures seat { (pass.new.table ≡ pass.old.table) × (pass.new.seat ≡ pass.old.seat) }
    ensures back { pass.new.view.out ≡ pass.old.view.out }
    ensures ready { MayPutAllBack (layouts_in L.Layout sys.now) sys.now.layouts pass.new.seat pass.new.view cells.new.items }
    ensures handed { OnOk result (HasHanded (L.act_of to.now) (L.tag_of to.now) (numbers_of cells.old.items) pass.old pass.new) }
    ensures memory { OnErr result (pass.new ≡ pass.old) }
{
    layouts_are_lawful(sys);
    let layout = sys.declared(row.object).with_tag(pass.begun_layout());
    move_state(alloc, &layout, to, sys.procs(), cells.as_mut_slice())?;
    draw_done(sys, pass, cells, to, Answer::Swapped(row.incarnation + 1));
    Ok(())
}

/// Hands the state of the object over to a new row, and draws that the swap is done. Where there is no memory, the old
/// row is as it was, and the pass may try again or give up.
pub fn transfer<L: Layout>(
    alloc: Global,
    sys: &Sys<L>,
    pass: &mut Pass<L>,
    to: &L,
) -> Result<(), Memory>
    requires ours { IsPassOf sys.now pass.old }
    requires moved { HasMoved pass.old.view }
    requires kind { IsOfKind L.object sys.now.layouts (object_swapped pass.old.view) to.now }
    requires known { IsKnownTag (L.shapes to.now) (L.tag_of to.now) }
    requires room { HasRoom pass.old }
    requires few { length pass.old.view.taker.mine < PASS_ENTRIES }
    ensures left { (v : PassView L.Part L.Op L.Reply) → v.visitor ≡ pass.old.view.visitor
        → Always (layouts_in L.Layout sys.now) sys.now.layouts pass.old.seat v (IsVacant (object_swapped pass.old.view)) }
    ensures done { OnOk result (HasDone (L.act_of to.now) (L.tag_of to.now) pass.old pass.new) }
    ensures memory { OnErr result (HasKept pass.old pass.new) }
{
    let procs = sys.procs() as usize;
    let mut cells = Vec::with_capacity(alloc, 2 * procs)?;
    let row = moved_row::<L>(pass);
    take_row(sys, pass, row.object, row.incarnation, &mut cells);
    take_row(sys, pass, row.object, row.incarnation + 1, &mut cells);
    let done = move_and_draw(alloc, sys, pass, to, row, &mut cells);
    give_back(sys, pass, cells);
    done
}
