//! A pass that moves its object takes the cells of a row, and gives them back.
ghost use Rattle.std.specs.Prelude.{◌≡◌, ℕ, ◌<◌, ◌≤◌, ◌+◌, ◌++◌, true, false, None, [], ◌∷◌, vec_len, vec_capacity};
ghost use Rattle.k42_limits.specs.declared.TheConstants.{LAST_INCARNATION};
ghost use Rattle.turn_core.specs.Names.{names, names_once};
ghost use Rattle.k42_joined.specs.Numbers.{cell_of, row_cells};
ghost use Rattle.k42_joined.specs.Touching.{is_moving};
ghost use Rattle.k42_board.specs.Drawing.{numbers_of};
ghost use Rattle.k42_board.specs.Log.{ComesTo, Extends, with_log};
ghost use Rattle.k42_board.specs.Seen.{IsOf, IsSamePass};
ghost use Rattle.k42_board.specs.Stepping.{layouts_in};
ghost use Rattle.k42_board.specs.Taking.{AreRowsNoted, TouchesMoved};
ghost use Rattle.k42_mediator.specs.Taken.{released, AreTaken, MayPutBack, MayPutAllBack};

use k42_board::cell_number;
use k42_kinds::Layout;
use k42_rule::{Cell, Pass, Sys, lock, put, take, unlock};

/// Takes one cell of the object that it moves, whose lock is free.
fn take_next<L: Layout>(sys: &Sys<L>, pass: &mut Pass<L>, number: u32, cells: &mut Vec<Cell<L>>)
    requires ours { IsOf sys.now pass.old }
    requires few { number < 256 }
    requires moved { TouchesMoved sys.now.procs number pass.old.view }
    requires room { vec_len cells.old < vec_capacity cells.old }
    requires held { pass.old.view.taker.held ≡ numbers_of cells.old.items }
    requires another { names (numbers_of cells.old.items) number ≡ false }
    requires taken { AreTaken pass.old.view.notes cells.old.items }
    ensures same { IsSamePass pass.old pass.new }
    ensures capacity { vec_capacity cells.new ≡ vec_capacity cells.old }
    ensures len { vec_len cells.new ≡ vec_len cells.old + 1 }
    ensures numbers { numbers_of cells.new.items ≡ numbers_of cells.old.items ++ number ∷ [] }
    ensures back { pass.new.view.out ≡ None }
    ensures held { pass.new.view.taker.held ≡ numbers_of cells.new.items }
    ensures taken { AreTaken pass.new.view.notes cells.new.items }
    ensures released { released (numbers_of cells.new.items) pass.new.view ≡ with_log pass.new.view.log (released (numbers_of cells.old.items) pass.old.view) }
    ensures log { Extends pass.old.view.log pass.new.view.log }
    ensures rows { AreRowsNoted (layouts_in L.Layout sys.now) sys.now.layouts pass.new.view }
{
    lock(sys, pass, number);
    let cell = take(sys, pass, number);
    cells.push_reserved(cell);
}

/// Takes all cells of a row of the object that it moves, in rising order.
pub(crate) fn take_row<L: Layout>(
    sys: &Sys<L>,
    pass: &mut Pass<L>,
    object: u32,
    row: u32,
    cells: &mut Vec<Cell<L>>,
)
    requires ours { IsOf sys.now pass.old }
    requires some { 0 < sys.now.procs }
    requires few { object < 16 }
    requires moved { is_moving pass.old.view.visitor.swap object ≡ true }
    requires room { vec_len cells.old + sys.now.procs ≤ vec_capacity cells.old }
    requires held { pass.old.view.taker.held ≡ numbers_of cells.old.items }
    requires others { (place : ℕ) → place < sys.now.procs → names (numbers_of cells.old.items) (cell_of object row place) ≡ false }
    requires taken { AreTaken pass.old.view.notes cells.old.items }
    ensures same { IsSamePass pass.old pass.new }
    ensures capacity { vec_capacity cells.new ≡ vec_capacity cells.old }
    ensures len { vec_len cells.new ≡ vec_len cells.old + sys.now.procs }
    ensures numbers { numbers_of cells.new.items ≡ numbers_of cells.old.items ++ row_cells sys.now.procs object row }
    ensures back { pass.new.view.out ≡ None }
    ensures held { pass.new.view.taker.held ≡ numbers_of cells.new.items }
    ensures taken { AreTaken pass.new.view.notes cells.new.items }
    ensures released { released (numbers_of cells.new.items) pass.new.view ≡ with_log pass.new.view.log (released (numbers_of cells.old.items) pass.old.view) }
    ensures log { Extends pass.old.view.log pass.new.view.log }
    ensures rows { AreRowsNoted (layouts_in L.Layout sys.now) sys.now.layouts pass.new.view }
{
    let procs = sys.procs();
    for place in 0..procs {
        take_next(sys, pass, cell_number(object, row, place), cells);
    }
}

/// Puts one cell back, and leaves its lock.
pub(crate) fn give_next<L: Layout>(sys: &Sys<L>, pass: &mut Pass<L>, cell: Cell<L>)
    requires ours { IsOf sys.now pass.old }
    requires ready { MayPutBack (layouts_in L.Layout sys.now) sys.now.layouts pass.old.seat pass.old.view cell }
    ensures same { IsSamePass pass.old pass.new }
    ensures comes { ComesTo pass.old.view (released (cell.number ∷ []) pass.old.view) pass.new.view }
{
    let number = cell.number();
    put(sys, pass, number, cell);
    unlock(sys, pass, number);
}

/// Gives all cells back.
pub(crate) fn give_back<L: Layout>(sys: &Sys<L>, pass: &mut Pass<L>, mut cells: Vec<Cell<L>>)
    requires ours { IsOf sys.now pass.old }
    requires once { names_once (numbers_of cells.items) ≡ true }
    requires back { pass.old.view.out ≡ None }
    requires ready { MayPutAllBack (layouts_in L.Layout sys.now) sys.now.layouts pass.old.seat pass.old.view cells.items }
    ensures same { IsSamePass pass.old pass.new }
    ensures comes { ComesTo pass.old.view (released (numbers_of cells.items) pass.old.view) pass.new.view }
{
    while let Some(cell) = cells.pop() {
        give_next(sys, pass, cell);
    }
}
