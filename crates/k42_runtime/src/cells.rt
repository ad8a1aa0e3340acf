//! Cells of the row that a call is inside are taken, and given back.
ghost use Rattle.std.specs.Prelude.{◌≡◌, ◌<◌, ◌≤◌, ◌+◌, false, None, [], ◌∷◌, vec_len, vec_capacity, is_some, IsSomeAnd};
ghost use Rattle.phase_core.specs.Stages.{IsInside};
ghost use Rattle.turn_core.specs.Names.{names};
ghost use Rattle.k42_joined.specs.Numbers.{row_cells};
ghost use Rattle.k42_board.specs.Drawing.{numbers_of};
ghost use Rattle.k42_board.specs.Log.{ComesTo};
ghost use Rattle.k42_board.specs.Protocol as protocol;
ghost use Rattle.k42_board.specs.Seen.{IsOf, IsSamePass};
ghost use Rattle.k42_board.specs.Stepping as stepping;
ghost use Rattle.k42_board.specs.Stepping.{layouts_in};
ghost use Rattle.k42_board.specs.Taking.{MayLock, TouchesInside};
ghost use Rattle.k42_mediator.specs.Taken.{released, AreTaken, MayPutBack};
ghost use Rattle.k42_runtime.specs.Reaching.{TakesNext, Takes, MayGiveBack};

use crossbeam_utils::Backoff;
use k42_board::cell_number;
use k42_kinds::Layout;
use k42_rule::{Cell, Pass, Sys, layouts_are_lawful, lock, lock_quietly, put_from, take, unlock};

/// How often a call at several cells tries the lock of one, before it gives back the cells that it has: another caller has
/// a lock for a part of a call, and takes it again soon.
const TRIES: u32 = 32;

/// Takes the lock of a cell, or answers what `lock` does. The last of its tries alone is in the log.
fn lock_patiently<L: Layout>(sys: &Sys<L>, pass: &mut Pass<L>, number: u32) -> u64
    requires ours { IsOf sys.now pass.old }
    requires may { MayLock sys.now.procs number pass.old.view }
    ensures same { IsSamePass pass.old pass.new }
    ensures takes { stepping.Takes (layouts_in L.Layout sys.now) sys.now.layouts (protocol.lock number) pass.old.seat pass.old.view result pass.new.view }
{
    let backoff = Backoff::new();
    for _ in 0..TRIES {
        if lock_quietly(sys, pass, number) == 0 {
            return 0;
        }
        backoff.spin();
    }
    lock(sys, pass, number)
}

/// Takes a cell, or answers which caller has it.
fn take_next<L: Layout>(
    sys: &Sys<L>,
    pass: &mut Pass<L>,
    number: u32,
    cells: &mut Vec<Cell<L>>,
) -> Option<u32>
    requires ours { IsOf sys.now pass.old }
    requires few { number < 256 }
    requires inside { TouchesInside sys.now.procs number pass.old.view }
    requires room { vec_len cells.old < vec_capacity cells.old }
    requires held { pass.old.view.taker.held ≡ numbers_of cells.old.items }
    requires another { names (numbers_of cells.old.items) number ≡ false }
    requires taken { AreTaken pass.old.view.notes cells.old.items }
    ensures same { IsSamePass pass.old pass.new }
    ensures capacity { vec_capacity cells.new ≡ vec_capacity cells.old }
    ensures len { is_some result ≡ false → vec_len cells.new ≡ vec_len cells.old + 1 }
    ensures takes { TakesNext (layouts_in L.Layout sys.now) sys.now.layouts result number pass.old.view pass.new.view cells.old.items cells.new.items }
{
    let found = lock_patiently(sys, pass, number);
    if found != 0 {
        return Some((found - 1) as u32);
    }
    let cell = take(sys, pass, number);
    cells.push_reserved(cell);
    None
}

/// Takes all cells of a row, in rising order. Where another caller has one of them, it answers which caller, and those
/// before it are taken.
pub(crate) fn take_row<L: Layout>(
    sys: &Sys<L>,
    pass: &mut Pass<L>,
    object: u32,
    row: u32,
    cells: &mut Vec<Cell<L>>,
) -> Option<u32>
    requires ours { IsOf sys.now pass.old }
    requires some { 0 < sys.now.procs }
    requires few { object < 16 }
    requires inside { IsInside pass.old.view.visitor.place object row }
    requires room { sys.now.procs ≤ vec_capacity cells.old }
    requires none { cells.old.items ≡ [] }
    requires held { pass.old.view.taker.held ≡ [] }
    ensures same { IsSamePass pass.old pass.new }
    ensures takes { Takes (layouts_in L.Layout sys.now) sys.now.layouts result object (row_cells sys.now.procs object row) pass.old.view pass.new.view cells.new.items }
    ensures may { MayGiveBack (layouts_in L.Layout sys.now) sys.now.layouts pass.new.seat pass.new.view cells.new.items }
{
    layouts_are_lawful(sys);
    let _home = pass.processor();
    let procs = sys.procs();
    for place in 0..procs {
        if let Some(holder) = take_next(sys, pass, cell_number(object, row, place), cells) {
            return Some(holder);
        }
    }
    None
}

/// Puts the cell that is held back, and leaves its lock.
#[inline(always)]
pub(crate) fn give_held<L: Layout>(
    sys: &Sys<L>,
    pass: &mut Pass<L>,
    number: u32,
    held: &mut Option<Cell<L>>,
)
    requires ours { IsOf sys.now pass.old }
    requires number { IsSomeAnd held.old (λ cell. cell.number ≡ number) }
    requires ready { IsSomeAnd held.old (MayPutBack (layouts_in L.Layout sys.now) sys.now.layouts pass.old.seat pass.old.view) }
    ensures same { IsSamePass pass.old pass.new }
    ensures comes { ComesTo pass.old.view (released (number ∷ []) pass.old.view) pass.new.view }
{
    put_from(sys, pass, number, held);
    unlock(sys, pass, number);
}

/// Puts one cell back, and leaves its lock.
fn give_next<L: Layout>(sys: &Sys<L>, pass: &mut Pass<L>, cell: Cell<L>)
    requires ours { IsOf sys.now pass.old }
    requires ready { MayPutBack (layouts_in L.Layout sys.now) sys.now.layouts pass.old.seat pass.old.view cell }
    ensures same { IsSamePass pass.old pass.new }
    ensures comes { ComesTo pass.old.view (released (cell.number ∷ []) pass.old.view) pass.new.view }
{
    let number = cell.number();
    give_held(sys, pass, number, &mut Some(cell));
}

/// Gives all cells back.
pub(crate) fn give_back<L: Layout>(sys: &Sys<L>, pass: &mut Pass<L>, mut cells: Vec<Cell<L>>)
    requires ours { IsOf sys.now pass.old }
    requires may { MayGiveBack (layouts_in L.Layout sys.now) sys.now.layouts pass.old.seat pass.old.view cells.items }
    ensures same { IsSamePass pass.old pass.new }
    ensures comes { ComesTo pass.old.view (released (numbers_of cells.items) pass.old.view) pass.new.view }
{
    while let Some(cell) = cells.pop() {
        give_next(sys, pass, cell);
    }
}
