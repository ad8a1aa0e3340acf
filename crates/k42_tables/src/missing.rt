//! The handler of a miss.
ghost use Rattle.std.specs.Prelude.{◌≡◌, length, IfOk, OnErr};
ghost use Rattle.k42_board.specs.Seen.{IsPassOf, IsSamePass};
ghost use Rattle.k42_board.specs.Stepping.{AlwaysIn, layouts_in};
ghost use Rattle.k42_tables.specs.Entries.{EndsAt, IfInstalled, IfFilled, IfHeld};
ghost use Rattle.k42_tables.specs.Missing.{MayMiss, filled_in, HasFilled, HasGivenUp, IsHeldUp, HasFoundHeld, HasFilledAtLast, HasGivenUpAtLast};
ghost use Rattle.k42_tables.specs.Serving.{IsServed};

use crate::answers::{Filled, Tried};
use crate::filling::represent;
use crate::laws::cells_inside_are_open;
use crate::roots::Root;
use crossbeam_utils::Backoff;
use k42_board::{cell_number, empty_word, incarnation_in, layout_in};
use k42_kinds::Layout;
use k42_memory::Memory;
use k42_rule::{Pass, Sys, end_call, install_step, lock, root_step, rows_inside_are_present};
use std::alloc::Global;
use std::sync::Wait;

/// What the word tells that was found where the entry of the row was empty.
fn filled_at(row: u32, cell: u32, word: u64) -> Filled
    ensures { result ≡ filled_in row cell word }
{
    if word == empty_word(row) {
        Filled::Installed { cell }
    } else {
        Filled::Elsewhere { word }
    }
}

/// One try. Where another caller holds the cell, the pass is still in its call.
fn try_fill<L: Layout>(
    alloc: Global,
    sys: &Sys<L>,
    pass: &mut Pass<L>,
    object: u32,
) -> Result<Tried, Memory>
    requires ours { IsPassOf sys.now pass.old }
    requires may { MayMiss (length sys.now.layouts) object pass.old.view }
    ensures same { IsSamePass pass.old pass.new }
    ensures filled { IfOk result (λ tried. IfFilled tried (HasFilled (layouts_in L.Layout sys.now) sys.now.layouts pass.old.seat object pass.old.view pass.new.view)) }
    ensures there { IfOk result (λ tried. IfFilled tried (λ answer. EndsAt answer object pass.new.view.visitor.place)) }
    ensures served { IfOk result (λ tried. IfFilled tried (λ answer. IfInstalled answer (λ cell. AlwaysIn L.Layout sys.now pass.new (IsServed object cell pass.new.view)))) }
    ensures held { IfOk result (λ tried. IfHeld tried (IsHeldUp object pass.old.view pass.new.view)) }
    ensures memory { OnErr result (HasGivenUp object pass.old.view pass.new.view) }
{
    rows_inside_are_present(sys);
    cells_inside_are_open(sys);
    let _objects = sys.objects();
    let _procs = sys.procs();
    let word = root_step(sys, pass, object);
    let (row, tag) = (incarnation_in(word), layout_in(word));
    let layout = sys.declared(object).with_tag(tag);
    let place = layout.shape().cell_for(pass.processor());
    let cell = cell_number(object, row, place);
    let holder = lock(sys, pass, cell);
    if holder > 0 {
        return Ok(Tried::Held {
            holder: holder as u32 - 1,
        });
    }
    let Ok(()) = represent(alloc, sys, pass, cell, place, &layout) else {
        end_call(sys, pass);
        return Err(Memory);
    };
    let found = install_step(sys, pass, object, place);
    Ok(Tried::Filled(filled_at(row, place, found)))
}

/// Asks the root at which cell its processor is served, makes the representative there if there is none, and leads the
/// entry to it. Waits while another caller holds the cell.
pub fn miss<L: Layout, R: Wait>(
    rt: &R,
    alloc: Global,
    sys: &Sys<L>,
    pass: &mut Pass<L>,
    object: u32,
) -> Result<Filled, Memory>
    requires ours { IsPassOf sys.now pass.old }
    requires may { MayMiss (length sys.now.layouts) object pass.old.view }
    ensures same { IsSamePass pass.old pass.new }
    ensures filled { IfOk result (HasFilledAtLast (layouts_in L.Layout sys.now) sys.now.layouts pass.old.seat object pass.old.view pass.new.view) }
    ensures there { IfOk result (λ answer. EndsAt answer object pass.new.view.visitor.place) }
    ensures served { IfOk result (λ answer. IfInstalled answer (λ cell. AlwaysIn L.Layout sys.now pass.new (IsServed object cell pass.new.view))) }
    ensures memory { OnErr result (HasGivenUpAtLast object pass.old.view pass.new.view) }
{
    let backoff = Backoff::new();
    for _ in rt.forever() {
        match try_fill(alloc, sys, pass, object)? {
            Tried::Filled(answer) => return Ok(answer),
            Tried::Held { .. } => backoff.snooze(),
        }
    }
    unreachable!()
}

/// The same without a wait: where another caller holds the cell, the call is over.
pub fn try_miss<L: Layout>(
    alloc: Global,
    sys: &Sys<L>,
    pass: &mut Pass<L>,
    object: u32,
) -> Result<Tried, Memory>
    requires ours { IsPassOf sys.now pass.old }
    requires may { MayMiss (length sys.now.layouts) object pass.old.view }
    ensures same { IsSamePass pass.old pass.new }
    ensures filled { IfOk result (λ tried. IfFilled tried (HasFilled (layouts_in L.Layout sys.now) sys.now.layouts pass.old.seat object pass.old.view pass.new.view)) }
    ensures there { IfOk result (λ tried. IfFilled tried (λ answer. EndsAt answer object pass.new.view.visitor.place)) }
    ensures served { IfOk result (λ tried. IfFilled tried (λ answer. IfInstalled answer (λ cell. AlwaysIn L.Layout sys.now pass.new (IsServed object cell pass.new.view)))) }
    ensures held { IfOk result (λ tried. IfHeld tried (HasFoundHeld object pass.old.view pass.new.view)) }
    ensures memory { OnErr result (HasGivenUp object pass.old.view pass.new.view) }
{
    let tried = try_fill(alloc, sys, pass, object)?;
    if let Tried::Held { .. } = tried {
        end_call(sys, pass);
    }
    Ok(tried)
}
