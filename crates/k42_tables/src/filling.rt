//! Representatives, which are made on first use.
ghost use Rattle.std.specs.Prelude.{◌≡◌, ◌<◌, ◌≤◌, true, false, Some, None, unwrap_or, OnOk, OnErr};
ghost use Rattle.k42_shapes.specs.Shapes.{IsKnownTag};
ghost use Rattle.k42_limits.specs.declared.TheConstants.{PROCESSORS};
ghost use Rattle.k42_board.specs.Seen.{IsPassOf, IsSamePass};
ghost use Rattle.k42_board.specs.Stepping.{layouts_in};
ghost use Rattle.k42_board.specs.Taking.{HoldsHome};
ghost use Rattle.k42_tables.specs.Filling.{IsOfItsRow, handled_view};

use k42_kinds::Layout;
use k42_memory::Memory;
use k42_rule::{Cell, Pass, Sys, layouts_are_lawful, put, take, unlock};
use std::alloc::Global;

/// Gives a cell the part with which its row begins, where it has none.
fn fill_part<L: Layout>(
    alloc: Global,
    layout: &L,
    place: u32,
    procs: u32,
    content: &mut Cell<L>,
) -> Result<(), Memory>
    requires known { IsKnownTag (L.shapes layout.now) (L.tag_of layout.now) × (place < procs) × (procs ≤ PROCESSORS) }
    ensures same { content.new ≡ record content.old { part = content.new.part } }
    ensures ok { OnOk result (content.new.part ≡ Some (unwrap_or content.old.part ((L.ways layout.now).empty procs place))) }
    ensures memory { OnErr result ((content.old.part ≡ None) × (content.new.part ≡ None)) }
{
    let part = match content.take_part() {
        Some(part) => part,
        None => layout.empty_part(alloc, place, procs)?,
    };
    content.set_part(part);
    Ok(())
}

/// Sees that the cell, whose lock the pass has taken, has its part, and leaves the lock.
pub(crate) fn represent<L: Layout>(
    alloc: Global,
    sys: &Sys<L>,
    pass: &mut Pass<L>,
    cell: u32,
    place: u32,
    layout: &L,
) -> Result<(), Memory>
    requires ours { IsPassOf sys.now pass.old }
    requires holds { HoldsHome cell pass.old.view }
    requires row { IsOfItsRow (layouts_in L.Layout sys.now) sys.now.layouts cell place layout.now pass.old.view }
    ensures same { IsSamePass pass.old pass.new }
    ensures made { OnOk result (pass.new.view ≡ handled_view cell true pass.old.view) }
    ensures memory { OnErr result (pass.new.view ≡ handled_view cell false pass.old.view) }
{
    layouts_are_lawful(sys);
    let procs = sys.procs();
    let _home = pass.processor();
    let mut content = take(sys, pass, cell);
    let made = fill_part(alloc, layout, place, procs, &mut content);
    put(sys, pass, cell, content);
    unlock(sys, pass, cell);
    made
}
