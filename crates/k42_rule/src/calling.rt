//! A call at one cell, made while the cell is in its slot.
ghost use Rattle.std.specs.Prelude.{◌≡◌, ◌<◌, IsTrue, length, IfOk, OnErr, OnOk};
ghost use Rattle.k42_shapes.specs.Shapes.{IsKnownTag};
ghost use Rattle.turn_core.specs.Stamps.{last_stamp};
ghost use Rattle.k42_limits.specs.declared.TheConstants.{PASS_ENTRIES};
ghost use Rattle.k42_board.specs.Calling.{HasCalledAt, HasLeftCell, MayCallAt};
ghost use Rattle.k42_board.specs.Drawing.{IsDrawer};
ghost use Rattle.k42_board.specs.Seen.{HasRoom, IsOf, IsSamePass};
ghost use Rattle.k42_board.specs.Stepping.{layouts_in};
ghost use Rattle.k42_board.specs.Taking.{HoldsHome};

use crate::keeping::store_call;
use crate::pass::Pass;
use crate::sys::Sys;
use crate::tabling::{object_in, row_in};
use k42_board::call_cell;
use k42_kinds::Layout;
use k42_memory::Memory;
use std::alloc::Global;

/// Makes the operation at the cell, draws that with the stamp that it answers, and keeps the entry where any are kept.
/// The reply is where room for it was lent. Without memory the cell is put back, and nothing is drawn.
#[inline(always)]
pub fn call_one<L: Layout>(
    alloc: Global,
    sys: &Sys<L>,
    pass: &mut Pass<L>,
    layout: &L,
    cell: u32,
    place: u32,
    op: &L::Op,
    reply: &mut L::Reply,
) -> Result<u64, Memory>
    requires ours { IsOf sys.now pass.old }
    requires may { HoldsHome cell pass.old.view }
    requires room { HasRoom pass.old }
    requires few { length pass.old.view.taker.mine < PASS_ENTRIES }
    requires known { IsKnownTag (L.shapes layout.now) (L.tag_of layout.now) × (place < sys.now.procs) }
    requires takes { IsTrue ((L.object layout.now).takes op.now) }
    requires call { MayCallAt (layouts_in L.Layout sys.now) sys.now.layouts layout.now place cell op.now pass.old.seat pass.old.view }
    ensures called { IfOk result (λ stamp. HasCalledAt (layouts_in L.Layout sys.now) sys.now.layouts
        layout.now place cell op.now pass.old.seat reply.new stamp pass.old.view pass.new.view) }
    ensures drawer { OnOk result (IsDrawer pass.old pass.new) }
    ensures later { IfOk result (λ stamp. last_stamp pass.old.view.taker.mine < stamp) }
    ensures memory { OnErr result (HasLeftCell (layouts_in L.Layout sys.now) sys.now.layouts cell pass.old.seat pass.old.view pass.new.view) }
    ensures same { OnErr result (IsSamePass pass.old pass.new) }
{
    let procs = sys.procs();
    let number = cell as usize;
    let clock = pass.clock;
    let stamp = call_cell(
        alloc,
        &sys.board,
        &mut pass.seat,
        layout,
        procs,
        number,
        place,
        op,
        reply,
        clock,
    )?;
    pass.drawn += 1;
    pass.clock = stamp;
    let object = object_in(&pass.place);
    let row = row_in(&pass.place);
    store_call(
        pass.keep,
        &mut pass.kept,
        stamp,
        object,
        row,
        cell,
        pass.active,
        op,
        reply,
    );
    Ok(stamp)
}
