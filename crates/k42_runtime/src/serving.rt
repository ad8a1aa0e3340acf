//! A call, once it has begun: it gets inside a row, and is served there.
ghost use Rattle.std.specs.Prelude.{◌≡◌, ◌<◌, true, [], ◌∷◌, length, IfOk, OnErr};
ghost use Rattle.k42_kinds.specs.declared.entry.Reach.TheVariants.{One, All};
ghost use Rattle.phase_core.specs.Stages.{is_missed, is_at_mediator};
ghost use Rattle.k42_joined.specs.Numbers.{cell_of};
ghost use Rattle.k42_board.specs.Drawing.{numbers_of};
ghost use Rattle.k42_limits.specs.declared.TheConstants.{PASS_ENTRIES};
ghost use Rattle.k42_board.specs.Seen.{HasRoom, IsOf, IsPassOf, IsSamePass};
ghost use Rattle.k42_board.specs.Stepping.{layouts_in};
ghost use Rattle.k42_board.specs.Tabling.{MayLookUp};
ghost use Rattle.k42_rule.specs.Settled.{IsSettled};
ghost use Rattle.k42_runtime.specs.Reaching.{MayGiveBack};
ghost use Rattle.k42_runtime.specs.Serving.{object_inside, row_inside, IsServing, GoesBy, IsSameSeat, Makes, GoesIn, GoesOut, IsCallAt, HasCells, IsServedBy, step_with};
ghost use Rattle.k42_runtime.specs.Calls.{IsAsked};
ghost use Rattle.k42_runtime.specs.Replies.{CanReply, CanBeReplied};
ghost use Rattle.k42_runtime.specs.declared.calls.CallTry.TheVariants as CallTry;

use crate::calls::{CallCause, CallTry};
use crate::cells::{give_back, take_row};
use crate::stepping::step_row;
use k42_board::cell_number;
use k42_kinds::{Layout, Reach};
use k42_mediator::{Knocked, knock};
use k42_memory::Memory;
use k42_rule::{Cell, Pass, Sys, call_one, draw_call, layouts_are_lawful, lock, unlock};
use k42_tables::{Entered, Filled, Tried, look_up, try_miss};
use std::alloc::Global;

/// Has the miss handled.
fn fill<L: Layout>(
    alloc: Global,
    sys: &Sys<L>,
    pass: &mut Pass<L>,
    object: u32,
) -> Result<Option<CallCause>, Memory>
    requires ours { IsPassOf sys.now pass.old }
    requires missed { is_missed pass.old.view.visitor.place object ≡ true }
    requires there { object < length sys.now.layouts }
    requires held { pass.old.view.taker.held ≡ [] }
    ensures same { IsSamePass pass.old pass.new }
    ensures goes { GoesBy pass.old.view pass.new.view }
    ensures went { IfOk result (λ held. GoesIn held object pass.old.view pass.new.view) }
    ensures memory { OnErr result (GoesOut pass.old.view pass.new.view) }
{
    let _procs = sys.procs();
    match try_miss(alloc, sys, pass, object)? {
        Tried::Filled(Filled::Installed { .. }) => Ok(None),
        Tried::Filled(Filled::Elsewhere { word }) => Ok(Some(CallCause::Elsewhere { word })),
        Tried::Held { holder } => Ok(Some(CallCause::CellHeld { holder })),
    }
}

/// Asks the mediator to be let in.
fn ask<L: Layout>(sys: &Sys<L>, pass: &mut Pass<L>, object: u32) -> Option<CallCause>
    requires ours { IsPassOf sys.now pass.old }
    requires sent { is_at_mediator pass.old.view.visitor.place object ≡ true }
    requires there { object < length sys.now.layouts }
    requires held { pass.old.view.taker.held ≡ [] }
    ensures same { IsSamePass pass.old pass.new }
    ensures goes { GoesBy pass.old.view pass.new.view }
    ensures went { GoesIn result object pass.old.view pass.new.view }
{
    match knock(sys, pass, object) {
        Knocked::Admitted { .. } => None,
        Knocked::Blocked => Some(CallCause::Blocked),
    }
}

/// Gets inside the row that serves the pass, or answers what kept it out.
pub(crate) fn go_inside<L: Layout>(
    alloc: Global,
    sys: &Sys<L>,
    pass: &mut Pass<L>,
    object: u32,
) -> Result<Option<CallCause>, Memory>
    requires ours { IsPassOf sys.now pass.old }
    requires may { MayLookUp (length sys.now.layouts) object pass.old.view }
    requires held { pass.old.view.taker.held ≡ [] }
    ensures same { IsSamePass pass.old pass.new }
    ensures goes { GoesBy pass.old.view pass.new.view }
    ensures went { IfOk result (λ held. GoesIn held object pass.old.view pass.new.view) }
    ensures memory { OnErr result (GoesOut pass.old.view pass.new.view) }
{
    match look_up(sys, pass, object) {
        Entered::Direct { .. } => Ok(None),
        Entered::Missed => fill(alloc, sys, pass, object),
        Entered::Mediated => Ok(ask(sys, pass, object)),
    }
}

/// Locks the one cell that the operation needs, makes it there, and leaves the lock.
#[inline(always)]
fn serve_one<L: Layout>(
    alloc: Global,
    sys: &Sys<L>,
    pass: &mut Pass<L>,
    layout: &L,
    number: u32,
    place: u32,
    op: &L::Op,
    reply: &mut L::Reply,
) -> CallTry
    requires ours { IsOf sys.now pass.old }
    requires call { IsCallAt (layouts_in L.Layout sys.now) sys.now.layouts pass.old.view layout.now (One place) op.now }
    requires there { place < sys.now.procs }
    requires number { number ≡ cell_of (object_inside pass.old.view) (row_inside pass.old.view) place }
    requires held { pass.old.view.taker.held ≡ [] }
    requires settled { IsSettled pass.old.view }
    requires room { HasRoom pass.old }
    requires few { length pass.old.view.taker.mine < PASS_ENTRIES }
    ensures same { IsSameSeat pass.old pass.new }
    ensures served { IsServedBy (step_with result reply.new) op.now pass.old.view pass.new.view }
    ensures can { result ≡ CallTry.Ended → CanReply L.object L.serves layout.now op.now reply.new }
{
    layouts_are_lawful(sys);
    let _procs = sys.procs();
    let found = lock(sys, pass, number);
    if found != 0 {
        return CallTry::Again(CallCause::CellHeld {
            holder: (found - 1) as u32,
        });
    }
    let called = call_one(alloc, sys, pass, layout, number, place, op, reply);
    unlock(sys, pass, number);
    match called {
        Ok(_) => CallTry::Ended,
        Err(Memory) => CallTry::Memory,
    }
}

/// Makes the operation at all cells of the row, and draws that.
fn make_all<L: Layout>(
    alloc: Global,
    sys: &Sys<L>,
    pass: &mut Pass<L>,
    layout: &L,
    op: &L::Op,
    cells: &mut Vec<Cell<L>>,
    reply: &mut L::Reply,
) -> CallTry
    requires ours { IsOf sys.now pass.old }
    requires room { HasRoom pass.old }
    requires few { length pass.old.view.taker.mine < PASS_ENTRIES }
    requires has { HasCells (layouts_in L.Layout sys.now) sys.now.layouts pass.old.view layout.now All op.now cells.old.items }
    ensures same { IsSameSeat pass.old pass.new }
    ensures numbers { numbers_of cells.new.items ≡ numbers_of cells.old.items }
    ensures may { MayGiveBack (layouts_in L.Layout sys.now) sys.now.layouts pass.new.seat pass.new.view cells.new.items }
    ensures makes { Makes (step_with result reply.new) (numbers_of cells.old.items) op.now pass.old.view pass.new.view }
    ensures can { result ≡ CallTry.Ended → CanReply L.object L.serves layout.now op.now reply.new }
{
    layouts_are_lawful(sys);
    let procs = sys.procs();
    let Ok(replied) = step_row(alloc, layout, procs, op, cells.as_mut_slice()) else {
        return CallTry::Memory;
    };
    *reply = replied;
    draw_call(sys, pass, cells, op, reply);
    CallTry::Ended
}

/// Takes all cells of the row, makes the operation, and gives them back.
fn serve_all<L: Layout>(
    alloc: Global,
    sys: &Sys<L>,
    pass: &mut Pass<L>,
    layout: &L,
    op: &L::Op,
    reply: &mut L::Reply,
) -> CallTry
    requires ours { IsOf sys.now pass.old }
    requires call { IsCallAt (layouts_in L.Layout sys.now) sys.now.layouts pass.old.view layout.now All op.now }
    requires some { 0 < sys.now.procs }
    requires held { pass.old.view.taker.held ≡ [] }
    requires settled { IsSettled pass.old.view }
    requires room { HasRoom pass.old }
    requires few { length pass.old.view.taker.mine < PASS_ENTRIES }
    ensures same { IsSameSeat pass.old pass.new }
    ensures served { IsServedBy (step_with result reply.new) op.now pass.old.view pass.new.view }
    ensures can { result ≡ CallTry.Ended → CanReply L.object L.serves layout.now op.now reply.new }
{
    let inside = pass.inside();
    let Ok(mut cells) = Vec::with_capacity(alloc, sys.procs() as usize) else {
        return CallTry::Memory;
    };
    match take_row(sys, pass, inside.object, inside.incarnation, &mut cells) {
        Some(holder) => {
            give_back(sys, pass, cells);
            CallTry::Again(CallCause::CellHeld { holder })
        }
        None => {
            let tried = make_all(alloc, sys, pass, layout, op, &mut cells, reply);
            give_back(sys, pass, cells);
            tried
        }
    }
}

/// Takes the cells that the operation needs, makes it, and gives them back.
#[inline(always)]
pub(crate) fn serve<L: Layout>(
    alloc: Global,
    sys: &Sys<L>,
    pass: &mut Pass<L>,
    op: &L::Op,
    reply: &mut L::Reply,
) -> CallTry
    requires ours { IsPassOf sys.now pass.old }
    requires serving { IsServing (object_inside pass.old.view) pass.old.view }
    requires asked { IsAsked L.object sys.now.layouts (object_inside pass.old.view) op.now }
    requires held { pass.old.view.taker.held ≡ [] }
    requires notes { pass.old.view.notes ≡ [] }
    requires room { HasRoom pass.old }
    requires few { length pass.old.view.taker.mine < PASS_ENTRIES }
    ensures same { IsSameSeat pass.old pass.new }
    ensures served { IsServedBy (step_with result reply.new) op.now pass.old.view pass.new.view }
    ensures can { result ≡ CallTry.Ended → CanBeReplied L.object L.serves sys.now.layouts (object_inside pass.old.view) op.now reply.new }
{
    let inside = pass.inside();
    let procs = sys.procs();
    let layout = sys.declared(inside.object).with_tag(inside.layout);
    match layout.reach(op, pass.processor(), procs) {
        Reach::One(place) => {
            let number = cell_number(inside.object, inside.incarnation, place);
            serve_one(alloc, sys, pass, &layout, number, place, op, reply)
        }
        Reach::All => serve_all(alloc, sys, pass, &layout, op, reply),
    }
}
