//! A call, step by step.
ghost use Rattle.std.specs.Prelude.{◌≡◌, ◌<◌, true, false, length, is_some, OnOk, IfOk, IfSome};
ghost use Rattle.phase_core.specs.declared.caller.Place.TheVariants.{Missed, AtMediator};
ghost use Rattle.k42_board.specs.Generating.{MayEnter};
ghost use Rattle.k42_board.specs.Protocol as protocol;
ghost use Rattle.k42_board.specs.Seen.{is_at_rest};
ghost use Rattle.k42_board.specs.Stepping.{HasStepped};
ghost use Rattle.k42_board.specs.Tabling.{EntryFound};
ghost use Rattle.table_crews.specs.Drawn.{HasDrawn, HasDrawnNone};
ghost use Rattle.table_crews.specs.Ready.{HoldsNoCell, IsIn, IsServing};

use crate::crews::Walk;
use crate::steps::step;
use co_any::AnyLayout;
use k42_board::layout_in;
use k42_kinds::{Layout, Op};
use k42_memory::Memory;
use k42_rule::{
    Pass, Sys, end_call, enter_step, install_step, knock_step, leave_step, look_up_step, root_step,
    step_out,
};
use std::alloc::Global;

/// Whether the pass rests, and so may begin an activity.
pub fn may_enter<L: Layout>(pass: &Pass<L>) -> bool
    ensures is { result ≡ is_at_rest pass.now.view }
    ensures may { result ≡ true → MayEnter pass.now.view }
{
    pass.is_idle()
}

/// Begins an activity, and answers the word that was found.
pub fn enter<L: Layout>(sys: &Sys<L>, pass: &mut Pass<L>) -> u64
    requires free { HoldsNoCell sys.now pass.old }
    requires may { MayEnter pass.old.view }
    ensures stepped { HasStepped L.Layout sys.now protocol.enter pass.old result pass.new }
    ensures free { HoldsNoCell sys.now pass.new }
    ensures entered { IsIn pass.new.view }
{
    enter_step(sys, pass)
}

/// Installs the entry that was found empty, and answers whether the call is in the row then.
pub fn install<L: Layout>(sys: &Sys<L>, pass: &mut Pass<L>, object: u32, incarnation: u32) -> bool
    requires free { HoldsNoCell sys.now pass.old }
    requires active { is_some pass.old.view.turn.active ≡ true }
    requires missed { (pass.old.view.visitor.place ≡ Missed object incarnation) × (object < length sys.now.layouts) }
    ensures free { HoldsNoCell sys.now pass.new }
    ensures none { HasDrawnNone pass.old.view pass.new.view }
    ensures served { result ≡ true → IsServing pass.new.view }
    ensures out { result ≡ false → IsIn pass.new.view }
{
    let root = root_step(sys, pass, object);
    let layout = sys.declared(object).with_tag(layout_in(root));
    let cell = layout.shape().cell_called(pass.processor());
    install_step(sys, pass, object, cell) == u64::from(incarnation) * 4_294_967_296
}

/// Knocks at the mediator, and answers whether the call was let in.
pub fn knock<L: Layout>(sys: &Sys<L>, pass: &mut Pass<L>, object: u32) -> bool
    requires free { HoldsNoCell sys.now pass.old }
    requires active { is_some pass.old.view.turn.active ≡ true }
    requires sent { (pass.old.view.visitor.place ≡ AtMediator object) × (object < length sys.now.layouts) }
    ensures free { HoldsNoCell sys.now pass.new }
    ensures none { HasDrawnNone pass.old.view pass.new.view }
    ensures served { result ≡ true → IsServing pass.new.view }
    ensures out { result ≡ false → IsIn pass.new.view }
{
    let word = knock_step(sys, pass, object);
    if word / 33_554_432 % 2 == 1 {
        step_out(sys, pass);
        return false;
    }
    true
}

/// How a look-up ended: the word that it found, and whether the call is in a row.
#[derive(Clone, Copy)]
pub struct Found {
    pub word: u64,
    pub served: bool,
}

/// Looks the object up, and goes on until it is in the row or outside of the call.
pub fn look_up<L: Layout>(sys: &Sys<L>, pass: &mut Pass<L>, object: u32) -> Found
    requires free { HoldsNoCell sys.now pass.old }
    requires entered { IsIn pass.old.view }
    requires there { object < length sys.now.layouts }
    ensures free { HoldsNoCell sys.now pass.new }
    ensures none { HasDrawnNone pass.old.view pass.new.view }
    ensures found { EntryFound object pass.old.view result.word }
    ensures served { result.served ≡ true → IsServing pass.new.view }
    ensures out { result.served ≡ false → IsIn pass.new.view }
{
    let word = look_up_step(sys, pass, object);
    let served = match word % 4 {
        0 => install(sys, pass, object, (word >> 32) as u32),
        1 => true,
        _ => knock(sys, pass, object),
    };
    Found { word, served }
}

/// Ends a call that is in a row.
pub fn end<L: Layout>(sys: &Sys<L>, pass: &mut Pass<L>)
    requires free { HoldsNoCell sys.now pass.old }
    requires serving { IsServing pass.old.view }
    ensures free { HoldsNoCell sys.now pass.new }
    ensures none { HasDrawnNone pass.old.view pass.new.view }
    ensures entered { IsIn pass.new.view }
{
    if pass.inside().tracked {
        step_out(sys, pass);
    } else {
        end_call(sys, pass);
    }
}

/// Ends the activity.
pub fn leave<L: Layout>(sys: &Sys<L>, pass: &mut Pass<L>)
    requires free { HoldsNoCell sys.now pass.old }
    requires entered { IsIn pass.old.view }
    ensures free { HoldsNoCell sys.now pass.new }
    ensures none { HasDrawnNone pass.old.view pass.new.view }
{
    leave_step(sys, pass);
}

/// A call in an activity: the stamp of its entry, where it found the object open and the cell free.
fn serve(
    alloc: Global,
    sys: &Sys<AnyLayout>,
    pass: &mut Walk,
    object: u32,
    op: &Op,
) -> Result<Option<u64>, Memory>
    requires free { HoldsNoCell sys.now pass.old }
    requires entered { IsIn pass.old.view }
    requires there { object < length sys.now.layouts }
    ensures free { OnOk result (HoldsNoCell sys.now pass.new) }
    ensures entered { OnOk result (IsIn pass.new.view) }
    ensures drawn { IfOk result (λ made. IfSome made (λ stamp. HasDrawn stamp pass.old.view pass.new.view)) }
{
    if !look_up(sys, pass, object).served {
        return Ok(None);
    }
    let stamp = step(alloc, sys, pass, op)?;
    end(sys, pass);
    Ok(stamp)
}

/// The same in an activity of its own.
pub fn call(
    alloc: Global,
    sys: &Sys<AnyLayout>,
    pass: &mut Walk,
    object: u32,
    op: &Op,
) -> Result<Option<u64>, Memory>
    requires free { HoldsNoCell sys.now pass.old }
    ensures free { OnOk result (HoldsNoCell sys.now pass.new) }
    ensures drawn { IfOk result (λ made. IfSome made (λ stamp. HasDrawn stamp pass.old.view pass.new.view)) }
{
    if object >= sys.objects() || !may_enter::<AnyLayout>(pass) {
        return Ok(None);
    }
    enter(sys, pass);
    let stamp = serve(alloc, sys, pass, object, op)?;
    leave(sys, pass);
    Ok(stamp)
}
