//! The step that begins a swap.
ghost use Rattle.std.specs.Prelude.{◌≡◌};
ghost use Rattle.phase_core.specs.Effects.{begun_as};
ghost use Rattle.k42_board.specs.Protocol as protocol;
ghost use Rattle.k42_board.specs.Stepping.{MayStep, HasStepped};

use crate::pass::Pass;
use crate::sys::Sys;
use k42_board::{LastBegin, begin_word, is_over, is_swapped};
use k42_kinds::Layout;
use phase_core::SwapAt;

/// What a swap begins as, of an object that is over or not.
fn stage_of(object: u32, over: bool) -> SwapAt
    ensures { result ≡ begun_as object over }
{
    if over {
        SwapAt::Refused(object)
    } else {
        SwapAt::Begun(object)
    }
}

/// Begins a swap of the object, unless one is under way.
pub fn begin_step<L: Layout>(sys: &Sys<L>, pass: &mut Pass<L>, object: u32) -> u64
    requires may { MayStep L.Layout sys.now (protocol.begin object) pass.old }
    requires told { pass.old.view.shapes ≡ sys.now.shapes }
    ensures { HasStepped L.Layout sys.now (protocol.begin object) pass.old result pass.new }
{
    let found = begin_word(&sys.board, &mut pass.seat, object as usize);
    pass.last = Some(LastBegin {
        object,
        word: found,
    });
    if is_swapped(found) {
        return found;
    }
    pass.swap = stage_of(object, is_over(found, sys.declared(object).live()));
    found
}
