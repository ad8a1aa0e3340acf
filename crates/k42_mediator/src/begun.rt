//! What a pass has begun.
ghost use Rattle.std.specs.Prelude.{◌≡◌, ◌<◌, ◌≤◌, true, false};
ghost use Rattle.k42_limits.specs.declared.TheConstants.{LAST_INCARNATION};
ghost use Rattle.k42_shapes.specs.Shapes.{IsLiveTag};
ghost use Rattle.phase_core.specs.Stages.{is_moved};
ghost use Rattle.phase_core.specs.declared.caller.SwapAt.TheVariants.{Moved};
ghost use Rattle.k42_board.specs.Values.{layout_in, incarnation_in};
ghost use Rattle.k42_board.specs.Views.{object_begun, shapes_at, word_begun};
ghost use Rattle.k42_rule.specs.Settled.{IsSettled};

use k42_board::incarnation_in;
use k42_kinds::Layout;
use k42_rule::{LastBegin, Pass, Row};
use phase_core::SwapAt;

/// The object of its last Begin, and the word that this found.
pub(crate) fn last_of<L: Layout>(pass: &Pass<L>) -> LastBegin
    ensures object { result.object ≡ object_begun pass.now.view.last }
    ensures word { result.word ≡ word_begun pass.now.view.last }
    ensures few { result.object < 16 }
    ensures settled { IsSettled pass.now.view }
    ensures bound { incarnation_in result.word ≤ LAST_INCARNATION }
{
    // A pass that stands between two steps tells that here.
    let _home = pass.processor();
    pass.last_begin()
        .unwrap_or(LastBegin { object: 0, word: 0 })
}

/// The object that it moves, and the row from which.
pub(crate) fn moved_row<L: Layout>(pass: &Pass<L>) -> Row
    requires { is_moved pass.now.view.visitor.swap ≡ true }
    ensures object { pass.now.view.visitor.swap ≡ Moved result.object }
    ensures row { result.incarnation ≡ incarnation_in (word_begun pass.now.view.last) }
    ensures few { result.object < 16 }
    ensures before { result.incarnation < LAST_INCARNATION }
    ensures live { IsLiveTag (shapes_at pass.now.view result.object) (layout_in (word_begun pass.now.view.last)) }
    ensures unturned { pass.now.view.turned ≡ false }
    ensures settled { IsSettled pass.now.view }
{
    let SwapAt::Moved(object) = pass.swap() else {
        unreachable!()
    };
    Row {
        object,
        incarnation: incarnation_in(last_of::<L>(pass).word),
    }
}
