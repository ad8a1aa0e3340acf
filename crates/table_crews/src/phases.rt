//! How far the swap of a pass is.
ghost use Rattle.std.specs.Prelude.{◌≡◌, ◌&&◌, nat_lt, true, None};
ghost use Rattle.gen_core.specs.Events.{is_free, is_idle};
ghost use Rattle.phase_core.specs.Stages.{is_blocking, is_drained, is_moved, may_take};
ghost use Rattle.phase_core.specs.declared.caller.SwapAt.TheVariants.{Moved};
ghost use Rattle.k42_limits.specs.declared.TheConstants.{PASS_GRACES};
ghost use Rattle.k42_board.specs.Gracing.{MayTakeRole};
ghost use Rattle.k42_board.specs.Swapping.{object_swapped, MayBlock, MayMove};

use gen_core::GraceAt;
use k42_kinds::Layout;
use k42_limits::PASS_GRACES;
use k42_rule::Pass;
use phase_core::SwapAt;

/// Whether the pass may begin a grace.
pub fn may_wait<L: Layout>(pass: &Pass<L>) -> bool
    ensures is { result ≡ (is_free pass.now.view.turn && may_take pass.now.view.visitor.swap && nat_lt pass.now.view.graces PASS_GRACES) }
    ensures may { result ≡ true → MayTakeRole pass.now.view }
{
    !pass.is_active()
        && pass.grace() == GraceAt::Idle
        && matches!(pass.swap(), SwapAt::Idle | SwapAt::Interposed(_))
        && pass.graces() < PASS_GRACES
}

/// Whether it may keep callers out of its object.
pub fn may_block<L: Layout>(pass: &Pass<L>) -> bool
    ensures is { result ≡ (is_drained pass.now.view.visitor.swap && is_idle pass.now.view.turn.grace) }
    ensures may { result ≡ true → MayBlock pass.now.view }
{
    matches!(pass.swap(), SwapAt::Drained(_)) && pass.grace() == GraceAt::Idle
}

/// Whether it keeps them out, and may try to move the state.
#[tactic(auto, using(crate::proofs::Handed::unhanded))]
pub fn may_move<L: Layout>(pass: &Pass<L>) -> bool
    ensures is { result ≡ is_blocking pass.now.view.visitor.swap }
    ensures may { result ≡ true → MayMove pass.now.view }
    ensures unhanded { result ≡ true → pass.now.view.handed ≡ None }
{
    matches!(pass.swap(), SwapAt::Blocking(_))
}

/// Whether it has begun to move the state.
pub fn has_moved<L: Layout>(pass: &Pass<L>) -> bool
    ensures is { result ≡ is_moved pass.now.view.visitor.swap }
    ensures moved { result ≡ true → pass.now.view.visitor.swap ≡ Moved (object_swapped pass.now.view) }
{
    matches!(pass.swap(), SwapAt::Moved(_))
}
