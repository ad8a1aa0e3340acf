//! A grace waits until all activities of the former generation have left.
ghost use Rattle.std.specs.Prelude.{◌≡◌, ◌<◌, Some, None, true, is_some, length};
ghost use Rattle.gen_core.specs.Events.{is_looking, after_look};
ghost use Rattle.gen_core.specs.declared.state.GraceAt.TheVariants.{Looking, Quiet};
ghost use Rattle.k42_board.specs.Seen.{IsPassOf, IsSamePass};
ghost use Rattle.k42_quiesce.specs.Gracing.{GoesOn, IsLeft, IsLeftOf};
ghost use Rattle.k42_quiesce.specs.declared.steps.Held.{Held};

use crate::steps::Held;
use gen_core::GraceAt;
use k42_board::exits_in;
use k42_kinds::Layout;
use k42_rule::{Pass, Sys, look};

/// Looks at one processor, and answers how many have not left it.
fn look_back<L: Layout>(sys: &Sys<L>, pass: &mut Pass<L>, proc: u32) -> u32
    requires ours { IsPassOf sys.now pass.old }
    requires grace { pass.old.view.turn.grace ≡ Looking proc }
    requires asked { is_some pass.old.view.base ≡ true }
    requires there { proc < length pass.old.view.turn.waits }
    ensures same { IsSamePass pass.old pass.new }
    ensures goes { GoesOn pass.old.view pass.new.view }
    ensures left { 0 < result → IsLeft proc result pass.old.view pass.new.view }
    ensures passed { result ≡ 0 → pass.new.view.turn.grace ≡ after_look proc (length pass.old.view.turn.waits) }
{
    let base = pass.base().unwrap_or(0);
    let waits = pass.waits(proc);
    let exits = look(sys, pass, proc, base % 2);
    waits.wrapping_sub(exits_in(exits))
}

/// Looks at one processor after the other, as far as all have left, and answers who is left then.
#[tactic(auto, using(crate::proofs::GoingOn::still_of))]
pub(crate) fn look_on<L: Layout>(sys: &Sys<L>, pass: &mut Pass<L>) -> Option<Held>
    requires ours { IsPassOf sys.now pass.old }
    requires grace { is_looking pass.old.view.turn.grace ≡ true }
    ensures ours { IsPassOf sys.now pass.new }
    ensures same { IsSamePass pass.old pass.new }
    ensures goes { GoesOn pass.old.view pass.new.view }
    ensures quiet { result ≡ None → (pass.new.view.turn.grace ≡ Quiet) × (is_some pass.new.view.base ≡ true) }
    ensures left { (held : Held) → result ≡ Some held → IsLeftOf held pass.old.view pass.new.view }
{
    while let GraceAt::Looking(proc) = pass.grace() {
        let left = look_back(sys, pass, proc);
        if left > 0 {
            return Some(Held::Left { proc, left });
        }
    }
    None
}
