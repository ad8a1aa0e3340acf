//! A grace flips all processors to their next generation.
ghost use Rattle.std.specs.Prelude.{◌≡◌, true, None, is_some, length};
ghost use Rattle.gen_core.specs.Events.{after_flip};
ghost use Rattle.gen_core.specs.declared.state.GraceAt.TheVariants.{Flipping, Looking};
ghost use Rattle.k42_board.specs.Seen.{IsPassOf, IsSamePass};
ghost use Rattle.k42_quiesce.specs.Gracing.{GoesOn};

use k42_kinds::Layout;
use k42_rule::{Pass, Sys, flip, generation_step, look};

/// Learns what the processor's next generation counts on from, and flips the processor.
fn flip_next<L: Layout>(sys: &Sys<L>, pass: &mut Pass<L>, proc: u32)
    requires ours { IsPassOf sys.now pass.old }
    requires asked { is_some pass.old.view.base ≡ true }
    requires grace { pass.old.view.turn.grace ≡ Flipping proc }
    ensures same { IsSamePass pass.old pass.new }
    ensures goes { GoesOn pass.old.view pass.new.view }
    ensures grace { pass.new.view.turn.grace ≡ after_flip proc (length pass.old.view.turn.waits) }
{
    if pass.coming().is_none() {
        let base = pass.base().unwrap_or(0);
        look(sys, pass, proc, (base % 2 + 1) % 2);
    }
    flip(sys, pass, proc);
}

/// Asks for the present generation, and ends it on all processors.
pub(crate) fn flip_all<L: Layout>(sys: &Sys<L>, pass: &mut Pass<L>)
    requires ours { IsPassOf sys.now pass.old }
    requires unasked { pass.old.view.base ≡ None }
    requires grace { pass.old.view.turn.grace ≡ Flipping 0 }
    ensures same { IsSamePass pass.old pass.new }
    ensures goes { GoesOn pass.old.view pass.new.view }
    ensures asked { is_some pass.new.view.base ≡ true }
    ensures grace { pass.new.view.turn.grace ≡ Looking 0 }
{
    generation_step(sys, pass);
    for proc in 0..sys.procs() {
        flip_next(sys, pass, proc);
    }
}
