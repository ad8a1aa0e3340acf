//! A grace, step by step.
ghost use Rattle.std.specs.Prelude.{◌≡◌, ◌<◌, true, length};
ghost use Rattle.gen_core.specs.declared.state.GraceAt.TheVariants.{Flipping};
ghost use Rattle.table_crews.specs.Ready.{HoldsNoCell};

use gen_core::GraceAt;
use k42_kinds::Layout;
use k42_limits::PASS_GRACES;
use k42_rule::{Pass, Sys, flip, free, generation_step, give_role, look, take_role};
use phase_core::SwapAt;

/// Takes the role, and answers whether it was free.
pub(super) fn take<L: Layout>(sys: &Sys<L>, pass: &mut Pass<L>) -> bool
    requires free { HoldsNoCell sys.now pass.old }
    ensures free { HoldsNoCell sys.now pass.new }
{
    if pass.is_active() || pass.grace() != GraceAt::Idle || pass.graces() >= PASS_GRACES {
        return false;
    }
    if !matches!(pass.swap(), SwapAt::Idle | SwapAt::Interposed(_)) {
        return false;
    }
    take_role(sys, pass) == 0
}

/// Takes the next step of a grace at the processor that it flips next.
fn flip_next<L: Layout>(sys: &Sys<L>, pass: &mut Pass<L>, proc: u32)
    requires free { HoldsNoCell sys.now pass.old }
    requires flipping { pass.old.view.turn.grace ≡ Flipping proc }
    ensures free { HoldsNoCell sys.now pass.new }
{
    match (pass.base(), pass.coming()) {
        (None, _) if proc == 0 => {
            generation_step(sys, pass);
        }
        (Some(base), None) if base < u32::MAX => {
            look(sys, pass, proc, (base + 1) % 2);
        }
        (Some(_), Some(_)) => {
            flip(sys, pass, proc);
        }
        _ => {}
    }
}

/// Takes the next step of a grace.
fn step<L: Layout>(sys: &Sys<L>, pass: &mut Pass<L>)
    requires free { HoldsNoCell sys.now pass.old }
    ensures free { HoldsNoCell sys.now pass.new }
{
    match pass.grace() {
        GraceAt::Flipping(proc) => flip_next(sys, pass, proc),
        GraceAt::Looking(proc) => {
            if let Some(base) = pass.base() {
                look(sys, pass, proc, base % 2);
            }
        }
        GraceAt::Idle | GraceAt::Quiet => {}
    }
}

/// Goes on with a grace for as many steps, and answers whether it is quiet then.
pub(super) fn go_on<L: Layout>(sys: &Sys<L>, pass: &mut Pass<L>, steps: u32) -> bool
    requires free { HoldsNoCell sys.now pass.old }
    ensures free { HoldsNoCell sys.now pass.new }
{
    for _ in 0..steps {
        if pass.grace() == GraceAt::Quiet {
            return true;
        }
        step(sys, pass);
    }
    pass.grace() == GraceAt::Quiet
}

/// Frees what a quiet grace noted of the object, and gives the role back. It answers the mark that was found.
pub(super) fn give<L: Layout>(sys: &Sys<L>, pass: &mut Pass<L>, object: u32) -> Option<u64>
    requires free { HoldsNoCell sys.now pass.old }
    ensures free { HoldsNoCell sys.now pass.new }
{
    if pass.grace() != GraceAt::Quiet || object >= sys.objects() {
        return None;
    }
    if let SwapAt::Drained(drained) = pass.swap() {
        if drained != object {
            return None;
        }
    }
    let found = match pass.noted(object) {
        Some(_) => Some(free(sys, pass, object)),
        None => None,
    };
    give_role(sys, pass);
    found
}
