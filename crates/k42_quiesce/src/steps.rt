//! Grace periods.
ghost use Rattle.std.specs.Prelude.{◌≡◌, ◌+◌, ℕ, true, Some, None};
ghost use Rattle.gen_core.specs.Events.{is_looking};
ghost use Rattle.k42_board.specs.Gracing.{MayTakeRole};
ghost use Rattle.k42_board.specs.Protocol as protocol;
ghost use Rattle.k42_board.specs.Seen.{IsPassOf, IsSamePass};
ghost use Rattle.k42_board.specs.Stepping.{TakesIn, layouts_in};
ghost use Rattle.k42_quiesce.specs.Gracing.{MayStep, with_role, has_role, GoesOn, IsLeft, TakesRole};
ghost use Rattle.k42_quiesce.specs.Quiet.{IsQuiet};
ghost use Rattle.k42_quiesce.specs.declared.steps.GraceStep.TheVariants as GraceStep;
ghost use Rattle.k42_quiesce.specs.declared.steps.Held.TheVariants as Held;

use crate::flipping::flip_all;
use crate::looking::look_on;
use k42_kinds::Layout;
use k42_rule::{Pass, Sys, take_role};
use std::marker::Model;

/// What holds a grace up.
#[derive(Clone, Copy, Debug, PartialEq, Eq)]
pub enum Held {
    /// So many of the former generation have not left the processor.
    Left { proc: u32, left: u32 },
    /// Another caller has the role.
    RoleHeld { holder: u32 },
}

/// How far a step has brought a grace.
#[derive(Clone, Copy, Debug, PartialEq, Eq)]
pub enum GraceStep {
    /// All activities that were open as the grace took the role have ended.
    Quiet,
    Again(Held),
}

/// A grace period. Contracts see the caller that has the role for it.
#[derive(Drop)]
pub struct Grace {
    holder: Option<u32>,
}

impl Model for Grace {
    ghost use Rattle.std.specs.Prelude.{ℕ, Option};

    ghost Value = { Option ℕ };

    ghost view = { λ g. g.holder };
}

/// Takes the role and flips all processors, or answers who has the role.
fn begin<L: Layout>(sys: &Sys<L>, pass: &mut Pass<L>) -> Option<u32>
    requires ours { IsPassOf sys.now pass.old }
    requires may { MayTakeRole pass.old.view }
    ensures ours { IsPassOf sys.now pass.new }
    ensures same { IsSamePass pass.old pass.new }
    ensures held { (holder : ℕ) → result ≡ Some holder → TakesIn L.Layout sys.now protocol.take_role pass.old (holder + 1) pass.new }
    ensures goes { result ≡ None → GoesOn (with_role None pass.old.view) pass.new.view × (is_looking pass.new.view.turn.grace ≡ true) }
    ensures takes { result ≡ None → TakesRole (layouts_in L.Layout sys.now) sys.now.layouts pass.old.seat pass.old.view }
{
    let found = take_role(sys, pass);
    if found > 0 {
        return Some(found as u32 - 1);
    }
    flip_all(sys, pass);
    None
}

impl Grace {
    /// A grace that has not begun.
    pub fn new() -> Grace
        ensures { result ≡ None }
    {
        Grace { holder: None }
    }

    /// Takes the role where this grace has not, flips all processors then, and looks at them as far as all have left.
    /// It is always stepped with the pass that has taken the role for it.
    pub fn step<L: Layout>(&mut self, sys: &Sys<L>, pass: &mut Pass<L>) -> GraceStep
        requires ours { IsPassOf sys.now pass.old }
        requires may { MayStep self.old pass.old.view }
        ensures ours { IsPassOf sys.now pass.new }
        ensures same { IsSamePass pass.old pass.new }
        ensures quiet { result ≡ GraceStep.Quiet → IsQuiet (layouts_in L.Layout sys.now) sys.now.layouts pass.new.seat pass.new.view }
        ensures left { (proc left : ℕ) → result ≡ GraceStep.Again (Held.Left proc left) → IsLeft proc left pass.old.view pass.new.view }
        ensures role_held { (holder : ℕ) → result ≡ GraceStep.Again (Held.RoleHeld holder)
            → TakesIn L.Layout sys.now protocol.take_role pass.old (holder + 1) pass.new × (self.old ≡ None) × (self.new ≡ None) }
        ensures goes { has_role result ≡ true
            → GoesOn (with_role self.old pass.old.view) pass.new.view × (self.new ≡ Some pass.new.view.number) }
        ensures takes { self.old ≡ None → has_role result ≡ true
            → TakesRole (layouts_in L.Layout sys.now) sys.now.layouts pass.old.seat pass.old.view }
    {
        if self.holder.is_none() {
            if let Some(holder) = begin(sys, pass) {
                return GraceStep::Again(Held::RoleHeld { holder });
            }
            self.holder = Some(pass.caller());
        }
        match look_on(sys, pass) {
            None => GraceStep::Quiet,
            Some(held) => GraceStep::Again(held),
        }
    }
}
