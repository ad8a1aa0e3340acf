//! The phases of a swap, each as far as it can go without waiting.
ghost use Rattle.std.specs.Prelude.{◌≡◌, ◌<◌, ◌≤◌, ◌+◌, ◌↔◌, true, length};
ghost use Rattle.k42_limits.specs.declared.TheConstants.{LAST_INCARNATION};
ghost use Rattle.k42_kinds.specs.declared.entry.Act.TheVariants as Act;
ghost use Rattle.k42_board.specs.Values.{incarnation_in, layout_in};
ghost use Rattle.k42_board.specs.Views.{word_begun};
ghost use Rattle.k42_mediator.specs.Transfers.{IsOfKind};
ghost use Rattle.k42_runtime.specs.Phases.{IsMoving, cause_in, end_in};
ghost use Rattle.k42_runtime.specs.Swaps.{IsAtStage, IsUnderWay, IsWornOut, HasFoundFree, HasStepped};
ghost use Rattle.k42_runtime.specs.Systems.{IsPassHere, MayLead, live_in};
ghost use Rattle.k42_shapes.specs.Shapes.{IsKnownTag};
ghost use Rattle.k42_runtime.specs.declared.swaps.Stage.TheVariants as Stage;
ghost use Rattle.k42_runtime.specs.declared.swaps.Step.TheVariants as Step;

use crate::swaps::{Cause, Stage, Step, Swap, Swapped};
use crate::system::{System, layouts_are_told};
use k42_board::{incarnation_in, layout_in};
use k42_clustered::Clustered;
use k42_kinds::{Act, Answer, Layout};
use k42_limits::{PASS_ENTRIES, PASS_GRACES};
use k42_mediator::{
    Begun, Marked, Moving, abandon, begin, block, end, interpose, mark, open_entries, transfer,
    try_move,
};
use k42_quiesce::{GraceStep, Held, reclaim};
use k42_rule::{LastBegin, Pass, draw_alone};
use std::alloc::Global;

/// Whether the pass has drawn all its entries, or has begun all its graces.
fn is_worn_out<L: Layout>(pass: &Pass<L>) -> bool
    ensures { (result ≡ true) ↔ IsWornOut pass.now.view }
{
    pass.drawn() >= PASS_ENTRIES || pass.graces() >= PASS_GRACES
}

/// The word that the pass found as it began.
fn word_of<L: Layout>(pass: &Pass<L>) -> u64
    ensures is { result ≡ word_begun pass.now.view.last }
    ensures bound { incarnation_in result ≤ LAST_INCARNATION }
{
    pass.last_begin()
        .unwrap_or(LastBegin { object: 0, word: 0 })
        .word
}

/// The number of the swap that the pass has begun.
fn number_begun<L: Layout>(pass: &Pass<L>) -> u32
    ensures { result ≡ incarnation_in (word_begun pass.now.view.last) + 1 }
{
    incarnation_in(word_of::<L>(pass)) + 1
}

/// How a swap ended that found its object over, which has so many live layouts.
fn end_over<L: Layout>(pass: &Pass<L>, live: u32) -> Swapped
    ensures { result ≡ end_in live (word_begun pass.now.view.last) }
{
    if layout_in(word_of::<L>(pass)) == live {
        Swapped::Gone
    } else {
        Swapped::Spent
    }
}

/// What holds a swap up whose grace is held up so.
fn cause_of(held: Held) -> Cause
    ensures { result ≡ cause_in held }
{
    match held {
        Held::Left { proc, left } => Cause::Left { proc, left },
        Held::RoleHeld { holder } => Cause::RoleHeld { holder },
    }
}

impl Swap {
    /// The layout to which it leads from the one that its begin has found.
    fn target<L: Clustered>(&self, system: &System<L>, pass: &Pass<L>) -> L
        requires ours { IsPassHere system.now pass.now }
        requires there { self.now.object < length system.now.sys.shapes }
        requires leads { MayLead L.leads system.now.plan.objects self.now.object self.now.to }
        requires moving { IsMoving self.now.object pass.now.view }
        requires found { HasFoundFree (live_in system.now.sys.shapes self.now.object) pass.now.view }
        ensures kind { IsOfKind L.object system.now.sys.layouts self.now.object result }
        ensures act { L.act_of result ≡ Act.Swap self.now.to }
        ensures known { IsKnownTag (L.shapes result) (L.tag_of result) }
    {
        layouts_are_told(system, pass, self.object);
        // A pass that stands between two steps tells how its swap fits together.
        let _swap = pass.swap();
        let present = pass.begun_layout();
        system.sys.declared(self.object).target(self.to, present)
    }

    fn over(&mut self, end: Swapped) -> Step
        ensures over { self.new ≡ record self.old { stage = Stage.Over } }
        ensures ended { result ≡ Step.Ended end }
    {
        self.stage = Stage::Over;
        Step::Ended(end)
    }

    /// Begins, and goes on by what was found.
    pub(crate) fn begin<L: Clustered>(
        &mut self,
        alloc: Global,
        system: &System<L>,
        pass: &mut Pass<L>,
    ) -> Step
        requires ours { IsPassHere system.now pass.old }
        requires stage { self.old.stage ≡ Stage.New }
        requires new { IsAtStage Stage.New system.now.sys.shapes self.old pass.old }
        requires leads { MayLead L.leads system.now.plan.objects self.old.object self.old.to }
        ensures { HasStepped system.now result self.old self.new pass.old pass.new }
    {
        if is_worn_out::<L>(pass) {
            self.stage = Stage::Over;
            return Step::Worn;
        }
        if pass.reserve().is_err() {
            self.stage = Stage::Over;
            return Step::Memory;
        }
        layouts_are_told(system, pass, self.object);
        match begin(&system.sys, pass, self.object) {
            Begun::Begun => {
                interpose(&system.sys, pass);
                self.stage = Stage::Waiting;
                self.wait(alloc, system, pass)
            }
            Begun::Busy { number, .. } => {
                draw_alone(&system.sys, pass, Act::Swap(self.to), Answer::Busy(number));
                self.over(Swapped::Busy(number))
            }
            Begun::Spent | Begun::Gone => {
                self.stage = Stage::Marking;
                self.mark(system, pass)
            }
        }
    }

    /// Steps its grace, and shuts the object once that is quiet.
    pub(crate) fn wait<L: Clustered>(
        &mut self,
        alloc: Global,
        system: &System<L>,
        pass: &mut Pass<L>,
    ) -> Step
        requires ours { IsPassHere system.now pass.old }
        requires stage { self.old.stage ≡ Stage.Waiting }
        requires waiting { IsAtStage Stage.Waiting system.now.sys.shapes self.old pass.old }
        requires leads { MayLead L.leads system.now.plan.objects self.old.object self.old.to }
        ensures { HasStepped system.now result self.old self.new pass.old pass.new }
    {
        match self.grace.step(&system.sys, pass) {
            GraceStep::Again(held) => Step::Again(cause_of(held)),
            GraceStep::Quiet => {
                reclaim(&system.sys, pass);
                block(&system.sys, pass);
                self.stage = Stage::Shut;
                self.shut(alloc, system, pass)
            }
        }
    }

    /// Moves the state once nobody is counted.
    pub(crate) fn shut<L: Clustered>(
        &mut self,
        alloc: Global,
        system: &System<L>,
        pass: &mut Pass<L>,
    ) -> Step
        requires ours { IsPassHere system.now pass.old }
        requires stage { self.old.stage ≡ Stage.Shut }
        requires shut { IsAtStage Stage.Shut system.now.sys.shapes self.old pass.old }
        requires leads { MayLead L.leads system.now.plan.objects self.old.object self.old.to }
        ensures { HasStepped system.now result self.old self.new pass.old pass.new }
    {
        // A pass that stands between two steps tells how its swap fits together.
        let _swap = pass.swap();
        match try_move(&system.sys, pass) {
            Moving::InFlight { count } => Step::Again(Cause::InFlight { count }),
            Moving::Moved => self.transfer_or_abandon(alloc, system, pass),
        }
    }

    /// Hands the state on, and opens the new row; for want of memory it opens the old one.
    fn transfer_or_abandon<L: Clustered>(
        &mut self,
        alloc: Global,
        system: &System<L>,
        pass: &mut Pass<L>,
    ) -> Step
        requires ours { IsPassHere system.now pass.old }
        requires stage { self.old.stage ≡ Stage.Shut }
        requires way { IsUnderWay (length system.now.sys.shapes) self.old.object pass.old }
        requires found { HasFoundFree (live_in system.now.sys.shapes self.old.object) pass.old.view }
        requires leads { MayLead L.leads system.now.plan.objects self.old.object self.old.to }
        requires moving { IsMoving self.old.object pass.old.view }
        ensures { HasStepped system.now result self.old self.new pass.old pass.new }
    {
        // A pass that stands between two steps tells how its swap fits together.
        let _swap = pass.swap();
        let to = self.target(system, pass);
        if transfer(alloc, &system.sys, pass, &to).is_err() {
            abandon(&system.sys, pass, &to);
            self.stage = Stage::Over;
            return Step::Memory;
        }
        open_entries(&system.sys, pass);
        end(&system.sys, pass);
        self.over(Swapped::Done(number_begun::<L>(pass)))
    }

    /// Draws that its object is over.
    pub(crate) fn mark<L: Clustered>(&mut self, system: &System<L>, pass: &mut Pass<L>) -> Step
        requires ours { IsPassHere system.now pass.old }
        requires stage { self.old.stage ≡ Stage.Marking }
        requires marking { IsAtStage Stage.Marking system.now.sys.shapes self.old pass.old }
        ensures { HasStepped system.now result self.old self.new pass.old pass.new }
    {
        layouts_are_told(system, pass, self.object);
        match mark(&system.sys, pass, Act::Swap(self.to)) {
            Marked::Held { holder } => Step::Again(Cause::CellHeld { holder }),
            Marked::Marked => {
                let live = system.sys.declared(self.object).live();
                self.over(end_over::<L>(pass, live))
            }
        }
    }
}
