//! A system: its table and its plan.
ghost use Rattle.std.specs.Prelude.{◌≡◌, ◌%◌, ◌<◌, ◌↔◌, true, Some, length, slice_get, IfOk};
ghost use Rattle.k42_board.specs.Generating.{active_in, entered_view, left_view};
ghost use Rattle.k42_board.specs.Log.{last_found, took};
ghost use Rattle.k42_board.specs.Seen.{IsSamePass};
ghost use Rattle.k42_board.specs.Views.{live_at};
ghost use Rattle.k42_board.specs.Words.{exits_word, generation_word};
ghost use Rattle.k42_board.specs.declared.view.StepName.TheVariants as steps;
ghost use Rattle.k42_quiesce.specs.Activities.{HasEntered};
ghost use Rattle.k42_runtime.specs.Calls.{IsAsked};
ghost use Rattle.k42_runtime.specs.Systems.{IsPassHere, IsAtWork, IsAtRest, HasStarted, live_in};

use crate::plan::Plan;
use k42_clustered::Clustered;
use k42_kinds::Layout;
use k42_memory::Memory;
use k42_rule::{Keep, Pass, Sys};
use std::alloc::Global;
use std::marker::Model;

/// Clustered objects, each under calls and swaps of any passes.
#[derive(Drop)]
pub struct System<L: Layout> {
    pub(crate) sys: Sys<L>,
    pub(crate) plan: Plan<L>,
}

impl<L: Layout> Model for System<L> {
    ghost use Rattle.k42_runtime.specs.Systems.{SystemSeen, IsPlanned, is_live_by};

    ghost Value = { SystemSeen L };

    ghost view = { λ s. record { sys = s.sys; plan = s.plan } };

    ghost invariant = { λ s. IsPlanned (is_live_by L.shapes L.tag_of) (record { sys = s.sys; plan = s.plan }) };
}

/// The same layouts again.
fn layouts_of<L: Layout>(alloc: Global, objects: &[L]) -> Result<Vec<L>, Memory>
    ensures { IfOk result (λ copy. copy.items ≡ objects.now) }
{
    let mut copy = Vec::new(alloc);
    copy.extend_from_slice(objects)?;
    Ok(copy)
}

/// The same numbers again.
fn copied(alloc: Global, homes: &[u32]) -> Result<Vec<u32>, Memory>
    ensures { IfOk result (λ copy. copy.items ≡ homes.now) }
{
    let mut copy = Vec::new(alloc);
    copy.extend_from_slice(homes)?;
    Ok(copy)
}

/// What a pass was told of an object's layouts is what the declared one tells.
pub(crate) fn layouts_are_told<L: Layout>(system: &System<L>, pass: &Pass<L>, object: u32)
    requires ours { IsPassHere system.now pass.now }
    requires there { object < length system.now.sys.shapes }
    ensures live { live_at pass.now.view object ≡ live_in system.now.sys.shapes object }
{
    let _declared = system.sys.declared(object);
}

impl<L: Clustered> System<L> {
    /// A system of empty objects, and its passes in the order of the plan's callers.
    pub fn start(alloc: Global, plan: Plan<L>) -> Result<(System<L>, Vec<Pass<L>>), Memory>
        ensures { IfOk result (λ made. HasStarted L.Layout plan made.0 made.1.items) }
    {
        let layouts = layouts_of(alloc, plan.objects.as_slice())?;
        let callers = copied(alloc, plan.callers.as_slice())?;
        let (sys, passes) = Sys::start(alloc, layouts, plan.procs, callers, plan.keep)?;
        Ok((System { sys, plan }, passes))
    }

    /// The layout with which an object was started.
    pub fn declared(&self, object: u32) -> L
        requires { object < length self.now.plan.objects }
        ensures { slice_get self.now.plan.objects object ≡ Some result }
    {
        self.plan.objects[object as usize]
    }

    /// Its table, for whoever takes the phases of a swap one by one.
    pub fn table(&self) -> &Sys<L>
        ensures { result.now ≡ self.now.sys }
    {
        &self.sys
    }

    /// Which of its entries each of its passes keeps.
    pub fn keep(&self) -> Keep
        ensures plan { result ≡ self.now.plan.keep }
        ensures table { result ≡ self.now.sys.keep }
    {
        self.plan.keep
    }

    /// How many objects it has.
    pub fn objects(&self) -> u32
        ensures plan { result ≡ length self.now.plan.objects }
        ensures table { result ≡ length self.now.sys.shapes }
    {
        self.plan.objects.len() as u32
    }

    /// How many callers it was started for.
    pub fn callers(&self) -> u32
        ensures { result ≡ length self.now.plan.callers }
    {
        self.plan.callers.len() as u32
    }

    /// Whether there is such an object, and whether it takes the operation.
    pub fn takes(&self, object: u32, op: &L::Op) -> bool
        ensures { (result ≡ true) ↔ IsAsked L.object self.now.plan.objects object op.now }
    {
        match self.plan.objects.get(object as usize) {
            Some(declared) => declared.takes(op),
            None => false,
        }
    }

    /// Begins an activity, in which the pass may call.
    pub fn enter(&self, pass: &mut Pass<L>)
        requires ours { IsPassHere self.now pass.old }
        requires rests { IsAtRest pass.old.view }
        ensures here { IsPassHere self.now pass.new }
        ensures same { IsSamePass pass.old pass.new }
        ensures works { IsAtWork pass.new.view }
        ensures entered { HasEntered pass.new.view }
        ensures knows { pass.new.view ≡ took steps.Enter (generation_word pass.old.view.turn.proc) (last_found pass.new.view.log)
            (entered_view (last_found pass.new.view.log) pass.old.view) }
    {
        k42_quiesce::enter(&self.sys, pass);
    }

    /// Ends the activity.
    pub fn leave(&self, pass: &mut Pass<L>)
        requires ours { IsPassHere self.now pass.old }
        requires works { IsAtWork pass.old.view }
        ensures here { IsPassHere self.now pass.new }
        ensures same { IsSamePass pass.old pass.new }
        ensures rests { IsAtRest pass.new.view }
        ensures knows { pass.new.view ≡ took steps.Leave (exits_word pass.old.view.turn.proc (active_in pass.old.view % 2))
            (last_found pass.new.view.log) (left_view pass.old.view) }
    {
        k42_quiesce::leave(&self.sys, pass);
    }
}
