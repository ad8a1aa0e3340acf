//! Swaps, destroys, watches and unwatches that wait, and rows that are freed.
ghost use Rattle.std.specs.Prelude.{◌≡◌, ◌+◌, ◌<◌, [], length};
ghost use Rattle.k42_limits.specs.declared.TheConstants.{PASS_GRACES};
ghost use Rattle.k42_runtime.specs.Reclaims.{HasReclaimed};
ghost use Rattle.k42_runtime.specs.Swaps.{MayStart, IsAtStage, IsSameCaller, HasEnded};
ghost use Rattle.k42_runtime.specs.declared.swaps.Stage.TheVariants as Stage;
ghost use Rattle.k42_board.specs.Stepping.{layouts_in};
ghost use Rattle.k42_runtime.specs.Systems.{IsPassHere, IsAtRest, MayLead};
ghost use Rattle.k42_kinds.specs.declared.entry.To.TheVariants as To;

use crate::patience::wait_for_swap;
use crate::swaps::{NoSwap, Step, Swap, Swapped};
use crate::system::System;
use k42_clustered::Clustered;
use k42_kinds::To;
use k42_quiesce::{collect, grace, hand_over, reclaim};
use k42_rule::Pass;
use std::alloc::Global;
use std::sync::Wait;

/// Steps a new swap until it is over.
fn carry_out<L: Clustered, R: Wait>(
    rt: &R,
    alloc: Global,
    system: &System<L>,
    pass: &mut Pass<L>,
    swap: &mut Swap,
) -> Result<Swapped, NoSwap>
    requires ours { IsPassHere system.now pass.old }
    requires new { swap.old.stage ≡ Stage.New }
    requires stage { IsAtStage Stage.New system.now.sys.shapes swap.old pass.old }
    requires leads { MayLead L.leads system.now.plan.objects swap.old.object swap.old.to }
    ensures { HasEnded system.now swap.old.object swap.old.to result pass.old pass.new }
{
    let mut waited = 0u32;
    for _ in rt.forever() {
        match swap.step(alloc, system, pass) {
            Step::Again(_) => wait_for_swap(&mut waited),
            Step::Ended(end) => return Ok(end),
            Step::Memory => return Err(NoSwap::Memory),
            Step::Worn => return Err(NoSwap::Worn),
        }
    }
    unreachable!()
}

impl<L: Clustered> System<L> {
    /// Swaps the object to that. Its grace serves the rows that others have handed over, and those that
    /// are not freed yet are handed over to the next.
    fn swap_to<R: Wait>(
        &self,
        rt: &R,
        alloc: Global,
        pass: &mut Pass<L>,
        object: u32,
        to: To,
    ) -> Result<Swapped, NoSwap>
        requires ours { IsPassHere self.now pass.old }
        requires may { MayStart (length self.now.plan.objects) object pass.old }
        requires leads { MayLead L.leads self.now.plan.objects object to }
        ensures { HasEnded self.now object to result pass.old pass.new }
    {
        collect(rt, &self.sys, pass);
        let mut swap = Swap::new(object, to);
        let end = carry_out(rt, alloc, self, pass, &mut swap);
        // Rows for which there is no memory stay with the pass.
        let _ = hand_over(rt, &self.sys, pass);
        end
    }

    /// Replaces the implementation of the object by its layout of that number while it is called. Waits for the activities that are open, for the calls
    /// that are inside, and for the graces of others.
    pub fn swap<R: Wait>(
        &self,
        rt: &R,
        alloc: Global,
        pass: &mut Pass<L>,
        object: u32,
        layout: u8,
    ) -> Result<Swapped, NoSwap>
        requires ours { IsPassHere self.now pass.old }
        requires may { MayStart (length self.now.plan.objects) object pass.old }
        requires leads { MayLead L.leads self.now.plan.objects object (To.Layout layout) }
        ensures { HasEnded self.now object (To.Layout layout) result pass.old pass.new }
    {
        self.swap_to(rt, alloc, pass, object, To::Layout(layout))
    }

    /// The same with the dead implementation.
    pub fn destroy<R: Wait>(
        &self,
        rt: &R,
        alloc: Global,
        pass: &mut Pass<L>,
        object: u32,
    ) -> Result<Swapped, NoSwap>
        requires ours { IsPassHere self.now pass.old }
        requires may { MayStart (length self.now.plan.objects) object pass.old }
        requires leads { MayLead L.leads self.now.plan.objects object To.Dead }
        ensures { HasEnded self.now object To.Dead result pass.old pass.new }
    {
        self.swap_to(rt, alloc, pass, object, To::Dead)
    }

    /// Places a layer round the object, in the layout in which it is kept, that counts its calls from 0, and does so
    /// anew where it has one.
    pub fn watch<R: Wait>(
        &self,
        rt: &R,
        alloc: Global,
        pass: &mut Pass<L>,
        object: u32,
    ) -> Result<Swapped, NoSwap>
        requires ours { IsPassHere self.now pass.old }
        requires may { MayStart (length self.now.plan.objects) object pass.old }
        requires leads { MayLead L.leads self.now.plan.objects object To.Watch }
        ensures { HasEnded self.now object To.Watch result pass.old pass.new }
    {
        self.swap_to(rt, alloc, pass, object, To::Watch)
    }

    /// Takes the layer away, and keeps the layout.
    pub fn unwatch<R: Wait>(
        &self,
        rt: &R,
        alloc: Global,
        pass: &mut Pass<L>,
        object: u32,
    ) -> Result<Swapped, NoSwap>
        requires ours { IsPassHere self.now pass.old }
        requires may { MayStart (length self.now.plan.objects) object pass.old }
        requires leads { MayLead L.leads self.now.plan.objects object To.Unwatch }
        ensures { HasEnded self.now object To.Unwatch result pass.old pass.new }
    {
        self.swap_to(rt, alloc, pass, object, To::Unwatch)
    }

    /// Frees the old rows that the pass holds and those that were handed over to it, once nobody can reach them, and
    /// answers how many rows it has freed.
    pub fn reclaim<R: Wait>(&self, rt: &R, pass: &mut Pass<L>) -> u32
        requires ours { IsPassHere self.now pass.old }
        requires rests { IsAtRest pass.old.view }
        requires few { pass.old.view.graces < PASS_GRACES }
        ensures here { IsPassHere self.now pass.new }
        ensures rests { IsAtRest pass.new.view }
        ensures seat { pass.new.seat ≡ pass.old.seat }
        ensures keep { pass.new.keep ≡ pass.old.keep }
        ensures caller { IsSameCaller pass.old.view pass.new.view }
        ensures graces { pass.new.view.graces ≡ pass.old.view.graces + 1 }
        ensures entries { pass.new.view.taker.mine ≡ pass.old.view.taker.mine }
        ensures none { pass.new.view.rows ≡ [] }
        ensures reclaimed { HasReclaimed (layouts_in L.Layout self.now.sys) self.now.sys.layouts result pass.old pass.new }
    {
        collect(rt, &self.sys, pass);
        grace(rt, &self.sys, pass);
        reclaim(&self.sys, pass)
    }
}
