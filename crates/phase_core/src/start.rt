//! States in which nobody has entered.
ghost use Rattle.std.specs.Prelude.{◌≡◌, ◌≤◌, map, replicate, IfOk};
ghost use Rattle.k42_limits.specs.declared.TheConstants.{OBJECTS};
ghost use Rattle.phase_core.specs.State.{new_object, new_visitor, new_phases, IsPlan};
ghost use Rattle.phase_core.specs.Sound.{IsSound};

use crate::caller::{PhaseCaller, Place, SwapAt};
use crate::object::{LocalEntry, ObjectPlan, PhaseObject};
use crate::state::PhaseState;
use gen_core::GenState;
use k42_memory::Memory;
use std::alloc::Global;

fn new_object(alloc: Global, procs: u32, plan: ObjectPlan) -> Result<PhaseObject, Memory>
    ensures { IfOk result (λ k. k ≡ new_object procs plan) }
{
    let entry = LocalEntry::empty(0);
    Ok(PhaseObject {
        shapes: plan.shapes,
        count: 0,
        swap: false,
        block: false,
        moving: false,
        complete: false,
        layout: plan.layout,
        incarnation: 0,
        entries: vec![in alloc; entry; procs as usize]?,
        freed: 0,
    })
}

fn new_caller(alloc: Global, objects: usize) -> Result<PhaseCaller, Memory>
    requires { objects ≤ OBJECTS }
    ensures { IfOk result (λ x. x ≡ new_visitor objects) }
{
    Ok(PhaseCaller {
        place: Place::Out,
        read: Vec::with_capacity(alloc, 2 * objects)?,
        noted: vec![in alloc; None; objects]?,
        freeing: vec![in alloc; (0, 0); objects]?,
        swap: SwapAt::Idle,
    })
}

fn new_objects(
    alloc: Global,
    procs: u32,
    plans: Vec<ObjectPlan>,
) -> Result<Vec<PhaseObject>, Memory>
    ensures { IfOk result (λ v. v.items ≡ map (new_object procs) plans.items) }
{
    let mut list = Vec::with_capacity(alloc, plans.len())?;
    for plan in plans {
        list.push(new_object(alloc, procs, plan)?)?;
    }
    Ok(list)
}

fn new_callers(alloc: Global, count: usize, objects: usize) -> Result<Vec<PhaseCaller>, Memory>
    requires { objects ≤ OBJECTS }
    ensures { IfOk result (λ v. v.items ≡ replicate count (new_visitor objects)) }
{
    let mut list = Vec::with_capacity(alloc, count)?;
    for _ in 0..count {
        list.push(new_caller(alloc, objects)?)?;
    }
    Ok(list)
}

impl PhaseState {
    /// A state in which nobody has entered. The callers are given by their processors.
    pub fn new(
        alloc: Global,
        procs: u32,
        plans: Vec<ObjectPlan>,
        callers: Vec<u32>,
    ) -> Result<PhaseState, Memory>
        requires { IsPlan procs plans.items callers.items }
        ensures new { IfOk result (λ s. s ≡ new_phases procs plans.items callers.items) }
        ensures sound { IfOk result IsSound }
    {
        Ok(PhaseState {
            callers: new_callers(alloc, callers.len(), plans.len())?,
            objects: new_objects(alloc, procs, plans)?,
            turns: GenState::new(alloc, procs, callers)?,
        })
    }
}
