//! What a system is made of.
ghost use Rattle.std.specs.Prelude.{◌≡◌, ◌≤◌, ◌+◌, length, Some, None, IfOk, IfErr};
ghost use Rattle.k42_limits.specs.declared.TheConstants.{CALLERS, OBJECTS};
ghost use Rattle.k42_runtime.specs.Plans.{dead_from, plan_fault, stray_from};
ghost use Rattle.k42_runtime.specs.Systems.{is_live_by};

use k42_board::Keep;
use k42_kinds::Layout;
use k42_limits::{CALLERS, OBJECTS, PROCESSORS};
use std::marker::Model;

/// Why there is no such system.
#[derive(Clone, Copy, Debug, PartialEq, Eq, thiserror::Error)]
pub enum PlanFault {
    #[error("there are 1 to 8 processors")]
    Procs,
    #[error("there are 1 to 16 objects")]
    Objects,
    #[error("there are 1 to 16 callers")]
    Callers,
    #[error("the processor of caller {caller} is not there")]
    Processor { caller: u32 },
    #[error("object {object} starts in no live layout")]
    Dead { object: u32 },
}

/// Processors, objects, callers, of each its processor, and which entries their passes keep.
#[derive(Drop)]
pub struct Plan<L: Layout> {
    pub(crate) procs: u32,
    pub(crate) objects: Vec<L>,
    pub(crate) callers: Vec<u32>,
    pub(crate) keep: Keep,
}

impl<L: Layout> Model for Plan<L> {
    ghost use Rattle.k42_runtime.specs.Systems.{is_live_by};
    ghost use Rattle.k42_runtime.specs.Plans.{PlanSeen, IsSoundPlan};

    ghost Value = { PlanSeen L };

    ghost view = { λ p. record { procs = p.procs; objects = p.objects.items; callers = p.callers.items; keep = p.keep } };

    ghost invariant = { λ p. IsSoundPlan (is_live_by L.shapes L.tag_of) (record { procs = p.procs; objects = p.objects.items; callers = p.callers.items; keep = p.keep }) };
}

/// The first caller whose processor is not there; these callers are counted from a first one.
fn stray(procs: u32, first: u32, homes: &[u32]) -> Option<PlanFault>
    requires { first + length homes.now ≤ CALLERS }
    ensures { result ≡ stray_from procs first homes.now }
{
    let (home, others) = homes.split_first()?;
    if *home < procs {
        stray(procs, first + 1, others)
    } else {
        Some(PlanFault::Processor { caller: first })
    }
}

/// The first object that would start in no live layout; these objects are counted from a first one.
fn dead<L: Layout>(first: u32, objects: &[L]) -> Option<PlanFault>
    requires { first + length objects.now ≤ OBJECTS }
    ensures { result ≡ dead_from (is_live_by L.shapes L.tag_of) first objects.now }
{
    let (object, others) = objects.split_first()?;
    if object.tag() < object.live() {
        dead(first + 1, others)
    } else {
        Some(PlanFault::Dead { object: first })
    }
}

/// The first fault of such a plan, in the order in which they are listed.
fn first_fault<L: Layout>(procs: u32, objects: &[L], callers: &[u32]) -> Option<PlanFault>
    ensures { result ≡ plan_fault (is_live_by L.shapes L.tag_of) procs objects.now callers.now }
{
    if procs == 0 || procs > PROCESSORS {
        return Some(PlanFault::Procs);
    }
    if objects.is_empty() || objects.len() > OBJECTS {
        return Some(PlanFault::Objects);
    }
    if callers.is_empty() || callers.len() > CALLERS {
        return Some(PlanFault::Callers);
    }
    match stray(procs, 0, callers) {
        Some(fault) => Some(fault),
        None => dead(0, objects),
    }
}

impl<L: Layout> Plan<L> {
    /// Which of its entries each pass keeps.
    pub fn keep(&self) -> Keep
        ensures { result ≡ self.now.keep }
    {
        self.keep
    }

    /// A plan with these fields, or the first of their faults, in the order in which they are listed.
    pub fn new(
        procs: u32,
        objects: Vec<L>,
        callers: Vec<u32>,
        keep: Keep,
    ) -> Result<Plan<L>, PlanFault>
        ensures plan { IfOk result (λ plan. plan ≡ record { procs = procs; objects = objects.items; callers = callers.items; keep = keep }) }
        ensures sound { IfOk result (λ plan. plan_fault (is_live_by L.shapes L.tag_of) procs objects.items callers.items ≡ None) }
        ensures fault { IfErr result (λ fault. plan_fault (is_live_by L.shapes L.tag_of) procs objects.items callers.items ≡ Some fault) }
    {
        match first_fault(procs, objects.as_slice(), callers.as_slice()) {
            Some(fault) => Err(fault),
            None => Ok(Plan {
                procs,
                objects,
                callers,
                keep,
            }),
        }
    }
}
