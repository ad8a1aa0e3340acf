//! A system is started, and its passes are put into handles.
ghost use Rattle.std.specs.Prelude.{◌≡◌, ◌⊎◌, length, None, Some, Err, IfOk, MatchOption, OnOk};
ghost use Rattle.std.specs.Arc.{arc_value};
ghost use Rattle.std.specs.List.{list_any};
ghost use Rattle.k42_crews.specs.Ready.{IsFree, AreFree};
ghost use Rattle.k42_handles.specs.Handles.{is_full};
ghost use Rattle.k42_handles.specs.Starting.{AreGone, HasStarted, HasStartedInto, IsSeated, SitIn, object_coded, objects_coded, plan_coded};
ghost use Rattle.k42_handles.specs.declared.refusal.Refusal.TheVariants as refusals;

use crate::coding::{keep_named, kind_named, layout_named};
use crate::held::K42Pass;
use crate::holding::{put, take};
use crate::home::Home;
use crate::plain::K42Object;
use crate::refusal::Refusal;
use crate::seat::{Rests, Seat};
use co_system::{Pass, Plan, System, SystemLayout, kept_as};
use k42_desk::Desk;
use k42_memory::Memory;
use std::alloc::Global;
use std::sync::Arc;

/// The object of these numbers, if they are of a kind and of a layout.
fn object_coded(object: &K42Object) -> Option<SystemLayout>
    ensures { result ≡ object_coded object.now }
{
    match (kind_named(object.kind), layout_named(object.layout)) {
        (Some(kind), Some(layout)) => Some(kept_as(kind, layout)),
        _ => None,
    }
}

/// These plans, and behind them those of the objects, if each of them is one.
fn objects_coded(
    mut plans: Vec<SystemLayout>,
    objects: &[K42Object],
) -> Result<Option<Vec<SystemLayout>>, Memory>
    ensures { IfOk result (λ coded. MatchOption coded (objects_coded plans.items objects.now ≡ None)
        (λ all. objects_coded plans.items objects.now ≡ Some all.items)) }
{
    let Some((object, others)) = objects.split_first() else {
        return Ok(Some(plans));
    };
    let Some(plan) = object_coded(object) else {
        return Ok(None);
    };
    plans.push(plan)?;
    objects_coded(plans, others)
}

/// The same numbers again.
fn copied(alloc: Global, homes: &[u32]) -> Result<Vec<u32>, Memory>
    ensures { IfOk result (λ copy. copy.items ≡ homes.now) }
{
    let mut copy = Vec::new(alloc);
    copy.extend_from_slice(homes)?;
    Ok(copy)
}

/// The plan of these numbers.
fn plan_coded(
    alloc: Global,
    procs: u32,
    objects: &[K42Object],
    homes: &[u32],
    keep: u32,
) -> Result<Plan, Refusal>
    ensures { (result ≡ plan_coded procs objects.now homes.now keep) ⊎ (result ≡ Err refusals.Memory) }
{
    let Ok(coded) = objects_coded(Vec::new(alloc), objects) else {
        return Err(Refusal::Memory);
    };
    let Ok(homes) = copied(alloc, homes) else {
        return Err(Refusal::Memory);
    };
    match (keep_named(keep), coded) {
        (Some(keep), Some(objects)) => {
            Plan::new(procs, objects, homes, keep).map_err(Refusal::Plan)
        }
        _ => Err(Refusal::Argument),
    }
}

/// A pass in a seat.
fn seated(alloc: Global, home: &Arc<Home, Global>, pass: Pass) -> Result<Box<Seat, Global>, Memory>
    requires { IsFree (arc_value home.now).system pass }
    ensures { IfOk result (λ seat. IsSeated (arc_value home.now) pass seat.value) }
{
    let home = Arc::try_clone(home)?;
    let pass = Box::new(alloc, pass)?;
    Ok(Box::new(alloc, Seat::Rests(Rests { home, pass }))?)
}

/// Puts the passes into the handles, in order.
fn seat_all(
    alloc: Global,
    home: &Arc<Home, Global>,
    passes: &mut Vec<Pass>,
    handles: &mut [K42Pass],
) -> Result<(), Memory>
    requires free { AreFree (arc_value home.now).system passes.old.items }
    requires gone { AreGone handles.old }
    requires many { length passes.old.items ≡ length handles.old }
    ensures { OnOk result (SitIn (arc_value home.now) passes.old.items handles.new) }
{
    let Some((handle, others)) = handles.split_first_mut() else {
        return Ok(());
    };
    let pass = passes.remove(0);
    put(handle, seated(alloc, home, pass)?);
    seat_all(alloc, home, passes, others)
}

/// The system in a home, with room for all its passes.
#[tactic(auto, using(crate::proofs::GivenBack::few_callers))]
fn housed(alloc: Global, system: System) -> Result<Arc<Home, Global>, Memory>
    ensures { IfOk result (λ home. (arc_value home).system ≡ system) }
{
    let back = Vec::with_capacity(alloc, system.callers() as usize)?;
    let desk = Desk::new(alloc, back, &system)?;
    Ok(Arc::new(alloc, Home { system, desk })?)
}

/// Starts the system of the plan.
fn start_planned(alloc: Global, plan: Plan, handles: &mut [K42Pass]) -> Result<(), Memory>
    requires gone { AreGone handles.old }
    requires many { length plan.callers ≡ length handles.old }
    ensures { OnOk result (HasStartedInto plan handles.new) }
{
    let (system, mut passes) = k42_crews::start(alloc, plan)?;
    let home = housed(alloc, system)?;
    seat_all(alloc, &home, &mut passes, handles)
}

/// Empties the handles.
fn clear(alloc: Global, handles: &mut [K42Pass])
    ensures { AreGone handles.new }
{
    let Some((handle, others)) = handles.split_first_mut() else {
        return;
    };
    drop(take(alloc, handle));
    clear(alloc, others);
}

/// Whether some handle has a seat.
fn are_full(handles: &[K42Pass]) -> bool
    ensures { result ≡ list_any is_full handles.now }
{
    handles.iter().any(|handle| handle.full == 1)
}

/// Starts a system with a pass for each handle. Where it is refused, all handles stay empty, or as they are.
pub fn start(
    alloc: Global,
    procs: u32,
    objects: &[K42Object],
    homes: &[u32],
    keep: u32,
    handles: &mut [K42Pass],
) -> Result<(), Refusal>
    ensures { HasStarted procs objects.now homes.now keep handles.old handles.new result }
{
    if are_full(handles) {
        return Err(Refusal::Full);
    }
    if handles.len() != homes.len() {
        return Err(Refusal::Argument);
    }
    let plan = plan_coded(alloc, procs, objects, homes, keep)?;
    match start_planned(alloc, plan, handles) {
        Ok(()) => Ok(()),
        Err(Memory) => {
            clear(alloc, handles);
            Err(Refusal::Memory)
        }
    }
}
