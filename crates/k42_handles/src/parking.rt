//! Passes are put to the desk of their home for a section, and are taken up again.
ghost use Rattle.std.specs.Prelude.{◌≡◌, ◌≤◌, length, IfSome};
ghost use Rattle.k42_crews.specs.Ready.{AreFree, callers_of};
ghost use Rattle.k42_handles.specs.Parking.{HasGivenSection, HasParkedOrNot, HasResumed, HasTakenUp, HasTriedOrNot, HaveTried, IsAt, is_section};

use crate::closing::add;
use crate::missing::missing_of;
use crate::refusal::Refusal;
use crate::seat::{End, Parks, Rests, Seat};
use crate::steps::refusal_of;
use co_system::{Keep, Pass, System};
use k42_crews::{are_all, section};
use k42_memory::Memory;
use std::alloc::Global;
use std::mem::replace;

/// What has come of a pass that was put to the desk.
#[derive(Clone, Copy, Debug, PartialEq, Eq)]
pub enum Parked {
    /// These others are missing still, as of a close.
    Missing(u32),
    /// All are there, and the seat has their section.
    Section,
    /// It is there no more: the others have closed the system with it.
    Closed,
}

/// What has come of a pass that was to be taken up.
#[derive(Clone, Copy, Debug, PartialEq, Eq)]
pub enum Resumed {
    Back,
    /// It is there no more.
    Closed,
}

/// Makes the section of the passes, where they are all.
fn give(
    alloc: Global,
    system: &System,
    passes: &mut Vec<Pass>,
    end: &mut End,
) -> Result<Parked, Refusal>
    requires free { AreFree system.now passes.old.items }
    requires few { length system.now.plan.callers ≤ 16 }
    ensures free { AreFree system.now passes.new.items }
    ensures callers { callers_of passes.new.items ≡ callers_of passes.old.items }
    ensures given { HaveTried system.now passes.old.items passes.new.items end.old end.new result }
{
    if !are_all(system, passes.as_slice()) {
        return Ok(Parked::Missing(missing_of(system, passes.as_slice())));
    }
    match section(alloc, system, passes.as_mut_slice()) {
        Ok(Some(journal)) => {
            *end = End::Section(journal);
            Ok(Parked::Section)
        }
        Ok(None) => Err(Refusal::Sections),
        Err(Memory) => Err(Refusal::Memory),
    }
}

/// Puts the pass to the desk.
fn park(alloc: Global, rests: Rests) -> (Seat, Result<Parked, Refusal>)
    ensures { HasParkedOrNot rests result.0 result.1 }
{
    if rests.home.system.keep() != Keep::Sections {
        return (Seat::Rests(rests), Err(Refusal::Sections));
    }
    let Ok(mut section) = Box::new(alloc, End::Open) else {
        return (Seat::Rests(rests), Err(Refusal::Memory));
    };
    let Some((mut passes, loan)) = rests.home.desk.take() else {
        return (Seat::Rests(rests), Err(Refusal::Again));
    };
    if passes.reserve(1).is_err() {
        rests.home.desk.put_back(passes, loan);
        return (Seat::Rests(rests), Err(Refusal::Memory));
    }
    let Rests { home, pass } = rests;
    let caller = pass.caller();
    add(&home.system, &mut passes, Box::into_inner(pass));
    let told = give(alloc, &home.system, &mut passes, &mut section);
    home.desk.put_back(passes, loan);
    let parks = Parks {
        home,
        caller,
        section,
    };
    (Seat::Parks(parks), told)
}

/// Whether it has a section.
fn is_section(end: &End) -> bool
    ensures { result ≡ is_section end.now }
{
    matches!(end, End::Section(_))
}

/// Where the pass of this caller is.
fn place_at(passes: &[Pass], caller: u32) -> Option<usize>
    ensures { IfSome result (λ place. IsAt caller passes.now place) }
{
    for place in 0..passes.len() {
        if passes[place].caller() == caller {
            return Some(place);
        }
    }
    None
}

/// Tries again, for a pass that lies there.
fn try_again(alloc: Global, parks: Parks) -> (Seat, Result<Parked, Refusal>)
    ensures { HasTriedOrNot parks result.0 result.1 }
{
    if is_section(parks.section.as_ref()) {
        return (Seat::Parks(parks), Err(Refusal::Turn));
    }
    let Some((mut passes, loan)) = parks.home.desk.take() else {
        return (Seat::Parks(parks), Err(Refusal::Again));
    };
    if place_at(passes.as_slice(), parks.caller).is_none() {
        parks.home.desk.put_back(passes, loan);
        return (Seat::Gone, Ok(Parked::Closed));
    }
    let Parks {
        home,
        caller,
        mut section,
    } = parks;
    let told = give(alloc, &home.system, &mut passes, &mut section);
    home.desk.put_back(passes, loan);
    let parks = Parks {
        home,
        caller,
        section,
    };
    (Seat::Parks(parks), told)
}

/// Takes the pass up.
fn take_up(alloc: Global, parks: Parks) -> (Seat, Result<Resumed, Refusal>)
    ensures { HasTakenUp parks result.0 result.1 }
{
    let Some((mut passes, loan)) = parks.home.desk.take() else {
        return (Seat::Parks(parks), Err(Refusal::Again));
    };
    let Some(place) = place_at(passes.as_slice(), parks.caller) else {
        parks.home.desk.put_back(passes, loan);
        return (Seat::Gone, Ok(Resumed::Closed));
    };
    match Box::new(alloc, passes.remove(place)) {
        Ok(pass) => {
            parks.home.desk.put_back(passes, loan);
            let Parks { home, .. } = parks;
            (Seat::Rests(Rests { home, pass }), Ok(Resumed::Back))
        }
        Err(back) => {
            add(&parks.home.system, &mut passes, back.value);
            parks.home.desk.put_back(passes, loan);
            (Seat::Parks(parks), Err(Refusal::Memory))
        }
    }
}

/// The seat once its pass has given to a section.
fn given(alloc: Global, seat: Seat) -> (Seat, Result<Parked, Refusal>)
    ensures { HasGivenSection seat result.0 result.1 }
{
    match seat {
        Seat::Rests(rests) => park(alloc, rests),
        Seat::Parks(parks) => try_again(alloc, parks),
        other => {
            let why = refusal_of(&other);
            (other, Err(why))
        }
    }
}

/// The seat once its pass was taken up.
fn taken_up(alloc: Global, seat: Seat) -> (Seat, Result<Resumed, Refusal>)
    ensures { HasResumed seat result.0 result.1 }
{
    match seat {
        Seat::Parks(parks) => take_up(alloc, parks),
        other => {
            let why = refusal_of(&other);
            (other, Err(why))
        }
    }
}

/// Puts the pass to the desk for a section, which the last makes.
pub fn give_section(alloc: Global, seat: &mut Seat) -> Result<Parked, Refusal>
    ensures { HasGivenSection seat.old seat.new result }
{
    let (new, told) = given(alloc, replace(seat, Seat::Gone));
    *seat = new;
    told
}

/// Takes the pass up again.
pub fn resume(alloc: Global, seat: &mut Seat) -> Result<Resumed, Refusal>
    ensures { HasResumed seat.old seat.new result }
{
    let (new, told) = taken_up(alloc, replace(seat, Seat::Gone));
    *seat = new;
    told
}
