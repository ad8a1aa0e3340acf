//! Passes are given back one by one, and the last leaves the history.
ghost use Rattle.std.specs.Prelude.{◌≡◌, ◌≢◌, Err, ◌<◌, ◌≤◌, length, vec_len, vec_capacity};
ghost use Rattle.std.specs.Arc.{arc_value};
ghost use Rattle.k42_crews.specs.Ready.{IsFree, AreFree};
ghost use Rattle.k42_handles.specs.Closing.{AreGiven, HasClosed, HasDropped, HasEndedAgain, HasFinished, HasGivenBack, IsAdded, is_whole};
ghost use Rattle.k42_handles.specs.declared.refusal.Refusal.TheVariants as refusals;
ghost use Rattle.k42_handles.specs.declared.seat.Seat.TheVariants as seats;

use crate::home::Home;
use crate::missing::missing_of;
use crate::refusal::Refusal;
use crate::seat::{Closes, End, Rests, Seat, Whole};
use crate::steps::refusal_of;
use co_system::{Keep, Pass, System, Unclosed};
use k42_crews::are_all;
use std::alloc::Global;
use std::mem::replace;
use std::sync::Arc;

/// What was done with a pass that was given back.
#[derive(Clone, Copy, Debug, PartialEq, Eq)]
pub enum Given {
    /// These others are missing still, a bit each: of pass 0 it is 1, of pass 1 it is 2.
    Missing(u32),
    /// All are there, and the seat has their history.
    History,
    /// All are there, and nobody kept their entries.
    Nothing,
}

/// Before how many passes one of this caller stands.
fn place_of(passes: &[Pass], caller: u32) -> usize
    ensures { result ≤ length passes.now }
{
    for place in 0..passes.len() {
        if passes[place].caller() > caller {
            return place;
        }
    }
    passes.len()
}

/// Puts the pass among the others, in the order of callers.
#[tactic(auto, using(crate::proofs::GivenBack::inserted, crate::proofs::GivenBack::inserted_there))]
pub(crate) fn add(system: &System, passes: &mut Vec<Pass>, pass: Pass)
    requires others { AreFree system.now passes.old.items }
    requires one { IsFree system.now pass }
    requires room { vec_len passes.old < vec_capacity passes.old }
    ensures given { AreGiven system.now pass passes.new.items }
    ensures added { IsAdded passes.old.items pass passes.new.items }
{
    let place = place_of(passes.as_slice(), pass.caller());
    match passes.insert(place, pass) {
        Ok(()) => {}
        Err(_) => unreachable!(),
    }
}

/// Closes the system, or ends it where nobody has kept entries.
fn finish(alloc: Global, whole: Whole, mut end: Box<End, Global>) -> (Seat, Result<Given, Refusal>)
    ensures finished { HasFinished whole.system whole.passes.items result.0 result.1 }
    ensures waits_for_nobody { result.1 ≢ Err refusals.Again }
{
    let Whole { system, passes } = whole;
    if system.keep() != Keep::All {
        system.end(passes);
        return (Seat::Gone, Ok(Given::Nothing));
    }
    match system.close(alloc, passes) {
        Ok(history) => {
            *end = End::History(history);
            (Seat::Ends(end), Ok(Given::History))
        }
        Err(back) => {
            let Unclosed { system, passes } = back;
            *end = End::Whole(Whole { system, passes });
            (Seat::Ends(end), Err(Refusal::Memory))
        }
    }
}

/// Takes the system out of its home, once nobody else is there.
fn leave_home(alloc: Global, closes: Closes) -> (Seat, Result<Given, Refusal>)
    ensures { HasFinished (arc_value closes.home).system closes.passes.items result.0 result.1 }
{
    let Closes { home, passes, end } = closes;
    match Arc::try_unwrap(home) {
        Ok(Home { system, desk: _ }) => finish(alloc, Whole { system, passes }, end),
        Err(home) => (
            Seat::Closes(Closes { home, passes, end }),
            Err(Refusal::Again),
        ),
    }
}

/// Gives the pass back.
fn give_back(alloc: Global, rests: Rests) -> (Seat, Result<Given, Refusal>)
    ensures { HasGivenBack rests result.0 result.1 }
{
    let Ok(end) = Box::new(alloc, End::Open) else {
        return (Seat::Rests(rests), Err(Refusal::Memory));
    };
    let Some((mut passes, loan)) = rests.home.desk.take() else {
        return (Seat::Rests(rests), Err(Refusal::Again));
    };
    if passes.reserve(1).is_err() {
        rests.home.desk.put_back(passes, loan);
        return (Seat::Rests(rests), Err(Refusal::Memory));
    }
    let Rests { home, pass } = rests;
    add(&home.system, &mut passes, Box::into_inner(pass));
    if are_all(&home.system, passes.as_slice()) {
        home.desk.put_back(Vec::new(alloc), loan);
        return leave_home(alloc, Closes { home, passes, end });
    }
    let missing = missing_of(&home.system, passes.as_slice());
    home.desk.put_back(passes, loan);
    (Seat::Gone, Ok(Given::Missing(missing)))
}

/// Whether the end has a system with its passes.
fn is_whole(end: &End) -> bool
    ensures { result ≡ is_whole end.now }
{
    matches!(end, End::Whole(_))
}

/// Closes again, where there was no memory before.
fn end_again(alloc: Global, mut end: Box<End, Global>) -> (Seat, Result<Given, Refusal>)
    ensures { HasEndedAgain end.value (seats.Ends end) result.0 result.1 }
{
    if !is_whole(end.as_ref()) {
        return (Seat::Ends(end), Err(Refusal::Turn));
    }
    match Box::replace(&mut end, End::Open) {
        End::Whole(whole) => finish(alloc, whole, end),
        _ => unreachable!(),
    }
}

/// The seat once its pass was given back.
fn closed(alloc: Global, seat: Seat) -> (Seat, Result<Given, Refusal>)
    ensures { HasClosed seat result.0 result.1 }
{
    match seat {
        Seat::Rests(rests) => give_back(alloc, rests),
        Seat::Closes(closes) => leave_home(alloc, closes),
        Seat::Ends(end) => end_again(alloc, end),
        other => {
            let why = refusal_of(&other);
            (other, Err(why))
        }
    }
}

/// Gives the pass back, and closes the system with the last.
pub fn close(alloc: Global, seat: &mut Seat) -> Result<Given, Refusal>
    ensures { HasClosed seat.old seat.new result }
{
    let (new, given) = closed(alloc, replace(seat, Seat::Gone));
    *seat = new;
    given
}

/// Drops what rests in the seat.
pub fn give_up(seat: &mut Seat) -> Result<(), Refusal>
    ensures { HasDropped seat.old seat.new result }
{
    match seat {
        Seat::Gone | Seat::Works(_) | Seat::Swaps(_) | Seat::Reclaims(_) => Err(refusal_of(seat)),
        _ => {
            *seat = Seat::Gone;
            Ok(())
        }
    }
}
