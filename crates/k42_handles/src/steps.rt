//! What is done with a seat until its pass is given back.
ghost use Rattle.k42_handles.specs.Calling.{HasServed};
ghost use Rattle.k42_handles.specs.Seats.{HasAnswered, HasEntered, HasLeft, refusal_of};
ghost use Rattle.k42_handles.specs.declared.seat.Seat.TheVariants as seats;
ghost use Rattle.std.specs.Prelude.{◌≡◌};

use crate::refusal::Refusal;
use crate::seat::{Rests, Seat, Works};
use co_system::{Attempt, Op, Reply};
use std::alloc::Global;
use std::mem::{forget, replace};

/// What is told of a seat that may not do what is asked.
pub(crate) fn refusal_of(seat: &Seat) -> Refusal
    ensures { result ≡ refusal_of seat.now }
{
    match seat {
        Seat::Gone => Refusal::Empty,
        _ => Refusal::Turn,
    }
}

/// Puts a pass at work in place of a seat that is gone, of which nothing is to be dropped. The new seat is made here, after
/// the step on the table: zeros that lie ready before it would be copied.
#[inline(always)]
fn fill_with_work(seat: &mut Seat, works: Works)
    requires { seat.old ≡ seats.Gone }
    ensures { seat.new ≡ seats.Works works }
{
    forget(replace(seat, Seat::Works(works)));
}

/// The same with a pass that rests.
#[inline(always)]
fn fill_with_rest(seat: &mut Seat, rests: Rests)
    requires { seat.old ≡ seats.Gone }
    ensures { seat.new ≡ seats.Rests rests }
{
    forget(replace(seat, Seat::Rests(rests)));
}

/// Begins an activity.
#[inline(always)]
pub fn enter(seat: &mut Seat) -> Result<(), Refusal>
    ensures { HasEntered seat.old seat.new result }
{
    if !matches!(seat, Seat::Rests(_)) {
        return Err(refusal_of(seat));
    }
    match replace(seat, Seat::Gone) {
        Seat::Rests(rests) => {
            let Rests { home, mut pass } = rests;
            home.system.enter(&mut pass);
            fill_with_work(seat, Works { home, pass });
            Ok(())
        }
        _ => unreachable!(),
    }
}

/// Ends the activity.
#[inline(always)]
pub fn leave(seat: &mut Seat) -> Result<(), Refusal>
    ensures { HasLeft seat.old seat.new result }
{
    if !matches!(seat, Seat::Works(_)) {
        return Err(refusal_of(seat));
    }
    match replace(seat, Seat::Gone) {
        Seat::Works(works) => {
            let Works { home, mut pass } = works;
            home.system.leave(&mut pass);
            fill_with_rest(seat, Rests { home, pass });
            Ok(())
        }
        _ => unreachable!(),
    }
}

impl Works {
    /// Tries the operation once.
    #[inline(always)]
    fn call(&mut self, alloc: Global, object: u32, op: Op) -> Result<Reply, Refusal>
        ensures { HasServed object op self.old self.new result }
    {
        let system = &self.home.system;
        if !system.takes(object, &op) {
            return Err(if object < system.objects() {
                Refusal::Kind
            } else {
                Refusal::Object
            });
        }
        let mut reply = Reply::Done;
        match system.attempt(alloc, &mut self.pass, object, &op, &mut reply) {
            Attempt::Again => Err(Refusal::Again),
            Attempt::Ended => Ok(reply),
            Attempt::Memory => Err(Refusal::Memory),
            Attempt::Worn => Err(Refusal::Worn),
        }
    }
}

/// Tries the operation once, if the arguments spelled one.
#[inline(always)]
pub fn call(alloc: Global, seat: &mut Seat, object: u32, op: Option<Op>) -> Result<Reply, Refusal>
    ensures { HasAnswered object op seat.old seat.new result }
{
    let Some(op) = op else {
        return Err(Refusal::Argument);
    };
    match seat {
        Seat::Works(works) => works.call(alloc, object, op),
        other => Err(refusal_of(other)),
    }
}
