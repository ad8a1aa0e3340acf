//! Swaps, a step at a time.
ghost use Rattle.std.specs.Prelude.{Some, IfSome};
ghost use Rattle.k42_handles.specs.Going.{Leads};
ghost use Rattle.k42_handles.specs.Swapping.{HasGoneOn, HasSteppedSwap, HasSwapped, HasTriedSwap};

use crate::refusal::Refusal;
use crate::seat::{Rests, Seat, Swaps};
use crate::steps::refusal_of;
use co_system::{Cause, Step, Swap, Swapped, To};
use std::alloc::Global;
use std::mem::replace;

/// How far a swap is.
#[derive(Clone, Copy, Debug, PartialEq, Eq)]
pub enum Progress {
    /// It is held up, and is stepped on.
    Underway(Cause),
    Ended(Swapped),
}

/// Makes a step of the swap.
fn step(alloc: Global, swaps: Swaps) -> (Seat, Result<Progress, Refusal>)
    ensures { HasSteppedSwap swaps result.0 result.1 }
{
    let Swaps {
        home,
        mut pass,
        mut swap,
    } = swaps;
    match swap.step(alloc, &home.system, &mut pass) {
        Step::Again(cause) => (
            Seat::Swaps(Swaps { home, pass, swap }),
            Ok(Progress::Underway(cause)),
        ),
        Step::Ended(end) => (Seat::Rests(Rests { home, pass }), Ok(Progress::Ended(end))),
        Step::Memory => (Seat::Rests(Rests { home, pass }), Err(Refusal::Memory)),
        Step::Worn => (Seat::Rests(Rests { home, pass }), Err(Refusal::Worn)),
    }
}

/// Begins a swap of the object, if it is there.
fn begin(alloc: Global, rests: Rests, object: u32, to: To) -> (Seat, Result<Progress, Refusal>)
    requires { Leads to }
    ensures { HasTriedSwap object to rests result.0 result.1 }
{
    if object >= rests.home.system.objects() {
        return (Seat::Rests(rests), Err(Refusal::Object));
    }
    let Rests { home, pass } = rests;
    let swap = Swap::new(object, to);
    step(alloc, Swaps { home, pass, swap })
}

/// The seat once the swap has begun.
fn begun(alloc: Global, seat: Seat, object: u32, to: To) -> (Seat, Result<Progress, Refusal>)
    requires { Leads to }
    ensures { HasSwapped object (Some to) seat result.0 result.1 }
{
    match seat {
        Seat::Rests(rests) => begin(alloc, rests, object, to),
        other => {
            let why = refusal_of(&other);
            (other, Err(why))
        }
    }
}

/// The seat once its swap has gone on.
fn gone_on(alloc: Global, seat: Seat) -> (Seat, Result<Progress, Refusal>)
    ensures { HasGoneOn seat result.0 result.1 }
{
    match seat {
        Seat::Swaps(swaps) => step(alloc, swaps),
        other => {
            let why = refusal_of(&other);
            (other, Err(why))
        }
    }
}

/// Begins a swap of the object, if the arguments spelled to what.
pub fn swap(
    alloc: Global,
    seat: &mut Seat,
    object: u32,
    to: Option<To>,
) -> Result<Progress, Refusal>
    requires { IfSome to Leads }
    ensures { HasSwapped object to seat.old seat.new result }
{
    let Some(to) = to else {
        return Err(Refusal::Argument);
    };
    let (new, told) = begun(alloc, replace(seat, Seat::Gone), object, to);
    *seat = new;
    told
}

/// Goes on with the swap.
pub fn go_on(alloc: Global, seat: &mut Seat) -> Result<Progress, Refusal>
    ensures { HasGoneOn seat.old seat.new result }
{
    let (new, told) = gone_on(alloc, replace(seat, Seat::Gone));
    *seat = new;
    told
}
