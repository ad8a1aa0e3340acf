//! Rows that are freed, a step at a time.
ghost use Rattle.std.specs.Prelude.{None};
ghost use Rattle.k42_handles.specs.Reclaiming.{HasSteppedGrace, HasReclaimed};

use crate::refusal::Refusal;
use crate::seat::{Reclaims, Rests, Seat};
use crate::steps::refusal_of;
use k42_limits::PASS_GRACES;
use k42_quiesce::{Grace, GraceStep, Held, reclaim as free};
use std::mem::replace;

/// How far a reclaim is.
#[derive(Clone, Copy, Debug, PartialEq, Eq)]
pub enum Freeing {
    /// It waits for activities that are open.
    Underway,
    /// So many rows are freed.
    Freed(u32),
}

/// Steps the grace, and frees the rows once it is quiet.
fn step(reclaims: Reclaims) -> (Seat, Result<Freeing, Refusal>)
    ensures { HasSteppedGrace reclaims.home reclaims.grace reclaims.pass.value result.0 result.1 }
{
    let Reclaims {
        home,
        mut pass,
        mut grace,
    } = reclaims;
    let table = home.system.table();
    match grace.step(table, &mut pass) {
        GraceStep::Quiet => {
            let rows = free(table, &mut pass);
            (Seat::Rests(Rests { home, pass }), Ok(Freeing::Freed(rows)))
        }
        GraceStep::Again(Held::Left { .. }) => (
            Seat::Reclaims(Reclaims { home, pass, grace }),
            Ok(Freeing::Underway),
        ),
        GraceStep::Again(Held::RoleHeld { .. }) => {
            (Seat::Rests(Rests { home, pass }), Err(Refusal::Again))
        }
    }
}

/// Begins a grace for the rows of the pass.
fn begin(rests: Rests) -> (Seat, Result<Freeing, Refusal>)
    ensures { HasSteppedGrace rests.home None rests.pass.value result.0 result.1 }
{
    if rests.pass.graces() >= PASS_GRACES {
        return (Seat::Rests(rests), Err(Refusal::Worn));
    }
    let Rests { home, pass } = rests;
    let grace = Grace::new();
    step(Reclaims { home, pass, grace })
}

/// The seat once its reclaim has begun, or gone on.
fn reclaimed(seat: Seat) -> (Seat, Result<Freeing, Refusal>)
    ensures { HasReclaimed seat result.0 result.1 }
{
    match seat {
        Seat::Rests(rests) => begin(rests),
        Seat::Reclaims(reclaims) => step(reclaims),
        other => {
            let why = refusal_of(&other);
            (other, Err(why))
        }
    }
}

/// Begins to free the rows of the pass, or goes on with it.
pub fn reclaim(seat: &mut Seat) -> Result<Freeing, Refusal>
    ensures { HasReclaimed seat.old seat.new result }
{
    let (new, told) = reclaimed(replace(seat, Seat::Gone));
    *seat = new;
    told
}
