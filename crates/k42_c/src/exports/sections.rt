//! Sections of the history of a running system.
ghost use Rattle.k42_handles.specs.Codes.{resumed_code};
ghost use Rattle.k42_c.specs.Exports.{Tells, TellsParked};
ghost use Rattle.k42_handles.specs.Handles.{seat_of};
ghost use Rattle.k42_handles.specs.Parking.{HasResumed};

use k42_handles::{
    EMPTY, K42Pass, Parked, give_section, parked_code, refusal_code, resume, resumed_code, settle,
    take,
};
use std::alloc::Global;

/// Puts the pass to the others for a section, which the last leaves in its handle.
#[unsafe(no_mangle)]
pub extern "C" fn k42_section(alloc: Global, pass: &mut K42Pass, missing: &mut u32) -> u32
    ensures { TellsParked (seat_of pass.old) (seat_of pass.new) missing.old missing.new result }
{
    let Some(mut held) = take(alloc, pass) else {
        return EMPTY;
    };
    let told = give_section(alloc, &mut held);
    settle(pass, held);
    match told {
        Ok(parked) => {
            match parked {
                Parked::Missing(which) => *missing = which,
                Parked::Section => *missing = 0,
                Parked::Closed => (),
            }
            parked_code(parked)
        }
        Err(why) => refusal_code(why),
    }
}

/// Takes the pass up again, and drops the section.
#[unsafe(no_mangle)]
pub extern "C" fn k42_resume(alloc: Global, pass: &mut K42Pass) -> u32
    ensures { Tells resumed_code (HasResumed (seat_of pass.old) (seat_of pass.new)) result }
{
    let Some(mut held) = take(alloc, pass) else {
        return EMPTY;
    };
    let told = resume(alloc, &mut held);
    settle(pass, held);
    match told {
        Ok(resumed) => resumed_code(resumed),
        Err(why) => refusal_code(why),
    }
}
