//! Systems, their passes, and what these leave.
ghost use Rattle.std.specs.Prelude.{◌≡◌};
ghost use Rattle.k42_handles.specs.Closing.{HasDropped};
ghost use Rattle.k42_c.specs.Exports.{Tells, TellsCount, TellsGiven, done_code};
ghost use Rattle.k42_handles.specs.Handles.{seat_of};
ghost use Rattle.k42_handles.specs.Reading.{HasCounted, HasReadFrom};
ghost use Rattle.k42_handles.specs.Seats.{HasEntered, HasLeft};
ghost use Rattle.k42_handles.specs.Starting.{HasStarted};

use k42_handles::{
    DONE, EMPTY, Given, K42Entry, K42Object, K42Pass, Refusal, close, count, enter, give_up,
    given_code, leave, put, read, refusal_code, settle, start, take,
};
use std::alloc::Global;

/// The status of what has nothing more to tell.
fn done_code(told: Result<(), Refusal>) -> u32
    ensures { Tells done_code (λ outcome. outcome ≡ told) result }
{
    match told {
        Ok(()) => DONE,
        Err(why) => refusal_code(why),
    }
}

/// Starts a system, and puts its passes into handles.
#[unsafe(no_mangle)]
pub extern "C" fn k42_start(
    alloc: Global,
    processors: u32,
    objects: &[K42Object],
    homes: &[u32],
    keep: u32,
    passes: &mut [K42Pass],
) -> u32
    ensures { Tells done_code (HasStarted processors objects.now homes.now keep passes.old passes.new) result }
{
    done_code(start(alloc, processors, objects, homes, keep, passes))
}

/// Begins an activity.
#[unsafe(no_mangle)]
pub extern "C" fn k42_enter(alloc: Global, pass: &mut K42Pass) -> u32
    ensures { Tells done_code (HasEntered (seat_of pass.old) (seat_of pass.new)) result }
{
    let Some(mut held) = take(alloc, pass) else {
        return EMPTY;
    };
    let told = enter(&mut held);
    put(pass, held);
    done_code(told)
}

/// Ends it.
#[unsafe(no_mangle)]
pub extern "C" fn k42_leave(alloc: Global, pass: &mut K42Pass) -> u32
    ensures { Tells done_code (HasLeft (seat_of pass.old) (seat_of pass.new)) result }
{
    let Some(mut held) = take(alloc, pass) else {
        return EMPTY;
    };
    let told = leave(&mut held);
    put(pass, held);
    done_code(told)
}

/// Gives the pass back. The last leaves the history in its handle.
#[unsafe(no_mangle)]
pub extern "C" fn k42_close(alloc: Global, pass: &mut K42Pass, missing: &mut u32) -> u32
    ensures { TellsGiven (seat_of pass.old) (seat_of pass.new) missing.old missing.new result }
{
    let Some(mut held) = take(alloc, pass) else {
        return EMPTY;
    };
    let told = close(alloc, &mut held);
    settle(pass, held);
    match told {
        Ok(given) => {
            *missing = match given {
                Given::Missing(which) => which,
                Given::History | Given::Nothing => 0,
            };
            given_code(given)
        }
        Err(why) => refusal_code(why),
    }
}

/// Drops what rests in the handle, which is empty then.
#[unsafe(no_mangle)]
pub extern "C" fn k42_drop(alloc: Global, pass: &mut K42Pass) -> u32
    ensures { Tells done_code (HasDropped (seat_of pass.old) (seat_of pass.new)) result }
{
    let Some(mut held) = take(alloc, pass) else {
        return EMPTY;
    };
    let told = give_up(&mut held);
    settle(pass, held);
    done_code(told)
}

/// Counts the entries of the history.
#[unsafe(no_mangle)]
pub extern "C" fn k42_entries(alloc: Global, pass: &mut K42Pass, entries: &mut u64) -> u32
    ensures { TellsCount (HasCounted (seat_of pass.old)) entries.old entries.new result }
{
    let Some(held) = take(alloc, pass) else {
        return EMPTY;
    };
    let told = count(&held);
    put(pass, held);
    match told {
        Ok(many) => {
            *entries = many;
            DONE
        }
        Err(why) => refusal_code(why),
    }
}

/// Reads entries of the history, from one of them on.
#[unsafe(no_mangle)]
pub extern "C" fn k42_history(
    alloc: Global,
    pass: &mut K42Pass,
    from: u64,
    entries: &mut [K42Entry],
    told: &mut usize,
) -> u32
    ensures { TellsCount (HasReadFrom (seat_of pass.old) from entries.old entries.new) told.old told.new result }
{
    let Some(held) = take(alloc, pass) else {
        return EMPTY;
    };
    let many = read(alloc, &held, from, entries);
    put(pass, held);
    match many {
        Ok(many) => {
            *told = many;
            DONE
        }
        Err(why) => refusal_code(why),
    }
}
