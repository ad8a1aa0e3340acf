//! Swaps and reclaims.
ghost use Rattle.std.specs.Prelude.{◌≡◌, Some, IfSome};
ghost use Rattle.k42_handles.specs.Codes.{to_named};
ghost use Rattle.k42_c.specs.Exports.{TellsFreed, TellsSwapping};
ghost use Rattle.k42_handles.specs.Going.{Leads};
ghost use Rattle.k42_handles.specs.Handles.{seat_of};
ghost use Rattle.k42_handles.specs.Swapping.{HasGoneOn, HasSwapped};
ghost use Rattle.k42_kinds.specs.declared.entry.To.TheVariants as To;

use co_system::To;
use k42_handles::{
    ARGUMENT, DONE, EMPTY, Freeing, K42Pass, K42Swapping, Progress, Refusal, UNDERWAY, go_on,
    plain_progress, progress_code, put, reclaim, refusal_code, swap, take, to_named,
};
use std::alloc::Global;

/// Writes how far a swap is, and tells its status.
fn status(told: Result<Progress, Refusal>, place: &mut K42Swapping) -> u32
    ensures { TellsSwapping (λ outcome. outcome ≡ told) place.old place.new result }
{
    match told {
        Ok(progress) => {
            *place = plain_progress(progress);
            progress_code(progress)
        }
        Err(why) => refusal_code(why),
    }
}

/// Begins the swap of an object.
fn begun(
    alloc: Global,
    pass: &mut K42Pass,
    object: u32,
    to: Option<To>,
    place: &mut K42Swapping,
) -> u32
    requires { IfSome to Leads }
    ensures { TellsSwapping (HasSwapped object to (seat_of pass.old) (seat_of pass.new)) place.old place.new result }
{
    let Some(mut held) = take(alloc, pass) else {
        return match to {
            Some(_) => EMPTY,
            None => ARGUMENT,
        };
    };
    let told = swap(alloc, &mut held, object, to);
    put(pass, held);
    status(told, place)
}

/// Begins a swap to a layout.
#[unsafe(no_mangle)]
pub extern "C" fn k42_swap(
    alloc: Global,
    pass: &mut K42Pass,
    object: u32,
    layout: u32,
    swap: &mut K42Swapping,
) -> u32
    ensures { TellsSwapping (HasSwapped object (to_named layout) (seat_of pass.old) (seat_of pass.new)) swap.old swap.new result }
{
    begun(alloc, pass, object, to_named(layout), swap)
}

/// Begins to destroy an object.
#[unsafe(no_mangle)]
pub extern "C" fn k42_destroy(
    alloc: Global,
    pass: &mut K42Pass,
    object: u32,
    swap: &mut K42Swapping,
) -> u32
    ensures { TellsSwapping (HasSwapped object (Some To.Dead) (seat_of pass.old) (seat_of pass.new)) swap.old swap.new result }
{
    begun(alloc, pass, object, Some(To::Dead), swap)
}

/// Begins to place a layer round an object, which counts its calls.
#[unsafe(no_mangle)]
pub extern "C" fn k42_watch(
    alloc: Global,
    pass: &mut K42Pass,
    object: u32,
    swap: &mut K42Swapping,
) -> u32
    ensures { TellsSwapping (HasSwapped object (Some To.Watch) (seat_of pass.old) (seat_of pass.new)) swap.old swap.new result }
{
    begun(alloc, pass, object, Some(To::Watch), swap)
}

/// Begins to take it away.
#[unsafe(no_mangle)]
pub extern "C" fn k42_unwatch(
    alloc: Global,
    pass: &mut K42Pass,
    object: u32,
    swap: &mut K42Swapping,
) -> u32
    ensures { TellsSwapping (HasSwapped object (Some To.Unwatch) (seat_of pass.old) (seat_of pass.new)) swap.old swap.new result }
{
    begun(alloc, pass, object, Some(To::Unwatch), swap)
}

/// Goes on with the swap of the pass.
#[unsafe(no_mangle)]
pub extern "C" fn k42_step(alloc: Global, pass: &mut K42Pass, swap: &mut K42Swapping) -> u32
    ensures { TellsSwapping (HasGoneOn (seat_of pass.old) (seat_of pass.new)) swap.old swap.new result }
{
    let Some(mut held) = take(alloc, pass) else {
        return EMPTY;
    };
    let told = go_on(alloc, &mut held);
    put(pass, held);
    status(told, swap)
}

/// Frees the rows that the pass has, or goes on with it.
#[unsafe(no_mangle)]
pub extern "C" fn k42_reclaim(alloc: Global, pass: &mut K42Pass, rows: &mut u32) -> u32
    ensures { TellsFreed (seat_of pass.old) (seat_of pass.new) rows.old rows.new result }
{
    let Some(mut held) = take(alloc, pass) else {
        return EMPTY;
    };
    let told = reclaim(&mut held);
    put(pass, held);
    match told {
        Ok(Freeing::Freed(count)) => {
            *rows = count;
            DONE
        }
        Ok(Freeing::Underway) => UNDERWAY,
        Err(why) => refusal_code(why),
    }
}
