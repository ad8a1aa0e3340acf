//! Counters.
ghost use Rattle.std.specs.Prelude.{Some};
ghost use Rattle.k42_handles.specs.Codes.{reply_code};
ghost use Rattle.k42_c.specs.Exports.{Tells, TellsNumber};
ghost use Rattle.k42_handles.specs.Handles.{seat_of};
ghost use Rattle.k42_handles.specs.Seats.{HasAnswered};
ghost use Rattle.k42_kinds.specs.declared.operation.Op.TheVariants as Op;

use super::{number_of, status};
use co_system::Op;
use k42_handles::K42Pass;
use std::alloc::Global;

/// Adds to a counter.
#[unsafe(no_mangle)]
pub extern "C" fn k42_add(alloc: Global, pass: &mut K42Pass, object: u32, amount: u32) -> u32
    ensures { Tells reply_code (HasAnswered object (Some (Op.Add amount)) (seat_of pass.old) (seat_of pass.new)) result }
{
    status(alloc, pass, object, Some(Op::Add(amount)))
}

/// Reads a counter.
#[unsafe(no_mangle)]
pub extern "C" fn k42_get(alloc: Global, pass: &mut K42Pass, object: u32, value: &mut u64) -> u32
    ensures { TellsNumber (HasAnswered object (Some Op.Get) (seat_of pass.old) (seat_of pass.new)) value.old value.new result }
{
    number_of(alloc, pass, object, Some(Op::Get), value)
}

/// Reads a counter and sets it to 0.
#[unsafe(no_mangle)]
pub extern "C" fn k42_drain(alloc: Global, pass: &mut K42Pass, object: u32, value: &mut u64) -> u32
    ensures { TellsNumber (HasAnswered object (Some Op.Drain) (seat_of pass.old) (seat_of pass.new)) value.old value.new result }
{
    number_of(alloc, pass, object, Some(Op::Drain), value)
}

/// Reads how many calls the layer round an object has counted.
#[unsafe(no_mangle)]
pub extern "C" fn k42_seen(alloc: Global, pass: &mut K42Pass, object: u32, count: &mut u64) -> u32
    ensures { TellsNumber (HasAnswered object (Some Op.Seen) (seat_of pass.old) (seat_of pass.new)) count.old count.new result }
{
    number_of(alloc, pass, object, Some(Op::Seen), count)
}
