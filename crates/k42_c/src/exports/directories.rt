//! Directories.
ghost use Rattle.std.specs.Prelude.{Some};
ghost use Rattle.k42_handles.specs.Codes.{reply_code};
ghost use Rattle.k42_c.specs.Exports.{Tells, TellsNumber};
ghost use Rattle.k42_handles.specs.Handles.{seat_of};
ghost use Rattle.k42_handles.specs.Seats.{HasAnswered};
ghost use Rattle.k42_handles.specs.Spelling.{bind_spelled, find_spelled, unbind_spelled};
ghost use Rattle.k42_kinds.specs.declared.operation.Op.TheVariants as Op;

use super::{number_of, status};
use co_system::Op;
use k42_handles::{K42Pass, bind_spelled, find_spelled, unbind_spelled};
use std::alloc::Global;

/// Binds a key to a number.
#[unsafe(no_mangle)]
pub extern "C" fn k42_bind(
    alloc: Global,
    pass: &mut K42Pass,
    object: u32,
    key: &[u8],
    number: u64,
) -> u32
    ensures { Tells reply_code (HasAnswered object (bind_spelled key.now number) (seat_of pass.old) (seat_of pass.new)) result }
{
    status(alloc, pass, object, bind_spelled(key, number))
}

/// Finds the number of a key.
#[unsafe(no_mangle)]
pub extern "C" fn k42_find(
    alloc: Global,
    pass: &mut K42Pass,
    object: u32,
    key: &[u8],
    number: &mut u64,
) -> u32
    ensures { TellsNumber (HasAnswered object (find_spelled key.now) (seat_of pass.old) (seat_of pass.new)) number.old number.new result }
{
    number_of(alloc, pass, object, find_spelled(key), number)
}

/// Unbinds a key.
#[unsafe(no_mangle)]
pub extern "C" fn k42_unbind(
    alloc: Global,
    pass: &mut K42Pass,
    object: u32,
    key: &[u8],
    number: &mut u64,
) -> u32
    ensures { TellsNumber (HasAnswered object (unbind_spelled key.now) (seat_of pass.old) (seat_of pass.new)) number.old number.new result }
{
    number_of(alloc, pass, object, unbind_spelled(key), number)
}

/// Counts the keys of a directory.
#[unsafe(no_mangle)]
pub extern "C" fn k42_size(alloc: Global, pass: &mut K42Pass, object: u32, count: &mut u64) -> u32
    ensures { TellsNumber (HasAnswered object (Some Op.Size) (seat_of pass.old) (seat_of pass.new)) count.old count.new result }
{
    number_of(alloc, pass, object, Some(Op::Size), count)
}
