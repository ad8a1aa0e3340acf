//! What C calls, as `k42.h` says. What is on the way of a call is inlined, since each export knows its operation.
ghost use Rattle.k42_handles.specs.Codes.{reply_code};
ghost use Rattle.k42_c.specs.Exports.{Tells, TellsNumber};
ghost use Rattle.k42_handles.specs.Handles.{seat_of};
ghost use Rattle.k42_handles.specs.Seats.{HasAnswered};

mod counters;
mod directories;
mod pages;
mod passes;
mod sections;
mod swaps;

use co_system::{Op, Reply};
use k42_handles::{K42Pass, Refusal, call, call_code, put, take};
use std::alloc::Global;

/// Tries the operation once, if there is one.
#[inline(always)]
fn tried(alloc: Global, pass: &mut K42Pass, object: u32, op: Option<Op>) -> Result<Reply, Refusal>
    ensures { HasAnswered object op (seat_of pass.old) (seat_of pass.new) result }
{
    let Some(mut held) = take(alloc, pass) else {
        return Err(match op {
            Some(_) => Refusal::Empty,
            None => Refusal::Argument,
        });
    };
    let told = call(alloc, &mut held, object, op);
    put(pass, held);
    told
}

/// The same, and tells the status.
#[inline(always)]
fn status(alloc: Global, pass: &mut K42Pass, object: u32, op: Option<Op>) -> u32
    ensures { Tells reply_code (HasAnswered object op (seat_of pass.old) (seat_of pass.new)) result }
{
    call_code(&tried(alloc, pass, object, op))
}

/// The same, and writes the number that was replied.
#[inline(always)]
fn number_of(
    alloc: Global,
    pass: &mut K42Pass,
    object: u32,
    op: Option<Op>,
    number: &mut u64,
) -> u32
    ensures { TellsNumber (HasAnswered object op (seat_of pass.old) (seat_of pass.new)) number.old number.new result }
{
    let told = tried(alloc, pass, object, op);
    if let Ok(Reply::Number(replied)) = told {
        *number = replied;
    }
    call_code(&told)
}
