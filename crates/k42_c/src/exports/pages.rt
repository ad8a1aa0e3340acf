//! Page caches.
ghost use Rattle.std.specs.Prelude.{Some};
ghost use Rattle.k42_handles.specs.Codes.{reply_code};
ghost use Rattle.k42_c.specs.Exports.{Tells, TellsNumber, TellsText};
ghost use Rattle.k42_handles.specs.Handles.{seat_of};
ghost use Rattle.k42_handles.specs.Seats.{HasAnswered};
ghost use Rattle.k42_handles.specs.Spelling.{read_spelled, write_spelled};
ghost use Rattle.k42_kinds.specs.declared.operation.Op.TheVariants as Op;

use super::{number_of, status, tried};
use co_system::{Op, Reply};
use k42_handles::{K42Pass, K42Text, call_code, plain_text, read_spelled, write_spelled};
use std::alloc::Global;

/// Writes a page.
#[unsafe(no_mangle)]
pub extern "C" fn k42_write(
    alloc: Global,
    pass: &mut K42Pass,
    object: u32,
    page: u32,
    text: &[u8],
) -> u32
    ensures { Tells reply_code (HasAnswered object (write_spelled page text.now) (seat_of pass.old) (seat_of pass.new)) result }
{
    status(alloc, pass, object, write_spelled(page, text))
}

/// Reads a page.
#[unsafe(no_mangle)]
pub extern "C" fn k42_read(
    alloc: Global,
    pass: &mut K42Pass,
    object: u32,
    page: u32,
    text: &mut K42Text,
) -> u32
    ensures { TellsText (HasAnswered object (read_spelled page) (seat_of pass.old) (seat_of pass.new)) text.old text.new result }
{
    let told = tried(alloc, pass, object, read_spelled(page));
    if let Ok(Reply::Text(read)) = &told {
        *text = plain_text(read);
    }
    call_code(&told)
}

/// Counts the dirty pages.
#[unsafe(no_mangle)]
pub extern "C" fn k42_dirty(alloc: Global, pass: &mut K42Pass, object: u32, count: &mut u64) -> u32
    ensures { TellsNumber (HasAnswered object (Some Op.Dirty) (seat_of pass.old) (seat_of pass.new)) count.old count.new result }
{
    number_of(alloc, pass, object, Some(Op::Dirty), count)
}

/// Makes all pages clean, and counts those that were dirty.
#[unsafe(no_mangle)]
pub extern "C" fn k42_clean(alloc: Global, pass: &mut K42Pass, object: u32, count: &mut u64) -> u32
    ensures { TellsNumber (HasAnswered object (Some Op.Clean) (seat_of pass.old) (seat_of pass.new)) count.old count.new result }
{
    number_of(alloc, pass, object, Some(Op::Clean), count)
}
