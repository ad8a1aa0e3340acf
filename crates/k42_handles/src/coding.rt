//! The numbers by which C tells statuses, kinds and the like. `k42.h` has the same.
ghost use Rattle.std.specs.Prelude.{◌≡◌, IfSome};
ghost use Rattle.k42_handles.specs.Codes.{keep_named, kind_named, layout_named, given_code, parked_code, progress_code, refusal_code, resumed_code, reply_code, status_of_call, to_named};
ghost use Rattle.k42_handles.specs.Going.{Leads};

use crate::closing::Given;
use crate::parking::{Parked, Resumed};
use crate::refusal::Refusal;
use crate::swapping::Progress;
use co_system::{Keep, KindName, LayoutName, PlanFault, Reply, Swapped, To};

pub const DONE: u32 = 0;

pub(crate) const NONE: u32 = 1;

pub(crate) const TAKEN: u32 = 2;

pub(crate) const GONE: u32 = 3;

pub(crate) const MISSING: u32 = 4;

pub(crate) const AGAIN: u32 = 5;

pub(crate) const MEMORY: u32 = 6;

pub(crate) const WORN: u32 = 7;

pub const EMPTY: u32 = 8;

pub(crate) const FULL: u32 = 9;

pub(crate) const TURN: u32 = 10;

pub(crate) const OBJECT: u32 = 11;

pub(crate) const KIND: u32 = 12;

pub const ARGUMENT: u32 = 13;

pub(crate) const PROCESSORS: u32 = 14;

pub(crate) const OBJECTS: u32 = 15;

pub(crate) const PASSES: u32 = 16;

pub(crate) const PROCESSOR: u32 = 17;

pub(crate) const BUSY: u32 = 18;

pub(crate) const SPENT: u32 = 19;

pub const UNDERWAY: u32 = 20;

pub(crate) const SECTIONS: u32 = 21;

pub(crate) const LEFT: u32 = 1;

pub(crate) const ROLE: u32 = 2;

pub(crate) const INSIDE: u32 = 3;

pub(crate) const CELL: u32 = 4;

/// The kind of this number.
pub(crate) fn kind_named(code: u32) -> Option<KindName>
    ensures { result ≡ kind_named code }
{
    match code {
        0 => Some(KindName::Counter),
        1 => Some(KindName::Directory),
        2 => Some(KindName::Pages),
        _ => None,
    }
}

/// The layout of this number.
pub(crate) fn layout_named(code: u32) -> Option<LayoutName>
    ensures { result ≡ layout_named code }
{
    match code {
        0 => Some(LayoutName::Shared),
        1 => Some(LayoutName::Spread),
        _ => None,
    }
}

/// A swap to the layout of this number.
pub fn to_named(code: u32) -> Option<To>
    ensures is { result ≡ to_named code }
    ensures leads { IfSome result Leads }
{
    match layout_named(code) {
        Some(layout) => Some(To::Layout(layout.number())),
        None => None,
    }
}

/// What is kept under this number.
pub(crate) fn keep_named(code: u32) -> Option<Keep>
    ensures { result ≡ keep_named code }
{
    match code {
        0 => Some(Keep::Nothing),
        1 => Some(Keep::All),
        2 => Some(Keep::Sections),
        _ => None,
    }
}

/// The status of a reply.
pub(crate) fn reply_code(reply: &Reply) -> u32
    ensures { result ≡ reply_code reply.now }
{
    match reply {
        Reply::Done | Reply::Number(_) | Reply::Text(_) => DONE,
        Reply::None | Reply::Zero => NONE,
        Reply::Taken => TAKEN,
        Reply::Gone => GONE,
    }
}

/// The status of a refusal.
pub fn refusal_code(refusal: Refusal) -> u32
    ensures { result ≡ refusal_code refusal }
{
    match refusal {
        Refusal::Again => AGAIN,
        Refusal::Memory => MEMORY,
        Refusal::Worn => WORN,
        Refusal::Empty => EMPTY,
        Refusal::Full => FULL,
        Refusal::Turn => TURN,
        Refusal::Object => OBJECT,
        Refusal::Kind => KIND,
        Refusal::Argument => ARGUMENT,
        Refusal::Sections => SECTIONS,
        Refusal::Plan(PlanFault::Procs) => PROCESSORS,
        Refusal::Plan(PlanFault::Objects) => OBJECTS,
        Refusal::Plan(PlanFault::Callers) => PASSES,
        Refusal::Plan(PlanFault::Processor { .. }) => PROCESSOR,
        // No plan of C's numbers has this fault.
        Refusal::Plan(PlanFault::Dead { .. }) => ARGUMENT,
    }
}

/// The status of a call.
pub fn call_code(told: &Result<Reply, Refusal>) -> u32
    ensures { result ≡ status_of_call told.now }
{
    match told {
        Ok(reply) => reply_code(reply),
        Err(why) => refusal_code(*why),
    }
}

/// The status of a pass that was given back.
pub fn given_code(given: Given) -> u32
    ensures { result ≡ given_code given }
{
    match given {
        Given::Missing(_) => MISSING,
        Given::History | Given::Nothing => DONE,
    }
}

/// The status of a swap.
pub fn progress_code(progress: Progress) -> u32
    ensures { result ≡ progress_code progress }
{
    match progress {
        Progress::Underway(_) => UNDERWAY,
        Progress::Ended(Swapped::Done(_)) => DONE,
        Progress::Ended(Swapped::Busy(_)) => BUSY,
        Progress::Ended(Swapped::Spent) => SPENT,
        Progress::Ended(Swapped::Gone) => GONE,
    }
}

/// The status of a pass that was put to the desk.
pub fn parked_code(parked: Parked) -> u32
    ensures { result ≡ parked_code parked }
{
    match parked {
        Parked::Missing(_) => MISSING,
        Parked::Section => DONE,
        Parked::Closed => GONE,
    }
}

/// The status of a pass that was to be taken up.
pub fn resumed_code(resumed: Resumed) -> u32
    ensures { result ≡ resumed_code resumed }
{
    match resumed {
        Resumed::Back => DONE,
        Resumed::Closed => GONE,
    }
}
