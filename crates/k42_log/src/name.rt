//! What swaps ask, and how they are answered, as numbers.
ghost use Rattle.std.specs.Prelude.{◌≡◌};
ghost use Rattle.k42_log.specs.Names.{end_name, end_named, is_layout, layout_end, layout_ended, names_layout, names_reply, to_name, to_named};

use k42_kinds::{Answer, REPLY_TAGS, To};

/// The ways in which a swap is answered.
pub(crate) const ENDS: u8 = 5;

pub(crate) fn to_name(to: &To) -> u8
    ensures { result ≡ to_name to.now }
{
    match to {
        To::Layout(number) => *number,
        To::Dead => 0,
        To::Watch => 1,
        To::Unwatch => 2,
    }
}

/// What a swap asks, to a layout or not.
pub(crate) fn to_named(layout: bool, name: u8) -> To
    ensures { result ≡ to_named layout name }
{
    if layout {
        return To::Layout(name);
    }
    match name {
        0 => To::Dead,
        1 => To::Watch,
        _ => To::Unwatch,
    }
}

fn is_layout(to: &To) -> bool
    ensures { result ≡ is_layout to.now }
{
    matches!(to, To::Layout(_))
}

/// How a swap to a layout was answered.
fn layout_end<R>(answer: &Answer<R>) -> u8
    ensures { result ≡ layout_end answer.now }
{
    match answer {
        Answer::Swapped(_) => REPLY_TAGS,
        Answer::Busy(_) => REPLY_TAGS + 1,
        Answer::Spent => REPLY_TAGS + 2,
        Answer::Gone => REPLY_TAGS + 3,
        Answer::Abandoned(_) | Answer::Replied(_) => REPLY_TAGS + 4,
    }
}

/// How a swap was answered, and whether it was one to a layout.
pub(crate) fn end_name<R>(to: &To, answer: &Answer<R>) -> u8
    ensures { result ≡ end_name (is_layout to.now) answer.now }
{
    let end = layout_end(answer);
    if is_layout(to) { end } else { end + ENDS }
}

fn layout_ended<R>(name: u8, small: u32) -> Answer<R>
    ensures { result ≡ layout_ended name small }
{
    if name == REPLY_TAGS {
        Answer::Swapped(small)
    } else if name == REPLY_TAGS + 1 {
        Answer::Busy(small)
    } else if name == REPLY_TAGS + 2 {
        Answer::Spent
    } else if name == REPLY_TAGS + 3 {
        Answer::Gone
    } else {
        Answer::Abandoned(small)
    }
}

pub(crate) fn end_named<R>(name: u8, small: u32) -> Answer<R>
    ensures { result ≡ end_named name small }
{
    let name = if names_layout(name) {
        name
    } else {
        name - ENDS
    };
    layout_ended(name, small)
}

/// Whether the name of a swap's answer tells of a layout.
pub(crate) fn names_layout(name: u8) -> bool
    ensures { result ≡ names_layout name }
{
    name < REPLY_TAGS + ENDS
}

/// Whether the name of an answer is that of a reply.
pub(crate) fn names_reply(name: u8) -> bool
    ensures { result ≡ names_reply name }
{
    name < REPLY_TAGS
}
