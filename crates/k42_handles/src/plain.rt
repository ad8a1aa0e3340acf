//! What is passed to C as plain structs, which `k42.h` declares.
ghost use Rattle.std.specs.Prelude.{◌≡◌};
ghost use Rattle.k42_handles.specs.Plain.{plain_key, plain_progress, plain_text};

use crate::coding::{CELL, INSIDE, LEFT, ROLE};
use crate::swapping::Progress;
use co_system::{Cause, Swapped};
use k42_kinds::{Name, Text};
use k42_limits::{NAME_BYTES, TEXT_BYTES};

/// An object, as it starts, by the numbers of its kind and layout.
#[repr(C)]
#[derive(Drop)]
pub struct K42Object {
    pub kind: u32,
    pub layout: u32,
}

/// A key of a directory, and zeros behind it.
#[repr(C)]
#[derive(Drop)]
pub struct K42Key {
    pub length: u32,
    pub bytes: [u8; NAME_BYTES],
}

/// The text of a page, and zeros behind it.
#[repr(C)]
#[derive(Drop)]
pub struct K42Text {
    pub length: u32,
    pub bytes: [u8; TEXT_BYTES],
}

/// An entry of a history. What it has none of is 0.
#[repr(C)]
#[derive(Drop)]
pub struct K42Entry {
    /// From 1.
    pub place: u64,
    /// Among its caller's, from 0.
    pub index: u64,
    /// What was added or bound.
    pub number: u64,
    /// The number that was replied.
    pub reply: u64,
    pub caller: u32,
    pub processor: u32,
    pub generation: u32,
    pub object: u32,
    pub incarnation: u32,
    /// The number of the operation.
    pub asked: u32,
    pub status: u32,
    pub page: u32,
    pub key: K42Key,
    /// What was written, or read.
    pub text: K42Text,
}

/// How far a swap is. What it has none of is 0.
#[repr(C)]
#[derive(Drop)]
pub struct K42Swapping {
    /// Among the swaps of the object, from 1.
    pub number: u32,
    /// What holds it up.
    pub cause: u32,
    /// The processor, or the pass.
    pub at: u32,
    pub count: u32,
}

/// How far a swap is.
pub fn plain_progress(progress: Progress) -> K42Swapping
    ensures { result ≡ plain_progress progress }
{
    let (number, cause, at, count) = match progress {
        Progress::Underway(Cause::Left { proc, left }) => (0, LEFT, proc, left),
        Progress::Underway(Cause::RoleHeld { holder }) => (0, ROLE, holder, 0),
        Progress::Underway(Cause::InFlight { count }) => (0, INSIDE, 0, count),
        Progress::Underway(Cause::CellHeld { holder }) => (0, CELL, holder, 0),
        Progress::Ended(Swapped::Done(number) | Swapped::Busy(number)) => (number, 0, 0, 0),
        Progress::Ended(Swapped::Spent | Swapped::Gone) => (0, 0, 0, 0),
    };
    K42Swapping {
        number,
        cause,
        at,
        count,
    }
}

/// The bytes of a name.
pub(crate) fn plain_key(name: &Name) -> K42Key
    ensures { result ≡ plain_key name.now }
{
    let source = name.bytes();
    let length = source.len().min(NAME_BYTES);
    let mut bytes = [0; NAME_BYTES];
    bytes[..length].copy_from_slice(&source[..length]);
    K42Key {
        length: length as u32,
        bytes,
    }
}

/// The bytes of a text.
pub fn plain_text(text: &Text) -> K42Text
    ensures { result ≡ plain_text text.now }
{
    let source = text.bytes();
    let length = source.len().min(TEXT_BYTES);
    let mut bytes = [0; TEXT_BYTES];
    bytes[..length].copy_from_slice(&source[..length]);
    K42Text {
        length: length as u32,
        bytes,
    }
}
