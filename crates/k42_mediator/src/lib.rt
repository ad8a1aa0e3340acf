//! The mediator: what a swap does, phase by phase, and how callers knock at it.
#![tactic(auto)]

mod abandoning;
mod answers;
mod beginning;
mod begun;
mod interposing;
mod knocking;
mod marking;
mod moving;
mod opening;
mod parts;
mod rows;
mod transferring;

pub use abandoning::abandon;
pub use answers::{Begun, Knocked, Marked, Moving, Phase};
pub use beginning::begin;
pub use interposing::interpose;
pub use knocking::knock;
pub use marking::mark;
pub use moving::{block, try_move};
pub use opening::{end, open_entries};
pub use transferring::transfer;
