//! Cells with their locks and histories, and the entries that callers draw at them, as a machine of events.
#![tactic(auto)]

mod cells;
mod draws;
mod event;
mod handing;
mod laws;
mod machine;
mod naming;
mod stamps;
mod start;
mod state;
mod telling;

pub use event::TurnEvent;
pub use laws::{
    clocks_never_fall, entries_are_numbered, entries_stand_once, others_stay, stamps_are_few,
    stamps_rise, stays_sound, what_follows_a_skip_is_later, what_is_drawn_is_later_than_the_clock,
};
pub use machine::apply;
pub use state::{TurnCaller, TurnCell, TurnState};
