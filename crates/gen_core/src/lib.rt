//! Activities, generations and the role of the caller that waits for a grace period, as a machine of events.
#![tactic(auto)]

mod event;
mod laws;
mod machine;
mod state;

pub use event::GenEvent;
pub use laws::{
    counts_agree, entries_rise_at_an_entry, no_generation_falls, one_holder, only_the_holder_moves,
    quiet_means_ended, quiet_means_present, stays_sound, waits_are_told_modulo,
};
pub use machine::{apply, has_room};
pub use state::{GenCaller, GenProc, GenState, GraceAt};
