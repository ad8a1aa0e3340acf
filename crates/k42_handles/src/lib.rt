//! Passes as handles: what each call of C does to the seat in its handle.
#![tactic(auto)]

mod closing;
mod coding;
mod crossing;
mod handle;
mod held;
mod holding;
mod home;
mod missing;
mod parking;
mod plain;
mod reading;
mod reclaiming;
mod refusal;
mod seat;
mod spelling;
mod starting;
mod steps;
mod swapping;

pub use closing::{Given, close, give_up};
pub use coding::{
    ARGUMENT, DONE, EMPTY, UNDERWAY, call_code, given_code, parked_code, progress_code,
    refusal_code, resumed_code, to_named,
};
pub use crossing::a_handle_may_change_its_thread;
pub use held::K42Pass;
pub use holding::{put, settle, take};
pub use parking::{Parked, Resumed, give_section, resume};
pub use plain::{K42Entry, K42Key, K42Object, K42Swapping, K42Text, plain_progress, plain_text};
pub use reading::{count, read};
pub use reclaiming::{Freeing, reclaim};
pub use refusal::Refusal;
pub use seat::Seat;
pub use spelling::{bind_spelled, find_spelled, read_spelled, unbind_spelled, write_spelled};
pub use starting::start;
pub use steps::{call, enter, leave};
pub use swapping::{Progress, go_on, swap};
