//! What tests of the table repeat: systems and the passes of their callers, calls step by step, and how far a swap is.
#![tactic(auto)]

mod calls;
mod crews;
mod phases;
mod steps;

pub use calls::{Found, call, end, enter, install, knock, leave, look_up, may_enter};
pub use crews::{Walk, finish, last, start, start_counter};
pub use phases::{has_moved, may_block, may_move, may_wait};
pub use steps::{step, step_at};
