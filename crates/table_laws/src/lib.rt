//! Laws of the running table, each a function that does nothing and whose contract is the law.
#![tactic(auto)]

mod clocks;
mod hand_overs;
mod kept;
mod numbers;
mod opening;
mod seats;

pub use clocks::{taking_a_clock_in_is_a_skip, telling_a_clock_leaves_the_state};
pub use hand_overs::{
    naming_leaves_the_state, reading_leaves_the_state, taking_back_leaves_the_state,
    taking_in_leaves_the_state,
};
pub use kept::{
    what_follows_a_section_is_later, what_is_kept_follows_the_draws, what_is_kept_is_the_end,
    what_was_drawn_rises,
};
pub use numbers::{entering_leaves_the_generation, numbers_are_read, numbers_fit};
pub use opening::{
    a_blank_table_shows_just_the_new_state, a_new_table_shows_the_new_state,
    an_opened_table_has_new_passes,
};
pub use seats::{dealing_leaves_the_state, gathering_leaves_the_state, telling_leaves_the_state};
