//! Phases and cells as one machine of events, in which each call, swap and refusal is an event.
#![tactic(auto)]

mod laws;

pub use laws::{
    each_event_keeps, moves_and_frees_alone, others_stay, parts_follow_draws, parts_follow_hands,
    readers_leave_before, rows_are_freed_once, rows_stay_else, rows_that_fit_are_one,
    sound_states_are_safe, stamps_pass_what_was_seen, stays_sound, trace_at_rest_is_a_history,
    trace_is_legal, what_follows_a_skip_is_later,
};
