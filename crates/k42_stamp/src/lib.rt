//! Rows of cells that fit a layout, and the one order of what their callers kept.
#![tactic(auto)]

mod laws;
mod merging;
mod rests;

pub use laws::{
    a_merge_is_one, draw_keeps, hand_begins, lists_have_a_merge, merged_is_legal,
    sections_merge_to_the_whole,
};
pub use merging::{Room, merge, merge_from, merge_into, take_alone, take_alone_from};
