//! The picture of a record: a lane for each worker and a box for each entry, as an SVG document.
#![tactic(auto)]

mod activities;
mod boxes;
mod drawing;
mod fault_laws;
mod faults;
mod frames;
mod head;
mod lanes;
mod laws;
mod lists;
mod measures;
mod pieces;
mod style;
mod swaps;
mod verdict;
mod window;

pub use drawing::draw;
pub use fault_laws::{
    no_other_entry_is_marked, the_faulty_entry_is_framed, the_verdict_is_told_in_words,
    what_stands_behind_the_faulty_entry_is_veiled,
};
pub use laws::{
    a_box_stands_in_its_column_and_lane, a_box_tells_its_line, a_swap_has_a_line_through_all_lanes,
    each_ampersand_names_a_byte, each_entry_has_one_box, each_entry_shown_has_its_box,
    each_swap_has_one_line, each_swap_shown_has_its_line, escapes_are_entities, no_byte_breaks_out,
    no_name_or_text_is_markup, no_other_box_and_no_other_line, no_two_boxes_meet,
};
pub use verdict::Verdict;
pub use window::{COLUMNS, Window};
