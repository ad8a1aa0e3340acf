//! The table that threads share, the rule that it keeps between any two steps, and each step of one seat.
#![tactic(auto)]

mod board;
mod calling;
mod cell;
mod draw_plays;
mod draw_words;
mod encoding;
mod first;
mod grace_words;
mod hand_words;
mod keep;
mod lifting;
mod lifting_plays;
mod plays;
mod queueing;
mod receipts;
mod retired;
mod setup;
mod skipping;
mod slot_plays;
mod slots;
mod stamps;
mod swap_plays;
mod swap_words;
mod table_plays;
mod table_words;
mod view;
mod words;

pub use board::{Board, BoardSeat, Ruling};
pub use calling::call_cell;
pub use cell::{Cell, Content};
pub use draw_plays::Said;
pub use draw_words::{alone_word, call_word, first_of, mark_word};
pub use encoding::{
    BLOCK, COMPLETE, MOVE, SWAP, blocked_word, cell_number, count_in, direct_word, empty_word,
    entries_in, entry_cell, entry_layout, exits_in, generation_in, generation_with, incarnation_in,
    is_blocked, is_complete, is_moving, is_over, is_swapped, layout_in, mediator_word, tag_in,
    turn_amount,
};
pub use first::{first_slots, first_words};
pub use grace_words::{
    flip_swap, free_word, generation_load, give_role_store, look_word, take_role_word,
};
pub use hand_words::{hand_word, number_at};
pub use keep::Keep;
pub use plays::{Deal, Gather};
pub use queueing::{
    Another, Lane, Line, Pop, Post, Push, Rows, name_newest, take_back, take_in, tie_root,
};
pub use receipts::{tell_all, tell_cell};
pub use retired::{Carried, Retired, Slip};
pub use setup::Setup;
pub use skipping::{skip_to, tell_clock};
pub use slot_plays::Known;
pub use slots::{lock_cell, lock_cell_quietly, put_cell, take_cell, unlock_cell};
pub use stamps::{last_at, stamp_after};
pub use swap_words::{block_word, change_entry_word, clear_word, move_word, turn_word};
pub use table_words::{
    begin_word, end_word, install_word, knock_word, look_up_word, root_word, step_out_word,
};
pub use view::{Inside, LastBegin, Row, View};
pub use words::{enter_word, leave_word};
