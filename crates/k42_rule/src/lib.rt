//! The running table under one rule: between any two steps it shows a state of the joined machine.
#![tactic(auto)]

mod begun;
mod calling;
mod drawing;
mod finish;
mod freeing;
mod generating;
mod gracing;
mod handing;
mod keeping;
mod laws;
mod noting;
mod pass;
mod retiring;
mod sections;
mod start;
mod swap_begins;
mod swapping;
mod sys;
mod tabling;
mod taking;

pub use calling::call_one;
pub use drawing::{draw_alone, draw_call, draw_mark};
pub use finish::give_logs;
pub use freeing::free;
pub use generating::{enter_step, leave_step};
pub use gracing::{flip, generation_step, give_role, look, take_role};
pub use handing::draw_done;
pub use k42_board::{Carried, Cell, Content, Inside, Keep, LastBegin, Retired, Row, Rows, Slip};
pub use laws::{
    freed_rows_stay_freed, layouts_are_lawful, rows_have_one_name, rows_inside_are_present,
    shown_states_are_safe,
};
pub use pass::{Pass, Walker};
pub use retiring::{pop_row, push_row};
pub use sections::give_section;
pub use swap_begins::begin_step;
pub use swapping::{block_step, clear_step, entry_step, move_step, turn_over};
pub use sys::Sys;
pub use tabling::{end_call, install_step, knock_step, look_up_step, root_step, step_out};
pub use taking::{lock, lock_quietly, put, put_from, take, take_into, unlock};
