//! Calls, swaps and the freeing of rows, as a machine of events over that of the generations.
#![tactic(auto)]

mod caller;
mod calling;
mod event;
mod laws;
mod machine;
mod object;
mod start;
mod state;
mod swapping;
mod taking;
mod turning;

pub use caller::{PhaseCaller, Place, SwapAt};
pub use event::PhaseEvent;
pub use laws::{
    count_is_of_callers, each_event_keeps, freed_after_leaving, inside_is_present, moved_is_ready,
    moves_alone, nothing_falls, one_swap, others_stay, reads_by_look_up_and_knock, row_stays,
    shapes_stay, stays_sound,
};
pub use machine::{apply, has_room};
pub use object::{LocalEntry, ObjectPlan, PhaseObject};
pub use state::PhaseState;
