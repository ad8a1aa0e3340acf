//! Clustered objects of any kinds, which are called on any thread, swapped and destroyed while they are called, and
//! closed into one legal history.
#![tactic(auto)]

mod asking;
mod calls;
mod cells;
mod closing;
mod history;
mod laws;
mod patience;
mod phases;
mod plan;
mod section_laws;
mod sections;
mod serving;
mod stepping;
mod swaps;
mod system;
mod waiting;

pub use asking::Question;
pub use calls::{Attempt, Call, CallCause, CallStep, NoCall};
pub use history::{History, Unclosed};
pub use k42_clustered::Clustered;
pub use k42_journal::{Journal, Reader};
pub use k42_kinds::{Act, Answer, Entry, Kind, Layout, To};
pub use k42_memory::Memory;
pub use k42_rule::{Keep, Pass};
pub use laws::{
    nothing_seen_is_later_than_the_last_entry, the_end_of_a_swap_given_up_leaves_its_object_open,
    traces_are_legal,
};
pub use plan::{Plan, PlanFault};
pub use section_laws::{
    sections_are_legal, sections_lie_end_to_end, the_last_section_ends_the_history,
};
pub use swaps::{Cause, NoSwap, Step, Swap, Swapped};
pub use system::System;
