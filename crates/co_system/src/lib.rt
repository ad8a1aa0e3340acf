//! Systems of counters, directories and pages, any of which may have a layer that counts its calls.
#![tactic(auto)]

mod kinds;

pub use k42_kinds::{Act, Answer, Entry, KindName, LayoutName, Name, Op, Reply, Text, To};
pub use k42_memory::Memory;
pub use k42_runtime::{
    Attempt, CallCause, Cause, Journal, Keep, NoCall, NoSwap, PlanFault, Question, Reader, Step,
    Swap, Swapped, nothing_seen_is_later_than_the_last_entry, sections_are_legal,
    sections_lie_end_to_end, the_end_of_a_swap_given_up_leaves_its_object_open,
    the_last_section_ends_the_history, traces_are_legal,
};
pub use kinds::{
    Call, CallStep, History, Pass, Plan, System, SystemLayout, Unclosed, kept_as, kind_of,
};
