//! The logs of several callers, read as one history.
#![tactic(auto)]

mod journal;
mod laws;
mod queue;
mod reader;

pub use journal::Journal;
pub use laws::a_journal_is_the_merge;
pub use reader::Reader;
