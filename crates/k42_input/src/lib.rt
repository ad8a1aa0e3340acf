//! What the programs share that read a script with a record behind it: how their input is read and
//! cut, what is found of the record, and how a program ends.
#![tactic(auto)]

mod command_line;
mod delivery;
mod judging;
mod refusal;
mod separation;
mod status;
mod verdict;

pub use command_line::words_of;
pub use delivery::{WorkEnd, deliver, read_input};
pub use judging::{RecordFound, record_in, verdict_in, verdict_on};
pub use refusal::refusal_line;
pub use separation::{Parts, separate};
pub use status::Status;
pub use verdict::{SPELLING_RULE, Verdict};
