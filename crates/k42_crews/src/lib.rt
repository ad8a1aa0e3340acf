//! The passes of a system: each is given to a thread of its own, and all are closed in the end.
#![tactic(auto)]

mod crews;
mod once;
mod sections;
mod threads;

pub use crews::{are_all, close, end, last, start};
pub use once::{ask_once, call_once, swap_once};
pub use sections::section;
pub use threads::{Work, work_all};
