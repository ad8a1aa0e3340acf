//! The entries of one caller, each as a head of three words, and words and bytes besides.
#![tactic(auto)]

mod head;
mod log;
mod name;
mod reading;
mod stored;
mod unread;

pub use head::CELLS;
pub use log::Log;
pub use unread::{Standing, Unread};
