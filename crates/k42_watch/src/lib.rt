//! A layer that counts calls, round any layout that knows of none.
#![tactic(auto)]

mod bare;
mod rows;
mod watch;

pub use bare::Bare;
pub use watch::{Layer, Watch, WatchPart};
