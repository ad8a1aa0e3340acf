//! Two ways to keep pages: as one map, and spread over the processors by their numbers.
#![tactic(auto)]

mod places;
mod shared;
mod spread;

pub use places::Places;
pub use shared::{SharedPages, copied};
pub use spread::SpreadPages;
