//! Two ways to keep a counter: as one value, and as an amount for each processor.
#![tactic(auto)]

mod shared;
mod spread;

pub use shared::SharedCounter;
pub use spread::SpreadCounter;
