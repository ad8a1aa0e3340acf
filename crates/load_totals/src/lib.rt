//! The five numbers of a generated script: what its lawful history comes to.
#![tactic(auto)]

mod laws;
mod summing;
mod totals;

pub use laws::loads_come_to_their_numbers;
pub use summing::{sum_up, summary};
pub use totals::Summary;
