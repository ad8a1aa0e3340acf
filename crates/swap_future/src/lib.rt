//! Swaps as futures, which any executor polls: a poll is one step of its swap, or of the swaps of a plan.
#![tactic(auto)]

mod laws;
mod polling;
mod rolling;

pub use laws::each_pass_draws_the_entries_of_its_items;
pub use polling::{SwapEnd, SwapFuture};
pub use rolling::{Flight, Roll, Rolled, Rolling, Unrolled};
