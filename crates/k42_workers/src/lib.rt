//! Runs the workers of a script, each on a thread of its own; `summary` sums up what a generated one leaves.
#![tactic(auto)]

mod gate;
mod lines;
mod plans;
mod running;
mod runs;
mod workers;

pub use gate::{FreeGate, Gate};
pub use lines::{leave_open, leave_outside, open};
pub use load_totals::{Summary, summary};
pub use running::run_script;
pub use runs::{asks_something, begin_run, end_run, idle_run};
