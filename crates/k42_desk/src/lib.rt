//! A value that fits a key, behind an atomic word: whoever finds it there takes it out, and nobody waits.
#![tactic(auto)]

mod desk;

pub use desk::{Desk, Fits, Loan};
