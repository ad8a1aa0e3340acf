//! Layouts made of ways to keep an object: one alone, several side by side, and the dead one behind them.
#![tactic(auto)]

mod choice;
mod choice_part;
mod living;
mod mortal;
mod only;
mod way;
mod within;

pub use choice::Choice;
pub use choice_part::ChoicePart;
pub use living::Living;
pub use mortal::{Mortal, MortalPart, MortalState};
pub use only::Only;
pub use way::Way;
pub use within::{Within, among, put_back, taken};
