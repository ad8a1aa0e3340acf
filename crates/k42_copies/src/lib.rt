//! An object kept as copies of its whole state, for kinds that tell which of their operations only read.
#![tactic(auto)]

mod any_copies;
mod copies;
mod replica;
mod replicated;
mod row;
mod spaced;
mod spacing;

pub use any_copies::AnyCopies;
pub use copies::Copies;
pub use replica::Replica;
pub use replicated::Replicated;
pub use spaced::Spaced;
pub use spacing::{Apart, InFours, InPairs, Spacing, Together};
