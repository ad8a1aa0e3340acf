//! The layouts of all kinds and the dead one, as one type.
#![tactic(auto)]

mod exports;
mod layout;
mod own;
mod part;
mod rows;

pub use k42_kinds::{AnyState, DirectoryState, PagesState};
pub use layout::AnyLayout;
pub use part::AnyPart;
