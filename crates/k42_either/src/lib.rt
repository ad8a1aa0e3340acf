//! Layouts of two kinds as the layouts of one type: each object is of the one kind or of the other for good.
#![tactic(auto)]

mod either;
mod either_kind;
mod either_layout;
mod either_packed;
mod few_tags;
mod gone;
mod sides;

pub use either::Either;
pub use few_tags::{FEW_TAGS, FEWER_TAGS, FewTags, FewerTags};
pub use gone::Gone;
