//! Two ways to keep a directory: as one map, and as a copy of it for each processor.
#![tactic(auto)]

mod copies;
mod indexed;
mod shared;
mod spread;

pub use copies::copied;
pub use indexed::IndexedNames;
pub use shared::SharedDirectory;
pub use spread::SpreadDirectory;
