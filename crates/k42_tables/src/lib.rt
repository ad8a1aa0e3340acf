//! Calls on the local tables: the look-up, the handler of its misses, and the roots that it asks.
#![tactic(auto)]

mod answers;
mod calls;
mod filling;
mod laws;
mod missing;
mod roots;

pub use answers::{Entered, Filled, Tried};
pub use calls::{finish_call, look_up};
pub use laws::cells_inside_are_open;
pub use missing::{miss, try_miss};
pub use roots::{Root, SharedRoot, SpreadRoot};
