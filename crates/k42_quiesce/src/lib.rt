//! Activities, grace periods, and the rows that they free.
#![tactic(auto)]

mod activities;
mod collecting;
mod emptying;
mod flipping;
mod laws;
mod looking;
mod reclaiming;
mod steps;
mod waiting;

pub use activities::{enter, leave};
pub use collecting::{collect, hand_over};
pub use laws::{activities_open_at_the_taking_end, quiet_activities_are_younger};
pub use reclaiming::reclaim;
pub use steps::{Grace, GraceStep, Held};
pub use waiting::grace;
