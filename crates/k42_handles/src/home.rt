//! What the handles of one system share.
ghost use Rattle.std.specs.Prelude.{◌≡◌, ◌≤◌, length};

use co_system::{Pass, System};
use k42_desk::{Desk, Fits};

/// Passes that are given back or parked are those of the system, with nothing under way, and none of them is lost.
pub struct Crew;

impl Fits<System, Vec<Pass>> for Crew {
    ghost use Rattle.k42_crews.specs.Ready.{AreFree};
    ghost use Rattle.k42_handles.specs.Gathering.{NoneIsLost};

    ghost fits = { λ system passes. AreFree system passes.items };

    ghost follows = { λ system old new. NoneIsLost system old.items new.items };
}

/// The system, and the passes that were given back or parked.
#[derive(Drop)]
pub struct Home {
    pub(crate) system: System,
    pub(crate) desk: Desk<System, Vec<Pass>, Crew>,
    ghost same: { desk.key ≡ system },
    ghost few: { length system.plan.callers ≤ 16 },
}
