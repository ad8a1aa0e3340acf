//! States that can be copied.
ghost use Rattle.std.specs.Prelude.{◌≡◌, IfOk};

use k42_memory::Memory;
use std::alloc::Global;

/// A state of which there can be several.
pub trait Replica: Drop {
    /// The same state once more.
    fn again(&self, alloc: Global) -> Result<Self, Memory>
        ensures { IfOk result (λ copy. copy ≡ self.now) };
}
