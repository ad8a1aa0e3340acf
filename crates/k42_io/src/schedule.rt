//! Which of the calls of a fake are to fail.
ghost use Rattle.std.specs.Prelude.{◌≡◌, ◌-◌, ◌^◌, ◌<◌, ◌↔◌, Contains, IsErr, OnOk, OnErr};
ghost use Rattle.k42_io.specs.Schedule.{new_calls, next_number, after_call, after_fault};

use crate::source::Failed;
use std::marker::Model;

/// Calls that are counted, some of which fail by their number.
#[derive(Debug, Drop)]
pub struct Schedule {
    made: u64,
    failing: Vec<u64>,
    faults: u64,
}

impl Model for Schedule {
    ghost use Rattle.k42_io.specs.Schedule.{Calls};

    ghost Value = { Calls };

    ghost view = { λ s. record { made = s.made; failing = s.failing.items; faults = s.faults } };
}

impl Schedule {
    pub fn new(failing: Vec<u64>) -> Self
        ensures { result ≡ new_calls failing.items }
    {
        Schedule {
            made: 0,
            failing,
            faults: 0,
        }
    }

    /// Counts the next call, and says whether it fails.
    pub fn next_call(&mut self) -> Result<(), Failed>
        requires { self.old.faults < 2 ^ 64 - 1 }
        ensures fails { IsErr result ↔ Contains self.old.failing (next_number self.old) }
        ensures ok { OnOk result (self.new ≡ after_call self.old) }
        ensures err { OnErr result (self.new ≡ after_fault self.old) }
    {
        self.made = self.made.saturating_add(1);
        if self.failing.contains(&self.made) {
            self.faults += 1;
            return Err(Failed);
        }
        Ok(())
    }
}
