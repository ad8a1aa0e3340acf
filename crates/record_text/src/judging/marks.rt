//! A number for each worker and object, in one array.
ghost use Rattle.std.specs.Prelude.{◌≡◌, ◌<◌, ◌&&◌, ◌==◌, ℕ, if◌then◌else◌};
ghost use Rattle.k42_limits.specs.declared.TheConstants.{CALLERS, OBJECTS};
ghost use Rattle.record_text.specs.Referee.Marks.{Shows};

use k42_limits::{CALLERS, OBJECTS};

/// A cell for each worker and object.
const CELLS: usize = CALLERS * OBJECTS;

/// A number for each worker and object.
#[derive(Drop)]
pub struct Marks {
    pub cells: [u32; CELLS],
}

impl Marks {
    /// The same number for all.
    pub fn new(mark: u32) -> Marks
        ensures { Shows result (λ worker object. mark) }
    {
        Marks {
            cells: [mark; CELLS],
        }
    }

    pub fn get(&self, worker: u32, object: u32) -> u32
        requires worker { worker < CALLERS }
        requires object { object < OBJECTS }
        ensures { (shown : ℕ → ℕ → ℕ) → Shows self.now shown → result ≡ shown worker object }
    {
        self.cells[worker as usize * OBJECTS + object as usize]
    }

    pub fn set(&mut self, worker: u32, object: u32, mark: u32)
        requires worker { worker < CALLERS }
        requires object { object < OBJECTS }
        ensures { (shown : ℕ → ℕ → ℕ) → Shows self.old shown →
            Shows self.new (λ w o. if (worker == w) && (object == o) then mark else shown w o) }
    {
        self.cells[worker as usize * OBJECTS + object as usize] = mark;
    }
}
