//! Gates that no two threads may share.
use k42_workers::Gate;
use std::cell::Cell;

/// Counts how often it is told of a line.
#[derive(Drop)]
pub(super) struct Counting {
    pub(super) told: Cell<u32>,
}

impl Gate for Counting {
    fn at(&self, _worker: u32, _line: u32, _before: bool) {
        self.told.set(self.told.get().saturating_add(1));
    }
}

/// What a gate hears beside a block: worker, line, and whether it comes before the line. The swap of line 10 begins in
/// the second round, and is done in the fourth.
const HEARD: [(u32, u32, bool); 10] = [
    (1, 9, true),
    (1, 9, false),
    (0, 5, true),
    (0, 5, false),
    (1, 10, true),
    (0, 6, true),
    (0, 6, false),
    (1, 10, false),
    (1, 11, true),
    (1, 11, false),
];

/// Counts what it is told, and what of it was not to be heard then.
#[derive(Drop)]
pub(super) struct Listening {
    pub(super) told: Cell<u32>,
    pub(super) astray: Cell<u32>,
}

impl Gate for Listening {
    fn at(&self, worker: u32, line: u32, before: bool) {
        let place = self.told.get();
        self.told.set(place.saturating_add(1));
        if HEARD.get(place as usize) != Some(&(worker, line, before)) {
            self.astray.set(self.astray.get().saturating_add(1));
        }
    }
}
