//! What the machine keeps of one caller: its call and its swap.
ghost use Rattle.std.specs.Prelude.{◌≡◌, ◌≤◌, ◌*◌, ℕ, length, slice_set};
ghost use Rattle.phase_core.specs.State.{has_row, with_row};
ghost use Rattle.phase_core.specs.Effects.{at_place, at_row, at_stage};

use std::marker::Model;

/// Where a caller is in its call. The numbers are an object and an incarnation.
#[derive(Clone, Copy, Debug, PartialEq, Eq)]
pub enum Place {
    Out,
    /// It read an empty entry.
    Missed(u32, u32),
    /// It read an entry that leads to a cell of the row.
    Direct(u32, u32),
    /// It read an entry that leads to the mediator.
    AtMediator(u32),
    /// The mediator counts it, and has let it into the row.
    Tracked(u32, u32),
    /// The mediator counts it, and lets it wait.
    Blocked(u32),
}

/// How far the swap of a caller is. The numbers are an object and a processor.
#[derive(Clone, Copy, Debug, PartialEq, Eq)]
pub enum SwapAt {
    Idle,
    /// The object is dead, or at its last incarnation.
    Refused(u32),
    Begun(u32),
    /// The entry of the processor leads to the mediator next.
    Interposing(u32, u32),
    Interposed(u32),
    /// A grace waits for the callers that the mediator did not count.
    Draining(u32),
    Drained(u32),
    Blocking(u32),
    /// Nobody is in the row, and its state may be moved.
    Moved(u32),
    /// The entry of the processor is empty next, at the incarnation that follows.
    Opening(u32, u32),
    /// The same after the swap was given up, at the incarnation as it was.
    Reopening(u32, u32),
    Opened(u32),
}

/// One caller, with its call, what its activity has read, and its swap.
#[derive(Debug, Drop)]
pub struct PhaseCaller {
    pub place: Place,
    /// The rows that its activity has read, as pairs of an object and an incarnation.
    pub read: Vec<(u32, u32)>,
    /// For each object the number below which its grace may free rows, where it is known.
    pub noted: Vec<Option<u32>>,
    /// For each object the rows that its grace has freed: from the first number to below the second.
    pub freeing: Vec<(u32, u32)>,
    pub swap: SwapAt,
}

impl Model for PhaseCaller {
    ghost use Rattle.std.specs.Prelude.{◌≤◌, ◌*◌, vec_len, vec_capacity};
    ghost use Rattle.phase_core.specs.Plain.{Visitor};

    ghost Value = { Visitor };

    ghost view = { λ c. record {
      place = c.place;
      read = c.read.items;
      noted = c.noted.items;
      freeing = c.freeing.items;
      swap = c.swap;
    } };

    ghost invariant = { λ c. 2 * vec_len c.noted ≤ vec_capacity c.read };
}

impl PhaseCaller {
    /// Whether its activity has read the row.
    pub(crate) fn has_read(&self, object: u32, incarnation: u32) -> bool
        ensures { result ≡ has_row self.now.read object incarnation }
    {
        self.read
            .iter()
            .any(|row| row.0 == object && row.1 == incarnation)
    }

    pub(crate) fn set_place(&mut self, place: Place)
        ensures { self.new ≡ at_place self.old place }
    {
        self.place = place;
    }

    /// Goes to a place where it has read the row.
    pub(crate) fn read_row(&mut self, object: u32, incarnation: u32, place: Place)
        requires { length (with_row self.old.read object incarnation) ≤ 2 * length self.old.noted }
        ensures { self.new ≡ at_row self.old object incarnation place }
    {
        if !self.has_read(object, incarnation) {
            self.read.push_reserved((object, incarnation));
        }
        self.place = place;
    }

    pub(crate) fn set_swap(&mut self, swap: SwapAt)
        ensures { self.new ≡ at_stage self.old swap }
    {
        self.swap = swap;
    }
}
