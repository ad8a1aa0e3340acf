//! What the calls of a swap answer.

/// How far a swap is that is under way.
#[derive(Clone, Copy, Debug, PartialEq, Eq)]
pub enum Phase {
    Forward,
    Block,
    Transfer,
    Complete,
}

#[derive(Clone, Copy, Debug, PartialEq, Eq)]
pub enum Begun {
    Begun,
    /// Another swap of the object is under way, which leads to the incarnation of this number.
    Busy { number: u32, phase: Phase },
    /// The object is at its last incarnation.
    Spent,
    /// The object is dead.
    Gone,
}

#[derive(Clone, Copy, Debug, PartialEq, Eq)]
pub enum Knocked {
    Admitted { incarnation: u32 },
    Blocked,
}

#[derive(Clone, Copy, Debug, PartialEq, Eq)]
pub enum Moving {
    Moved,
    /// So many callers are still counted.
    InFlight { count: u32 },
}

#[derive(Clone, Copy, Debug, PartialEq, Eq)]
pub enum Marked {
    Marked,
    /// Another caller has the lock.
    Held { holder: u32 },
}
