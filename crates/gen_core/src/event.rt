/// What a caller, named by its number, may do next.
#[derive(Clone, Copy, Debug, PartialEq, Eq)]
pub enum GenEvent {
    /// Begins an activity in the present generation of its processor.
    Enter(u32),
    /// Ends its activity.
    Leave(u32),
    /// Takes the role of the caller that waits for a grace period, where the role is free.
    TakeRole(u32),
    /// Reads the exits that the next generation of a processor will count on from.
    LookAhead(u32),
    /// Moves a processor to its next generation.
    Flip(u32),
    /// Looks whether a processor's former generation has ended.
    Look(u32),
    /// Gives the role back.
    GiveRole(u32),
}
