//! What may happen to objects and callers.
use gen_core::GenEvent;

/// What a caller, named by its number, may do next. Objects are named by their numbers too.
#[derive(Debug, Drop)]
pub enum PhaseEvent {
    /// An event of the generations, other than the taking of the role.
    Turn(GenEvent),
    /// Takes the role, with notes: pairs of an object and the number below which its rows may be
    /// freed.
    TakeRole(u32, Vec<(u32, u32)>),
    /// Reads the entry that its processor has for the object.
    LookUp(u32, u32),
    /// Reads the root of the object whose entry it missed.
    RootLoad(u32, u32),
    /// Puts what the root names into the empty entry, or finds it changed and is out.
    Install(u32, u32),
    /// Is counted at the mediator of the object, and let in unless that is blocked.
    Knock(u32, u32),
    /// Is no longer counted there.
    StepOut(u32),
    /// Ends a call that the mediator did not count.
    EndCall(u32),
    /// Begins a swap of the object, where none is under way.
    Begin(u32, u32),
    /// Makes the next entry of its object lead to the mediator.
    Interpose(u32),
    /// Blocks the mediator, once nobody is in the old row uncounted.
    Block(u32),
    /// Sees whether nobody is counted, and may then move the state.
    Move(u32),
    /// Goes to the next incarnation, with a layout.
    TurnOver(u32, u32),
    /// Gives the swap up.
    Unblock(u32),
    /// Makes the next entry of its object empty.
    Open(u32),
    /// Ends the swap.
    Clear(u32),
    /// Frees the rows of the object below the number that it noted.
    Free(u32, u32),
}
