//! Why something was not done.
use co_system::PlanFault;

/// Why something was not done. Where it was not, nothing has changed but what is said.
#[derive(Clone, Copy, Debug, PartialEq, Eq)]
pub enum Refusal {
    /// Another caller or a swap was in the way for a moment.
    Again,
    Memory,
    /// The pass has drawn all its entries.
    Worn,
    /// The handle has no pass.
    Empty,
    /// The handle has one already.
    Full,
    /// The pass is where this may not be asked.
    Turn,
    /// There is no such object.
    Object,
    /// The object is of another kind.
    Kind,
    /// An argument spells nothing.
    Argument,
    /// The system keeps no sections.
    Sections,
    /// There is no such system.
    Plan(PlanFault),
}
