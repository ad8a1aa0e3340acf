/// What a history of a generated script comes to.
#[derive(Clone, Copy, Debug, PartialEq, Eq)]
pub struct Summary {
    pub calls: u32,
    /// What the counter has.
    pub total: u64,
    /// How many names are bound.
    pub names: u64,
    /// How many pages are dirty.
    pub dirty: u64,
    /// The swaps that were done.
    pub swaps: u32,
}
