//! What the calls on the tables answer.

/// Where a local entry leads.
#[derive(Clone, Copy, Debug, PartialEq, Eq)]
pub enum Entered {
    Direct { cell: u32 },
    Missed,
    Mediated,
}

/// How the handler of a miss came out.
#[derive(Clone, Copy, Debug, PartialEq, Eq)]
pub enum Filled {
    Installed { cell: u32 },
    /// The entry was another one by then, which is this word.
    Elsewhere { word: u64 },
}

/// How one try of it came out.
#[derive(Clone, Copy, Debug, PartialEq, Eq)]
pub enum Tried {
    Filled(Filled),
    /// The caller of this number held the cell.
    Held { holder: u32 },
}
