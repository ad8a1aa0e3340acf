//! What a cell can hold, over all kinds and layouts.
use co_directory::IndexedNames;
use co_pages::Places;
use k42_kinds::{DirectoryState, PagesState};

/// What one cell of an object of any kind holds.
#[derive(Drop)]
pub enum AnyPart {
    /// An amount of a counter, or its value where it has one part.
    Amount(u64),
    /// All names of a directory that has one part.
    Indexed(IndexedNames),
    /// A copy of a directory.
    Copy(DirectoryState),
    /// All pages, where they have one part.
    Pages(PagesState),
    /// The pages of one cell.
    Places(Places),
    /// Nothing: the object was destroyed.
    Dead,
}
