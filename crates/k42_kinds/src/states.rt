//! The state of an object of one thread, whatever its kind.
use crate::directory::DirectoryState;
use crate::pages::PagesState;

/// The state of an object of any kind, or of one that was destroyed.
#[derive(Debug, Drop)]
pub enum AnyState {
    Counter(u64),
    Directory(DirectoryState),
    Pages(PagesState),
    Dead,
}
