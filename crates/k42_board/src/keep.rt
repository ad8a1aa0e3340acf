//! What a pass does with the entries that it draws.

/// Which of its entries a pass keeps. Its seat's view, which takes no memory, has them all.
#[derive(Clone, Copy, Debug, PartialEq, Eq)]
pub enum Keep {
    /// All, from which closing the system makes its history.
    All,
    /// Those that no section has taken yet.
    Sections,
    /// None: a draw stores nothing.
    Nothing,
}
