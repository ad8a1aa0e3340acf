//! What is kept of one page.
use crate::text::Text;

/// A page that was written.
#[derive(Clone, Copy, Debug, PartialEq, Eq)]
pub struct Page {
    pub text: Text,
    /// Whether it was written since the pages were last cleaned.
    pub dirty: bool,
}
