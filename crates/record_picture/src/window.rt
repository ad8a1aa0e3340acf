//! The part of a record that a picture shows.
ghost use Rattle.std.specs.Prelude.{◌≡◌, ◌≤◌, length};
ghost use Rattle.record_picture.specs.Windows.{shown};

use crate::lists::{behind, front};
use record_text::RecordLine;

/// A picture has at most this many columns.
pub const COLUMNS: u32 = 2_000;

/// Which entries of a record a picture shows.
#[derive(Clone, Copy, Debug, PartialEq, Eq)]
pub struct Window {
    /// How many entries stand before the first that is shown.
    pub before: u32,
    /// How many are shown, where there are so many.
    pub count: u32,
}

/// The entries that are shown.
pub fn shown_of(window: Window, lines: &[RecordLine]) -> &[RecordLine]
    ensures value { result.now ≡ shown window lines.now }
    ensures few { length result.now ≤ window.count }
{
    front(behind(lines, window.before as usize), window.count as usize)
}
