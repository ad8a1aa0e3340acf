//! What a pass knows of its last Begin.
ghost use Rattle.std.specs.Prelude.{◌≡◌};
ghost use Rattle.k42_board.specs.Values.{incarnation_in};
ghost use Rattle.k42_board.specs.Views.{object_begun, word_begun};

use k42_board::{LastBegin, incarnation_in};

/// The object of the last Begin.
pub(crate) fn object_begun_in(last: &Option<LastBegin>) -> u32
    ensures { result ≡ object_begun last.now }
{
    match last {
        Some(begin) => begin.object,
        None => 0,
    }
}

/// The incarnation that the last Begin found.
pub(crate) fn incarnation_at(last: &Option<LastBegin>) -> u32
    ensures { result ≡ incarnation_in (word_begun last.now) }
{
    match last {
        Some(begin) => incarnation_in(begin.word),
        None => 0,
    }
}

/// The word that the last Begin found.
pub(crate) fn begun_word(last: &Option<LastBegin>) -> u64
    ensures { result ≡ word_begun last.now }
{
    match last {
        Some(begin) => begin.word,
        None => 0,
    }
}
