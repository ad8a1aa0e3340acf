//! A line is cut into tokens at its spaces, and lines are found that say nothing.
ghost use Rattle.std.specs.Prelude.{◌≡◌, ◌≢◌, ℕ, ◌<◌, ◌≤◌, [], length, slice_index};
ghost use Rattle.std.specs.Str.{bytes_eq};
ghost use Rattle.script_text.specs.Tokens.{tokens_of, says_nothing};
ghost use Rattle.script_text.specs.Words.{IsWords, with_token};

use k42_limits::SPACE;

/// Tokens, of which no form has more than three behind its first word.
#[derive(Clone, Copy)]
pub enum Words<'a> {
    None,
    One(&'a [u8]),
    Two(&'a [u8], &'a [u8]),
    Three(&'a [u8], &'a [u8], &'a [u8]),
    More,
}

/// How many spaces stand at the front.
fn blank_len(text: &[u8]) -> usize
    ensures within { result ≤ length text.now }
    ensures before { (k : ℕ) → k < result → slice_index text.now k ≡ SPACE }
    ensures found { result < length text.now → slice_index text.now result ≢ SPACE }
{
    for (i, &byte) in text.iter().enumerate() {
        if byte != SPACE {
            return i;
        }
    }
    text.len()
}

/// How many bytes stand before the first space.
fn token_len(text: &[u8]) -> usize
    ensures within { result ≤ length text.now }
    ensures before { (k : ℕ) → k < result → slice_index text.now k ≢ SPACE }
    ensures found { result < length text.now → slice_index text.now result ≡ SPACE }
{
    for (i, &byte) in text.iter().enumerate() {
        if byte == SPACE {
            return i;
        }
    }
    text.len()
}

/// What stands behind the spaces at the front.
fn past_blanks(text: &[u8]) -> &[u8]
    ensures tokens { tokens_of result.now ≡ tokens_of text.now }
    ensures begins { 0 < length result.now → slice_index result.now 0 ≢ SPACE }
{
    text.split_at(blank_len(text)).1
}

/// The first token, which is empty where there is none, and what stands after it.
pub fn first_token(text: &[u8]) -> (&[u8], &[u8])
    ensures first { tokens_of text.now ≡ with_token result.0.now (tokens_of result.1.now) }
    ensures last { length result.0.now ≡ 0 → length result.1.now ≡ 0 }
{
    let from_token = past_blanks(text);
    from_token.split_at(token_len(from_token))
}

/// The tokens of a text.
pub fn words_of(text: &[u8]) -> Words<'_>
    ensures { IsWords result (tokens_of text.now) }
{
    let (first, rest) = first_token(text);
    if first.is_empty() {
        return Words::None;
    }
    let (second, rest) = first_token(rest);
    if second.is_empty() {
        return Words::One(first);
    }
    let (third, rest) = first_token(rest);
    if third.is_empty() {
        return Words::Two(first, second);
    }
    let (fourth, _) = first_token(rest);
    if fourth.is_empty() {
        return Words::Three(first, second, third);
    }
    Words::More
}

/// Whether the line says nothing: it has no token, or its first begins with `#`.
pub fn is_skipped(text: &[u8]) -> bool
    ensures { result ≡ says_nothing (tokens_of text.now) }
{
    match first_token(text).0 {
        [] => true,
        [byte, ..] => *byte == b'#',
    }
}

/// Whether the token is this word.
pub fn is_word(token: &[u8], word: &str) -> bool
    ensures { result ≡ bytes_eq token.now word.now }
{
    token == word.as_bytes()
}
