//! The lines of a text, one after the other, and the tokens of a line, one after the other.
ghost use Rattle.std.specs.Prelude.{◌≡◌, ◌≢◌, ℕ, ◌<◌, ◌≤◌, length, slice_index};
ghost use Rattle.record_text.specs.Reader.Parts.{token_at, at_end};
ghost use Rattle.record_text.specs.Reader.Cursor.{CutsLine, TakesToken, left_tokens};

use k42_limits::{LINE_FEED, SPACE};

/// What is left of a line: nothing, or a token with those behind it.
#[derive(Clone, Copy)]
pub struct Left<'a> {
    pub rest: Option<&'a [u8]>,
}

/// The first line of a text, and what stands after it.
#[derive(Clone, Copy)]
pub struct Cut<'a> {
    pub line: Left<'a>,
    pub rest: &'a [u8],
}

/// How many bytes stand before the first such byte.
fn len_before(bytes: &[u8], last: u8) -> usize
    ensures within { result ≤ length bytes.now }
    ensures before { (k : ℕ) → k < result → slice_index bytes.now k ≢ last }
    ensures found { result < length bytes.now → slice_index bytes.now result ≡ last }
{
    for (i, &byte) in bytes.iter().enumerate() {
        if byte == last {
            return i;
        }
    }
    bytes.len()
}

/// Cuts the first line off.
pub fn next_line(bytes: &[u8]) -> Cut<'_>
    requires { 0 < length bytes.now }
    ensures { CutsLine bytes.now result.line result.rest.now }
{
    let len = len_before(bytes, LINE_FEED);
    if len == bytes.len() {
        return Cut {
            line: Left { rest: None },
            rest: &[],
        };
    }
    Cut {
        line: Left {
            rest: Some(&bytes[..len]),
        },
        rest: &bytes[len + 1..],
    }
}

/// Takes the first token.
pub fn take_token<'a>(left: &mut Left<'a>) -> Option<&'a [u8]>
    ensures { TakesToken result left.new (token_at (left_tokens left.old)) }
{
    let rest = left.rest?;
    let len = len_before(rest, SPACE);
    if len == rest.len() {
        left.rest = None;
        return Some(rest);
    }
    left.rest = Some(&rest[len + 1..]);
    Some(&rest[..len])
}

/// Asks that no token is left.
pub fn expect_end(left: &Left<'_>) -> Option<()>
    ensures { result ≡ at_end (left_tokens left.now) }
{
    match left.rest {
        Some(_) => None,
        None => Some(()),
    }
}
