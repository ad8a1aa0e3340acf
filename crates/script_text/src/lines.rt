//! A text is cut into lines, and the bytes are tested that may stand in one.
ghost use Rattle.std.specs.Prelude.{◌≡◌, ◌≢◌, ℕ, ◌<◌, ◌≤◌, true, false, length, slice_index};
ghost use Rattle.script_text.specs.Lines.{is_printable, is_printable_text};
ghost use Rattle.script_text.specs.Cuts.{CutsLine};

use k42_limits::{LINE_FEED, SPACE};

/// The first line of a text, and what stands after it.
#[derive(Clone, Copy)]
pub struct Cut<'a> {
    /// What stands on the line, without its line feed.
    pub text: &'a [u8],
    pub rest: &'a [u8],
    /// Whether every byte of the text may stand in a script.
    pub is_printable: bool,
}

/// How many bytes stand before the first that may not stand in the text of a line.
fn printable_len(bytes: &[u8]) -> usize
    ensures within { result ≤ length bytes.now }
    ensures before { (k : ℕ) → k < result → is_printable (slice_index bytes.now k) ≡ true }
    ensures found { result < length bytes.now → is_printable (slice_index bytes.now result) ≡ false }
{
    for (i, &byte) in bytes.iter().enumerate() {
        if !matches!(byte, SPACE..=b'~') {
            return i;
        }
    }
    bytes.len()
}

/// How many bytes stand before the first line feed.
fn text_len(bytes: &[u8]) -> usize
    ensures within { result ≤ length bytes.now }
    ensures before { (k : ℕ) → k < result → slice_index bytes.now k ≢ LINE_FEED }
    ensures found { result < length bytes.now → slice_index bytes.now result ≡ LINE_FEED }
{
    for (i, &byte) in bytes.iter().enumerate() {
        if byte == LINE_FEED {
            return i;
        }
    }
    bytes.len()
}

/// Cuts the first line off, in one pass where its text is printable.
pub fn next_line(bytes: &[u8]) -> Cut<'_>
    requires { 0 < length bytes.now }
    ensures cuts { CutsLine bytes.now result.text.now result.rest.now }
    ensures printable { result.is_printable ≡ is_printable_text result.text.now }
{
    let printable = printable_len(bytes);
    let others = text_len(&bytes[printable..]);
    let is_printable = others == 0;
    let len = printable + others;
    if len == bytes.len() {
        return Cut {
            text: bytes,
            rest: &[],
            is_printable,
        };
    }
    Cut {
        text: &bytes[..len],
        rest: &bytes[len + 1..],
        is_printable,
    }
}
