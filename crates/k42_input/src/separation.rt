//! The input is cut where the script ends and the record begins.
ghost use Rattle.std.specs.Prelude.{◌≡◌, ◌+◌, ◌<◌, ◌≤◌, ◌∷◌, length, take, drop};
ghost use Rattle.script_text.specs.Lines.{lines_of};
ghost use Rattle.k42_input.specs.Separation as separation;

use k42_limits::LINE_FEED;

/// The two parts of the input.
#[derive(Clone, Copy)]
pub struct Parts<'a> {
    pub script: &'a [u8],
    /// What stands in place of a record.
    pub text: &'a [u8],
}

/// How many bytes the first line has, with its line feed.
fn first_line_len(bytes: &[u8]) -> usize
    requires { 0 < length bytes.now }
    ensures some { 0 < result }
    ensures within { result ≤ length bytes.now }
    ensures line { lines_of bytes.now ≡ take result bytes.now ∷ lines_of (drop result bytes.now) }
{
    for (i, &byte) in bytes.iter().enumerate() {
        if byte == LINE_FEED {
            return i + 1;
        }
    }
    bytes.len()
}

/// How many lines there are.
pub fn line_count(bytes: &[u8]) -> usize
    ensures lines { result ≡ length (lines_of bytes.now) }
    ensures within { result ≤ length bytes.now }
{
    let mut count = 0;
    let mut rest = bytes;
    while !rest.is_empty() {
        rest = &rest[first_line_len(rest)..];
        count += 1;
    }
    count
}

/// Whether the line is `---`.
fn is_separator(line: &[u8]) -> bool
    ensures { result ≡ separation.is_separator line.now }
{
    line == b"---\n".as_slice() || line == b"---".as_slice()
}

/// Cuts the input at the first line `---`.
pub fn separate(input: &[u8]) -> Parts<'_>
    ensures script { result.script.now ≡ separation.script_part input.now }
    ensures text { result.text.now ≡ separation.record_part input.now }
    ensures apart { separation.IsSeparated input.now result.script.now result.text.now }
    ensures within { length result.text.now ≤ length input.now }
{
    let mut start = 0;
    while start < input.len() {
        let end = start + first_line_len(&input[start..]);
        if is_separator(&input[start..end]) {
            return Parts {
                script: &input[..start],
                text: &input[end..],
            };
        }
        start = end;
    }
    Parts {
        script: input,
        text: &[],
    }
}
