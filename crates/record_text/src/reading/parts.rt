//! Parts of a line, each taken from the front of what is left of it.
ghost use Rattle.std.specs.Prelude.{◌≡◌, ◌-◌};
ghost use Rattle.std.specs.Str.{bytes_eq};
ghost use Rattle.script_text.specs.Numbers.{number_within};
ghost use Rattle.k42_limits.specs.declared.TheConstants.{PAGES};
ghost use Rattle.record_text.specs.Reader.Parts as parts;
ghost use Rattle.record_text.specs.Reader.ActParts.{page_at};
ghost use Rattle.record_text.specs.Reader.Cursor.{Takes, Passes, left_tokens};

use crate::reading::cursor::{Left, take_token};
use k42_kinds::{Name, Text};
use k42_limits::PAGES;
use script_text::number_up_to;

/// Whether the token is this word.
pub fn is_word(token: &[u8], word: &str) -> bool
    ensures { result ≡ bytes_eq token.now word.now }
{
    token == word.as_bytes()
}

/// The number that the bytes spell, from `low` to `most`.
pub fn number_of(bytes: &[u8], low: u64, most: u64) -> Option<u64>
    ensures { result ≡ number_within low most bytes.now }
{
    match number_up_to(bytes, most) {
        Some(number) if number >= low => Some(number),
        _ => None,
    }
}

/// The number of 32 bits that the bytes spell, from `low`.
fn small_number_of(bytes: &[u8], low: u64) -> Option<u32>
    ensures { result ≡ number_within low parts.most_32 bytes.now }
{
    match number_up_to(bytes, u64::from(u32::MAX)) {
        Some(number) if number >= low => Some(number as u32),
        _ => None,
    }
}

/// The page that the bytes number.
fn page_of(bytes: &[u8]) -> Option<u16>
    ensures { result ≡ number_within 0 (PAGES - 1) bytes.now }
{
    match number_up_to(bytes, u64::from(PAGES) - 1) {
        Some(page) => Some(page as u16),
        None => None,
    }
}

fn name_of(token: &[u8]) -> Option<Name>
    ensures { result ≡ parts.name_of token.now }
{
    Name::of(token)
}

fn text_of(token: &[u8]) -> Option<Text>
    ensures { result ≡ parts.text_of token.now }
{
    Text::of(token)
}

fn marked_number(token: &[u8], mark: u8) -> Option<u32>
    ensures { result ≡ parts.marked_number mark token.now }
{
    match token {
        [] => None,
        [byte, digits @ ..] => {
            if *byte == mark {
                small_number_of(digits, 0)
            } else {
                None
            }
        }
    }
}

/// Takes this word.
#[tactic(auto, unfolding(crate::specs::Reader::Parts::behind_word))]
pub fn take_word(left: &mut Left<'_>, word: &str) -> Option<()>
    ensures { Passes result left.new (parts.behind_word word.now (left_tokens left.old)) }
{
    let token = take_token(left)?;
    if is_word(token, word) { Some(()) } else { None }
}

/// Takes a number from `low` to `most`.
#[tactic(auto, unfolding(crate::specs::Reader::Parts::spelled_at))]
pub fn take_number(left: &mut Left<'_>, low: u64, most: u64) -> Option<u64>
    ensures { Takes result left.new (parts.number_at low most (left_tokens left.old)) }
{
    let token = take_token(left)?;
    number_of(token, low, most)
}

/// Takes a number of 32 bits from `low`.
#[tactic(auto, unfolding(crate::specs::Reader::Parts::spelled_at))]
pub fn take_small_number(left: &mut Left<'_>, low: u64) -> Option<u32>
    ensures { Takes result left.new (parts.number_at low parts.most_32 (left_tokens left.old)) }
{
    let token = take_token(left)?;
    small_number_of(token, low)
}

/// Takes a page's number.
#[tactic(auto, unfolding(crate::specs::Reader::Parts::spelled_at))]
pub fn take_page(left: &mut Left<'_>) -> Option<u16>
    ensures { Takes result left.new (page_at (left_tokens left.old)) }
{
    let token = take_token(left)?;
    page_of(token)
}

/// Takes a key.
#[tactic(auto, unfolding(crate::specs::Reader::Parts::spelled_at))]
pub fn take_name(left: &mut Left<'_>) -> Option<Name>
    ensures { Takes result left.new (parts.name_at (left_tokens left.old)) }
{
    let token = take_token(left)?;
    name_of(token)
}

/// Takes the text of a page.
#[tactic(auto, unfolding(crate::specs::Reader::Parts::spelled_at))]
pub fn take_text(left: &mut Left<'_>) -> Option<Text>
    ensures { Takes result left.new (parts.text_at (left_tokens left.old)) }
{
    let token = take_token(left)?;
    text_of(token)
}

/// Takes a number of 32 bits behind a mark.
#[tactic(auto, unfolding(crate::specs::Reader::Parts::spelled_at))]
pub fn take_marked(left: &mut Left<'_>, mark: u8) -> Option<u32>
    ensures { Takes result left.new (parts.marked_at mark (left_tokens left.old)) }
{
    let token = take_token(left)?;
    marked_number(token, mark)
}
