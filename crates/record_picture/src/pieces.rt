//! The pieces of XML that all others are made of, and the one place where names and texts are escaped.
ghost use Rattle.std.specs.Prelude.{◌≡◌, ◌≤◌, ◌++◌, IfOk, OnOk};
ghost use Rattle.record_picture.specs.Pieces.{escape, escaped, numbered, worded, cut_to};

use crate::lists::front;
use k42_memory::Memory;
use script_text::put_digits;
use std::alloc::Global;

/// Adds a byte as it is written in XML.
fn put_escape(out: &mut Vec<u8>, byte: u8) -> Result<(), Memory>
    ensures { OnOk result (out.new.items ≡ out.old.items ++ escape byte) }
{
    match byte {
        b'&' => out.extend_from_slice(b"&amp;")?,
        b'<' => out.extend_from_slice(b"&lt;")?,
        b'>' => out.extend_from_slice(b"&gt;")?,
        b'"' => out.extend_from_slice(b"&quot;")?,
        b'\'' => out.extend_from_slice(b"&apos;")?,
        _ => out.push(byte)?,
    }
    Ok(())
}

/// Adds bytes as they are written in XML.
fn put_escaped(out: &mut Vec<u8>, bytes: &[u8]) -> Result<(), Memory>
    ensures { OnOk result (out.new.items ≡ out.old.items ++ escaped bytes.now) }
{
    for byte in bytes {
        put_escape(out, *byte)?;
    }
    Ok(())
}

/// Adds bytes as they are.
pub fn put_fixed(out: &mut Vec<u8>, bytes: &[u8]) -> Result<(), Memory>
    ensures { OnOk result (out.new.items ≡ out.old.items ++ bytes.now) }
{
    out.extend_from_slice(bytes)?;
    Ok(())
}

/// Adds a fixed text and a number.
#[tactic(auto, unfolding(crate::specs::Pieces::numbered))]
pub fn put_numbered(out: &mut Vec<u8>, before: &[u8], number: u64) -> Result<(), Memory>
    ensures { OnOk result (out.new.items ≡ out.old.items ++ numbered before.now number) }
{
    out.extend_from_slice(before)?;
    put_digits(out, number)
}

/// Adds a fixed text and a word.
#[tactic(auto, unfolding(crate::specs::Pieces::worded))]
pub fn put_worded(out: &mut Vec<u8>, before: &[u8], word: &[u8]) -> Result<(), Memory>
    ensures { OnOk result (out.new.items ≡ out.old.items ++ worded before.now word.now) }
{
    out.extend_from_slice(before)?;
    put_escaped(out, word)
}

/// The word, cut to so many bytes where it is too long.
pub fn cut(alloc: Global, word: &[u8], kept: u8) -> Result<Vec<u8>, Memory>
    ensures { IfOk result (λ text. text.items ≡ cut_to kept word.now) }
{
    let kept = usize::from(kept);
    if word.len() <= kept + 2 {
        return Ok(word.to_vec(alloc)?);
    }
    let mut text = Vec::new(alloc);
    text.extend_from_slice(front(word, kept))?;
    text.extend_from_slice(b"..")?;
    Ok(text)
}
