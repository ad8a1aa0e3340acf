//! Operations as C spells them.
ghost use Rattle.std.specs.Prelude.{◌≡◌};
ghost use Rattle.k42_handles.specs.Spelling.{bind_spelled, find_spelled, read_spelled, unbind_spelled, write_spelled};

use co_system::Op;
use k42_kinds::{Name, Text};

/// The bind of a key, if the bytes spell one.
pub fn bind_spelled(key: &[u8], number: u64) -> Option<Op>
    ensures { result ≡ bind_spelled key.now number }
{
    match Name::of(key) {
        Some(name) => Some(Op::Bind(name, number)),
        None => None,
    }
}

/// The look for a key, if the bytes spell one.
pub fn find_spelled(key: &[u8]) -> Option<Op>
    ensures { result ≡ find_spelled key.now }
{
    match Name::of(key) {
        Some(name) => Some(Op::Find(name)),
        None => None,
    }
}

/// The unbind of a key, if the bytes spell one.
pub fn unbind_spelled(key: &[u8]) -> Option<Op>
    ensures { result ≡ unbind_spelled key.now }
{
    match Name::of(key) {
        Some(name) => Some(Op::Unbind(name)),
        None => None,
    }
}

/// The write of a page, if there is such a page, and the bytes spell a text.
pub fn write_spelled(page: u32, text: &[u8]) -> Option<Op>
    ensures { result ≡ write_spelled page text.now }
{
    if page > u32::from(u16::MAX) {
        return None;
    }
    match Text::of(text) {
        Some(text) => Some(Op::Write(page as u16, text)),
        None => None,
    }
}

/// The read of a page, if there is such a page.
pub fn read_spelled(page: u32) -> Option<Op>
    ensures { result ≡ read_spelled page }
{
    if page > u32::from(u16::MAX) {
        return None;
    }
    Some(Op::Read(page as u16))
}
