//! The text of a page, kept in place and not on the heap.
ghost use Rattle.std.specs.Prelude.{◌≡◌, ◌↔◌, ◌≤◌, length, IsTrue, IsSome, IfSome, Some, nat_eq, refl};
ghost use Rattle.std.specs.List.{list_all};
ghost use Rattle.std.specs.Ordering.{nat_cmp};
ghost use Rattle.std.specs.Cmp.{partial_equiv_from_equiv};
ghost use Rattle.std.specs.Cmp.Lexicographic.{pointwise, slice_cmp, nat_list_eq_equiv, nat_list_cmp_total, texts_po, texts_ties};
ghost use Rattle.std.specs.Cmp.Rules.{hashing};
ghost use Rattle.std.specs.Hash as fed;
ghost use Rattle.std.proofs.Common.{rules};
ghost use Rattle.k42_limits.specs.declared.TheConstants.{TEXT_BYTES};
ghost use Rattle.k42_kinds.specs.Words.{is_text, is_visible};

use k42_limits::TEXT_BYTES;
use std::cmp::Ordering;
use std::hash::{Hash, Hasher};
use std::marker::Model;

/// What a page holds: 1 to 32 bytes from 33 to 126. Texts are ordered as their bytes are.
#[derive(Clone, Copy, Debug)]
pub struct Text {
    bytes: [u8; TEXT_BYTES],
    len: u32,
}

impl Model for Text {
    ghost use Rattle.std.specs.Prelude.{ℕ, List, IsTrue, take};

    ghost Value = { List ℕ };

    ghost use Rattle.k42_limits.specs.declared.TheConstants.{TEXT_BYTES};
    ghost use Rattle.k42_kinds.specs.Padded.{IsPadded, padded, padded_back};
    ghost use Rattle.k42_kinds.specs.Words.{is_text};

    ghost view = { λ text. take text.len text.bytes };

    ghost invariant = { λ text. IsPadded TEXT_BYTES text.len text.bytes × IsTrue (is_text (take text.len text.bytes)) };

    ghost inverse = { λ bytes. record { bytes = (padded TEXT_BYTES bytes).cells; len = (padded TEXT_BYTES bytes).len } };

    ghost inverse_ok = { λ text whole i. record {
      bytes = (padded_back TEXT_BYTES text.len text.bytes whole.0 i).cells;
      len = (padded_back TEXT_BYTES text.len text.bytes whole.0 i).len;
    } };
}

impl Text {
    /// The text of these bytes, if they are one.
    pub fn of(bytes: &[u8]) -> Option<Text>
        ensures spelled { IsSome result ↔ IsTrue (is_text bytes.now) }
        ensures value { IfSome result (λ text. text ≡ bytes.now) }
    {
        if !spells_text(bytes) {
            return None;
        }
        Some(Text::again(bytes))
    }

    /// A text of these bytes, which spell one.
    pub fn again(bytes: &[u8]) -> Text
        requires { IsTrue (is_text bytes.now) }
        ensures { result ≡ bytes.now }
    {
        let mut cells = [0; TEXT_BYTES];
        cells[..bytes.len()].copy_from_slice(bytes);
        Text {
            bytes: cells,
            len: bytes.len() as u32,
        }
    }

    /// How many bytes it has.
    pub fn len(&self) -> u8
        ensures len { result ≡ length self.now }
        ensures spelled { IsTrue (is_text self.now) }
        ensures few { result ≤ TEXT_BYTES }
    {
        self.len as u8
    }

    /// Its bytes.
    pub fn bytes(&self) -> &[u8]
        ensures { result.now ≡ self.now }
    {
        &self.bytes[..self.len as usize]
    }
}

impl PartialEq for Text {
    ghost eq = { pointwise nat_eq };

    ghost laws = { partial_equiv_from_equiv nat_list_eq_equiv };

    fn eq(&self, other: &Self) -> bool {
        self.bytes() == other.bytes()
    }
}

impl Eq for Text {
    ghost laws = { nat_list_eq_equiv };
}

impl PartialOrd for Text {
    ghost partial_cmp = { λ a b. Some (slice_cmp nat_cmp a b) };

    ghost laws = { texts_po };

    fn partial_cmp(&self, other: &Self) -> Option<Ordering> {
        Some(self.cmp(other))
    }
}

impl Ord for Text {
    ghost cmp = { slice_cmp nat_cmp };

    ghost total = { nat_list_cmp_total };

    ghost matches_partial_cmp = { λ a b. refl };

    ghost matches_eq = { texts_ties };

    fn cmp(&self, other: &Self) -> Ordering {
        self.bytes().cmp(other.bytes())
    }
}

impl Hash for Text {
    ghost hash_input = { fed.slice fed.u8 };

    ghost respects_eq = { Prim.search (hashing, rules) };

    fn hash<H: Hasher>(&self, state: &mut H) {
        self.bytes().hash(state);
    }
}

fn all_visible(bytes: &[u8]) -> bool
    ensures { result ≡ list_all is_visible bytes.now }
{
    bytes.iter().all(|&byte| byte.is_ascii_graphic())
}

fn spells_text(bytes: &[u8]) -> bool
    ensures { result ≡ is_text bytes.now }
{
    !bytes.is_empty() && bytes.len() <= TEXT_BYTES && all_visible(bytes)
}
