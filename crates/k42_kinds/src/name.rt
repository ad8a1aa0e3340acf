//! Names of objects and workers, and keys of directories, kept in place and not on the heap.
ghost use Rattle.std.specs.Prelude.{◌≡◌, ◌↔◌, ◌≤◌, length, IsTrue, IsSome, IfSome, Some, nat_eq, refl};
ghost use Rattle.std.specs.List.{list_all};
ghost use Rattle.std.specs.Ordering.{nat_cmp};
ghost use Rattle.std.specs.Cmp.{partial_equiv_from_equiv};
ghost use Rattle.std.specs.Cmp.Lexicographic.{pointwise, slice_cmp, nat_list_eq_equiv, nat_list_cmp_total, texts_po, texts_ties};
ghost use Rattle.std.specs.Cmp.Rules.{hashing};
ghost use Rattle.std.specs.Hash as fed;
ghost use Rattle.std.proofs.Common.{rules};
ghost use Rattle.k42_limits.specs.declared.TheConstants.{NAME_BYTES};
ghost use Rattle.k42_kinds.specs.Words.{is_name, continues_name};

use k42_limits::NAME_BYTES;
use std::cmp::Ordering;
use std::hash::{Hash, Hasher};
use std::marker::Model;

/// The name of an object, of a worker, or a key of a directory: 1 to 16 bytes, a lowercase letter
/// first, then lowercase letters, digits and `_`. Names are ordered as their bytes are.
#[derive(Clone, Copy, Debug)]
pub struct Name {
    bytes: [u8; NAME_BYTES],
    len: u32,
}

impl Model for Name {
    ghost use Rattle.std.specs.Prelude.{ℕ, List, IsTrue, take};

    ghost Value = { List ℕ };

    ghost use Rattle.k42_limits.specs.declared.TheConstants.{NAME_BYTES};
    ghost use Rattle.k42_kinds.specs.Padded.{IsPadded, padded, padded_back};
    ghost use Rattle.k42_kinds.specs.Words.{is_name};

    ghost view = { λ name. take name.len name.bytes };

    ghost invariant = { λ name. IsPadded NAME_BYTES name.len name.bytes × IsTrue (is_name (take name.len name.bytes)) };

    ghost inverse = { λ bytes. record { bytes = (padded NAME_BYTES bytes).cells; len = (padded NAME_BYTES bytes).len } };

    ghost inverse_ok = { λ name whole i. record {
      bytes = (padded_back NAME_BYTES name.len name.bytes whole.0 i).cells;
      len = (padded_back NAME_BYTES name.len name.bytes whole.0 i).len;
    } };
}

impl Name {
    /// The name that the bytes spell, if they spell one.
    pub fn of(bytes: &[u8]) -> Option<Name>
        ensures spelled { IsSome result ↔ IsTrue (is_name bytes.now) }
        ensures value { IfSome result (λ name. name ≡ bytes.now) }
    {
        if !spells_name(bytes) {
            return None;
        }
        Some(Name::again(bytes))
    }

    /// A name of these bytes, which spell one.
    pub fn again(bytes: &[u8]) -> Name
        requires { IsTrue (is_name bytes.now) }
        ensures { result ≡ bytes.now }
    {
        let mut cells = [0; NAME_BYTES];
        cells[..bytes.len()].copy_from_slice(bytes);
        Name {
            bytes: cells,
            len: bytes.len() as u32,
        }
    }

    /// How many bytes it has.
    pub fn len(&self) -> u8
        ensures len { result ≡ length self.now }
        ensures spelled { IsTrue (is_name self.now) }
        ensures few { result ≤ NAME_BYTES }
    {
        self.len as u8
    }

    /// Its bytes.
    pub fn bytes(&self) -> &[u8]
        ensures { result.now ≡ self.now }
    {
        &self.bytes[..self.len as usize]
    }
}

impl PartialEq for Name {
    ghost eq = { pointwise nat_eq };

    ghost laws = { partial_equiv_from_equiv nat_list_eq_equiv };

    fn eq(&self, other: &Self) -> bool {
        self.bytes() == other.bytes()
    }
}

impl Eq for Name {
    ghost laws = { nat_list_eq_equiv };
}

impl PartialOrd for Name {
    ghost partial_cmp = { λ a b. Some (slice_cmp nat_cmp a b) };

    ghost laws = { texts_po };

    fn partial_cmp(&self, other: &Self) -> Option<Ordering> {
        Some(self.cmp(other))
    }
}

impl Ord for Name {
    ghost cmp = { slice_cmp nat_cmp };

    ghost total = { nat_list_cmp_total };

    ghost matches_partial_cmp = { λ a b. refl };

    ghost matches_eq = { texts_ties };

    fn cmp(&self, other: &Self) -> Ordering {
        self.bytes().cmp(other.bytes())
    }
}

impl Hash for Name {
    ghost hash_input = { fed.slice fed.u8 };

    ghost respects_eq = { Prim.search (hashing, rules) };

    fn hash<H: Hasher>(&self, state: &mut H) {
        self.bytes().hash(state);
    }
}

/// Whether a name may go on with this byte.
fn continues(byte: u8) -> bool
    ensures { result ≡ continues_name byte }
{
    byte.is_ascii_lowercase() || byte.is_ascii_digit() || byte == b'_'
}

fn all_continue(bytes: &[u8]) -> bool
    ensures { result ≡ list_all continues_name bytes.now }
{
    bytes.iter().all(|&byte| continues(byte))
}

fn spells_name(bytes: &[u8]) -> bool
    ensures { result ≡ is_name bytes.now }
{
    match bytes {
        [] => false,
        [first, rest @ ..] => {
            bytes.len() <= NAME_BYTES && first.is_ascii_lowercase() && all_continue(rest)
        }
    }
}
