//! What the fakes have still to give.
ghost use Rattle.std.specs.Prelude.{◌≡◌, min, length, take, drop};

use std::marker::Model;

/// The bytes that a source over memory has left.
#[derive(Debug, Drop)]
pub struct Remaining {
    bytes: Vec<u8>,
    at: usize,
}

impl Model for Remaining {
    ghost use Rattle.std.specs.Prelude.{ℕ, ◌≤◌, List, drop, vec_len};

    ghost Value = { List ℕ };

    ghost view = { λ r. drop r.at r.bytes.items };

    ghost invariant = { λ r. r.at ≤ vec_len r.bytes };
}

impl Remaining {
    pub fn new(bytes: Vec<u8>) -> Self
        ensures { result ≡ bytes.items }
    {
        Remaining { bytes, at: 0 }
    }

    /// Puts the first bytes at the front of `buf`, `most` of them at most, and says how many.
    pub fn give(&mut self, buf: &mut [u8], most: usize) -> usize
        ensures count { result ≡ min (min most (length buf.old)) (length self.old) }
        ensures front { take result buf.new ≡ take result self.old }
        ensures rest { self.new ≡ drop result self.old }
    {
        let left = &self.bytes.as_slice()[self.at..];
        let count = most.min(buf.len()).min(left.len());
        buf[..count].copy_from_slice(&left[..count]);
        self.at += count;
        count
    }
}
