//! A source for tests, which can be told when to fail.
ghost use Rattle.std.specs.Prelude.{◌≡◌, ◌-◌, ◌^◌, ◌<◌, ◌↔◌, min, length, Some, Contains, IsErr, IfOk, OnOk, OnErr};
ghost use Rattle.std.specs.Io.{ReadsAtMost};
ghost use Rattle.std.specs.Io.KnownBytes.{ReadConsumes};
ghost use Rattle.k42_io.specs.Schedule.{next_number};
ghost use Rattle.k42_io.specs.MemSource.{new_supply, after_read, after_failed_read};

use crate::remaining::Remaining;
use crate::schedule::Schedule;
use crate::source::{Failed, Source};
use std::marker::Model;

/// A source over memory that gives at most a piece at each read, and fails at chosen reads.
#[derive(Debug, Drop)]
pub struct MemSource {
    left: Remaining,
    piece: usize,
    reads: Schedule,
}

impl Model for MemSource {
    ghost use Rattle.std.specs.Prelude.{◌<◌};
    ghost use Rattle.k42_io.specs.MemSource.{Supply};

    ghost Value = { Supply };

    ghost view = { λ s. record { left = s.left; piece = s.piece; reads = s.reads } };

    ghost invariant = { λ s. 0 < s.piece };
}

impl MemSource {
    /// `failing` has the numbers of the reads that fail, counted from 1, in any order.
    pub fn new(bytes: Vec<u8>, piece: usize, failing: Vec<u64>) -> Self
        requires { 0 < piece }
        ensures { result ≡ new_supply bytes.items piece failing.items }
    {
        MemSource {
            left: Remaining::new(bytes),
            piece,
            reads: Schedule::new(failing),
        }
    }
}

impl Source for MemSource {
    ghost left = { λ s. Some s.left };

    ghost faults = { λ s. s.reads.faults };

    fn read(&mut self, buf: &mut [u8]) -> Result<usize, Failed>
        requires { self.old.reads.faults < 2 ^ 64 - 1 }
        ensures bound { ReadsAtMost result buf.new }
        ensures bytes { ReadConsumes (Some self.old.left) (Some self.new.left) result buf.new }
        ensures failed { OnErr result (self.old.reads.faults < self.new.reads.faults) }
        ensures quiet { OnOk result (self.new.reads.faults ≡ self.old.reads.faults) }

        // Which reads fail, and what each of the others gives.
        ensures fails { IsErr result ↔ Contains self.old.reads.failing (next_number self.old.reads) }
        ensures count { IfOk result (λ n.
            n ≡ min (min self.old.piece (length buf.old)) (length self.old.left)) }
        ensures ok { IfOk result (λ n. self.new ≡ after_read self.old n) }
        ensures err { OnErr result (self.new ≡ after_failed_read self.old) }
    {
        self.reads.next_call()?;
        Ok(self.left.give(buf, self.piece))
    }
}
