//! A source and a sink over memory, for where no failure is wanted.
ghost use Rattle.std.specs.Prelude.{◌≡◌, ◌<◌, ⊤, min, length, drop, Some, IsOk, IfOk};
ghost use Rattle.std.specs.Io.{ReadsAtMost};
ghost use Rattle.std.specs.Io.KnownBytes.{ReadConsumes};
ghost use Rattle.k42_io.specs.Sink.{Stays, WriteGrows};
ghost use Rattle.k42_io.specs.Storage.{empty_shelf, after_store, told};

use crate::remaining::Remaining;
use crate::sink::Sink;
use crate::source::{Failed, Source};
use crate::storage::Storage;
use k42_memory::Memory;
use std::alloc::Global;
use std::marker::Model;

/// A source over memory that never fails.
#[derive(Debug, Drop)]
pub struct QuietSource {
    left: Remaining,
}

impl Model for QuietSource {
    ghost use Rattle.std.specs.Prelude.{ℕ, List};

    ghost Value = { List ℕ };

    ghost view = { λ s. s.left };
}

impl QuietSource {
    pub fn new(bytes: Vec<u8>) -> Self
        ensures { result ≡ bytes.items }
    {
        QuietSource {
            left: Remaining::new(bytes),
        }
    }
}

impl Source for QuietSource {
    ghost left = { λ s. Some s };

    ghost faults = { λ _. 0 };

    fn read(&mut self, buf: &mut [u8]) -> Result<usize, Failed>
        ensures never_fails { IsOk result }
        ensures bound { ReadsAtMost result buf.new }
        ensures bytes { ReadConsumes (Some self.old) (Some self.new) result buf.new }
        ensures count { IfOk result (λ n. n ≡ min (length buf.old) (length self.old)) }
        ensures rest { IfOk result (λ n. self.new ≡ drop n self.old) }
    {
        let most = buf.len();
        Ok(self.left.give(buf, most))
    }
}

/// A sink over memory that never fails.
#[derive(Debug, Drop)]
pub struct QuietSink {
    storage: Storage,
}

impl Model for QuietSink {
    ghost use Rattle.k42_io.specs.Storage.{Shelf};

    ghost Value = { Shelf };

    ghost view = { λ s. s.storage };
}

impl QuietSink {
    pub fn new(alloc: Global, room: usize) -> Result<Self, Memory>
        ensures { IfOk result (λ sink. sink ≡ empty_shelf room) }
    {
        Ok(QuietSink {
            storage: Storage::new(alloc, room)?,
        })
    }

    /// The stored bytes: the first that were written, as far as the room went.
    pub fn taken(&self) -> &[u8]
        ensures { result.now ≡ self.now.stored }
    {
        self.storage.bytes()
    }
}

impl Sink for QuietSink {
    ghost taken = { told };

    ghost flushed = { λ _. ⊤ };

    ghost faults = { λ _. 0 };

    fn write(&mut self, piece: &[u8]) -> Result<usize, Failed>
        ensures whole { IfOk result (λ n. n ≡ length piece.now) }
        ensures never_fails { IsOk result }
        ensures bytes { WriteGrows (told self.old) (told self.new) result piece.now }
        ensures next { self.new ≡ after_store self.old piece.now }
    {
        self.storage.store(piece);
        Ok(piece.len())
    }

    fn flush(&mut self) -> Result<(), Failed>
        ensures never_fails { IsOk result }
        ensures same { self.new ≡ self.old }
    {
        Ok(())
    }
}
