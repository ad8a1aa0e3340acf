//! A sink for tests, which can be told when to fail.
ghost use Rattle.std.specs.Prelude.{◌≡◌, ◌-◌, ◌^◌, ◌<◌, ◌↔◌, ⊤, min, length, take, Contains, IsOk, IsErr, IfOk, OnOk, OnErr};
ghost use Rattle.std.specs.Io.{WritesAtMost};
ghost use Rattle.k42_io.specs.Schedule.{next_number};
ghost use Rattle.k42_io.specs.Sink.{Stays, WriteGrows};
ghost use Rattle.k42_io.specs.Storage.{told};
ghost use Rattle.k42_io.specs.MemSink.{new_intake, after_write, after_failed_write};

use crate::schedule::Schedule;
use crate::sink::Sink;
use crate::source::Failed;
use crate::storage::Storage;
use k42_memory::Memory;
use std::alloc::Global;
use std::marker::Model;

/// A sink over memory that takes at most a piece at each write, and fails at chosen writes.
#[derive(Debug, Drop)]
pub struct MemSink {
    storage: Storage,
    piece: usize,
    writes: Schedule,
}

impl Model for MemSink {
    ghost use Rattle.std.specs.Prelude.{◌<◌};
    ghost use Rattle.k42_io.specs.MemSink.{Intake};

    ghost Value = { Intake };

    ghost view = { λ s. record { shelf = s.storage; piece = s.piece; writes = s.writes } };

    ghost invariant = { λ s. 0 < s.piece };
}

impl MemSink {
    /// `failing` has the numbers of the writes that fail, counted from 1, in any order.
    pub fn new(alloc: Global, room: usize, piece: usize, failing: Vec<u64>) -> Result<Self, Memory>
        requires { 0 < piece }
        ensures { IfOk result (λ sink. sink ≡ new_intake room piece failing.items) }
    {
        Ok(MemSink {
            storage: Storage::new(alloc, room)?,
            piece,
            writes: Schedule::new(failing),
        })
    }

    /// The stored bytes: the first that were written, as far as the room went.
    pub fn taken(&self) -> &[u8]
        ensures { result.now ≡ self.now.shelf.stored }
    {
        self.storage.bytes()
    }
}

impl Sink for MemSink {
    ghost taken = { λ s. told s.shelf };

    ghost flushed = { λ _. ⊤ };

    ghost faults = { λ s. s.writes.faults };

    fn write(&mut self, piece: &[u8]) -> Result<usize, Failed>
        requires { self.old.writes.faults < 2 ^ 64 - 1 }
        ensures bound { WritesAtMost result piece.now }
        ensures progress { 0 < length piece.now → IfOk result (λ n. 0 < n) }
        ensures bytes { WriteGrows (told self.old.shelf) (told self.new.shelf) result piece.now }
        ensures failed { OnErr result (self.old.writes.faults < self.new.writes.faults) }
        ensures quiet { OnOk result (self.new.writes.faults ≡ self.old.writes.faults) }

        // Which writes fail, and what each of the others takes.
        ensures fails { IsErr result ↔ Contains self.old.writes.failing (next_number self.old.writes) }
        ensures count { IfOk result (λ n. n ≡ min (length piece.now) self.old.piece) }
        ensures ok { IfOk result (λ n. self.new ≡ after_write self.old (take n piece.now)) }
        ensures err { OnErr result (self.new ≡ after_failed_write self.old) }
    {
        self.writes.next_call()?;
        let count = piece.len().min(self.piece);
        self.storage.store(&piece[..count]);
        Ok(count)
    }

    fn flush(&mut self) -> Result<(), Failed>
        ensures never_fails { IsOk result }
        ensures same { self.new ≡ self.old }
    {
        Ok(())
    }
}
