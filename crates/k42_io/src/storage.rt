//! Where the fakes keep what was written to them.
ghost use Rattle.std.specs.Prelude.{◌≡◌, IfOk};
ghost use Rattle.k42_io.specs.Storage.{empty_shelf, after_store, told};
ghost use Rattle.k42_io.specs.Sink.{Grows};

use k42_memory::Memory;
use std::alloc::Global;
use std::marker::Model;

/// The bytes that a sink over memory stores, up to its room, and how many there were.
#[derive(Debug, Drop)]
pub struct Storage {
    stored: Vec<u8>,
    room: usize,
    written: usize,
}

impl Model for Storage {
    ghost use Rattle.std.specs.Prelude.{◌≡◌, ◌≤◌, min, vec_len, vec_capacity};
    ghost use Rattle.k42_io.specs.Storage.{Shelf};

    ghost Value = { Shelf };

    ghost view = { λ s. record { room = s.room; stored = s.stored.items; written = s.written } };

    ghost invariant = { λ s.
        (s.room ≤ vec_capacity s.stored) × (vec_len s.stored ≡ min s.written s.room) };
}

impl Storage {
    pub fn new(alloc: Global, room: usize) -> Result<Self, Memory>
        ensures { IfOk result (λ storage. storage ≡ empty_shelf room) }
    {
        Ok(Storage {
            stored: Vec::with_capacity(alloc, room)?,
            room,
            written: 0,
        })
    }

    /// Stores what there is room for, and counts the rest.
    #[tactic(auto, using(crate::proofs::Rooms::take_room))]
    pub fn store(&mut self, bytes: &[u8])
        ensures next { self.new ≡ after_store self.old bytes.now }
        ensures tells { Grows (told self.old) (told self.new) bytes.now }
    {
        let free = self.room - self.stored.len();
        let kept = free.min(bytes.len());
        self.stored.extend_from_slice(&bytes[..kept]).unwrap();
        self.written = self.written.saturating_add(bytes.len());
    }

    pub fn bytes(&self) -> &[u8]
        ensures { result.now ≡ self.now.stored }
    {
        self.stored.as_slice()
    }
}
