//! What a contract may say of a place to which bytes go.
ghost use Rattle.std.specs.Prelude.{◌≡◌, ℕ, ◌+◌, ◌-◌, ◌^◌, ◌<◌, List, Option, length, IfOk, OnOk, OnErr};
ghost use Rattle.std.specs.Io.{WritesAtMost};
ghost use Rattle.k42_io.specs.Sink.{Stays, WriteGrows};

use crate::source::Failed;

/// Where bytes go to.
pub trait Sink {
    /// The bytes taken so far, where the sink tells them. Once it stops, it tells no more.
    ghost taken: { Self → Option (List ℕ) };

    /// Nothing that was taken is held back.
    ghost flushed: { Self → Type 0 };

    /// The count of faults. It never falls.
    ghost faults: { Self → ℕ };

    /// Takes some bytes from the front of the piece, at least one where it has any.
    fn write(&mut self, piece: &[u8]) -> Result<usize, Failed>
        requires { faults self.old < 2 ^ 64 - 1 }
        ensures bound { WritesAtMost result piece.now }
        ensures progress { 0 < length piece.now → IfOk result (λ n. 0 < n) }
        ensures bytes { WriteGrows (taken self.old) (taken self.new) result piece.now }
        ensures failed { OnErr result (faults self.old < faults self.new) }
        ensures quiet { OnOk result (faults self.new ≡ faults self.old) };

    /// Passes on what the sink still holds back.
    fn flush(&mut self) -> Result<(), Failed>
        requires { faults self.old < 2 ^ 64 - 1 }
        ensures bytes { Stays (taken self.old) (taken self.new) }
        ensures done { OnOk result (flushed self.new) }
        ensures failed { OnErr result (faults self.old < faults self.new) }
        ensures quiet { OnOk result (faults self.new ≡ faults self.old) };
}
