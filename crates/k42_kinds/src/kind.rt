//! What every object of one thread offers.
ghost use Rattle.std.specs.Prelude.{◌≡◌, IsTrue, IfOk, OnErr};
ghost use Rattle.k42_kinds.specs.OneThread.{OneThread};
ghost use Rattle.k42_kinds.specs.Steps.{Steps};

use crate::packed::{Packed, PackedReply};
use k42_memory::Memory;
use std::alloc::Global;

/// An object of one thread: a state, and a step for each operation that the object takes.
pub trait Kind {
    type State: Drop;

    /// What it is asked.
    type Op: Packed + Send + Sync;

    /// What it replies to a call.
    type Reply: PackedReply + Send + Sync;

    /// The object: its first state, its steps and its end.
    ghost object: { Self → OneThread Self.State Self.Op Self.Reply };

    /// The state before the first operation. It keeps the allocator, and asks it for nothing.
    fn empty(&self, alloc: Global) -> Self::State
        ensures { result ≡ (object self.now).start };

    /// Whether the object takes the operation.
    fn takes(&self, op: &Self::Op) -> bool
        ensures { result ≡ (object self.now).takes op.now };

    /// One operation. Want of memory leaves the state.
    fn step(
        &self,
        alloc: Global,
        state: &mut Self::State,
        op: &Self::Op,
    ) -> Result<Self::Reply, Memory>
        requires { IsTrue ((object self.now).takes op.now) }
        ensures ok { IfOk result (λ replied.
            Steps (object self.now).after (object self.now).reply state.old op.now replied state.new) }
        ensures memory { OnErr result (state.new ≡ state.old) };
}
