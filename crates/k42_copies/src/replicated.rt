//! What a kind offers so that it can be kept as copies.
ghost use Rattle.std.specs.Prelude.{◌≡◌, Bool, true, false, IsTrue, map};
ghost use Rattle.k42_kinds.specs.declared.entry.To.{To};
ghost use Rattle.k42_kinds.specs.Steps.{Steps};

use k42_kinds::Kind;

/// A kind that tells the operations that only read from those that may change the state.
pub trait Replicated: Kind {
    /// Which operations only read.
    ghost reads: { Self.Op → Bool };

    /// Which operations never want memory.
    ghost spares: { Self.Op → Bool };

    /// What every call is replied once the object is at its end.
    ghost gone: { Self.Reply };

    fn gone() -> Self::Reply
        ensures { result ≡ gone };

    fn reads(op: &Self::Op) -> bool
        ensures { result ≡ reads op.now };

    fn spares(op: &Self::Op) -> bool
        ensures { result ≡ spares op.now };

    /// An operation that never wants memory.
    fn change(&self, state: &mut Self::State, op: &Self::Op) -> Self::Reply
        requires takes { IsTrue ((Self.object self.now).takes op.now) }
        requires spared { IsTrue (spares op.now) }
        ensures { Steps (Self.object self.now).after (Self.object self.now).reply state.old op.now result state.new };

    /// An operation that never wants memory, in each copy.
    #[tactic(auto, using(crate::proofs::NextRows::next_changed))]
    fn change_each(&self, row: &mut [Self::State], op: &Self::Op)
        requires takes { IsTrue ((Self.object self.now).takes op.now) }
        requires spared { IsTrue (spares op.now) }
        ensures { row.new ≡ map (λ state. (Self.object self.now).after state op.now) row.old }
    {
        for place in 0..row.len() {
            self.change(&mut row[place], op);
        }
    }

    /// An operation that only reads leaves the state.
    ghost leaves: { (kind : Self) (state : Self.State) (op : Self.Op) → reads op ≡ true → (Self.object kind).after state op ≡ state };

    /// The object has no end of its own.
    ghost endless: { (kind : Self) (state : Self.State) → (Self.object kind).is_ended state ≡ false };

    /// A swap leaves the state.
    ghost stays: { (kind : Self) (state : Self.State) (to : To) → (Self.object kind).swapped state to ≡ state };
}
