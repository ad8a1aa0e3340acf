//! One way to keep an object while it lives.
ghost use Rattle.std.specs.Prelude.{◌≡◌, ◌<◌, ◌≤◌, ℕ, false, IsTrue, List, IfOk, OnOk, OnErr};
ghost use Rattle.k42_limits.specs.declared.TheConstants.{PROCESSORS};
ghost use Rattle.k42_kinds.specs.LayoutLaws.{Imports, IsReached, IsWholeRow, StandsFor, StepsRow};
ghost use Rattle.k42_kinds.specs.Rows.{IsWithin, Ways};
ghost use Rattle.k42_kinds.specs.declared.entry.Reach.TheVariants.{All};
ghost use Rattle.k42_kinds.specs.declared.entry.To.{To};
ghost use Rattle.k42_shapes.specs.Shapes.{cells_of};
ghost use Rattle.k42_shapes.specs.declared.shape.Shape.{Shape};
ghost use Rattle.k42_choice.specs.Living.{IsKeptAlike, IsRowOfNew};

use k42_kinds::{Kind, Reach};
use k42_memory::Memory;
use k42_shapes::Shape;
use std::alloc::Global;

/// A way to keep an object of one thread, as a row of parts: what the writer of an object writes, once for each way. It
/// has no number and no end: `Only` gives it a number, `Choice` puts several side by side, and `Mortal` gives them an end.
pub trait Way: Kind + Copy + Send + Sync {
    type Part: Drop + Send;

    /// How the processors share the cells of a row.
    ghost shape_of: { Self → Shape };

    /// What it does with parts.
    ghost ways: { Self → Ways Self.State Self.Part Self.Op Self.Reply };

    /// Which rows of parts are lawful, by the number of processors.
    ghost whole: { Self → ℕ → List Self.Part → Type 0 };

    /// Which states an object can be in. Each way of the object keeps them all.
    ghost serves: { Self → Self.State → Type 0 };

    /// What every call is replied once the object is at its end.
    ghost gone: { Self.Reply };

    fn gone() -> Self::Reply
        ensures { result ≡ gone };

    fn shape(&self) -> Shape
        ensures { result ≡ shape_of self.now };

    /// The cells that an operation needs for a caller on this processor.
    fn reach(&self, op: &Self::Op, proc: u32, procs: u32) -> Reach
        requires known { (proc < procs) × (procs ≤ PROCESSORS) }
        requires takes { IsTrue ((Self.object self.now).takes op.now) }
        ensures { result ≡ (ways self.now).reach procs op.now proc };

    /// The part with which a row begins that was made of no other.
    fn empty_part(&self, alloc: Global, cell: u32, procs: u32) -> Result<Self::Part, Memory>
        requires known { (cell < procs) × (procs ≤ PROCESSORS) }
        ensures { IfOk result (λ part. part ≡ (ways self.now).empty procs cell) };

    /// An operation at the one cell that it needs.
    fn step_one(
        &self,
        alloc: Global,
        part: &mut Self::Part,
        op: &Self::Op,
    ) -> Result<Self::Reply, Memory>
        requires takes { IsTrue ((Self.object self.now).takes op.now) }
        requires reached { IsReached (ways self.now) (whole self.now) part.old op.now }
        ensures replied { IfOk result (λ reply. reply ≡ (ways self.now).part_reply part.old op.now) }
        ensures moved { OnOk result (part.new ≡ (ways self.now).part_after part.old op.now) }
        ensures memory { OnErr result (part.new ≡ part.old) };

    /// An operation at all cells.
    fn step_all(
        &self,
        alloc: Global,
        parts: &mut Vec<Self::Part>,
        op: &Self::Op,
    ) -> Result<Self::Reply, Memory>
        requires takes { IsTrue ((Self.object self.now).takes op.now) }
        requires whole { IsWholeRow (whole self.now) parts.old.items }
        ensures replied { IfOk result (λ reply. reply ≡ (ways self.now).row_reply parts.old.items op.now) }
        ensures moved { OnOk result (parts.new.items ≡ (ways self.now).row_after parts.old.items op.now) }
        ensures memory { OnErr result (parts.new.items ≡ parts.old.items) };

    /// The state for which the parts stand. It may take them apart, but puts them together again.
    fn export(&self, alloc: Global, parts: &mut Vec<Self::Part>) -> Result<Self::State, Memory>
        requires whole { IsWholeRow (whole self.now) parts.old.items }
        ensures state { IfOk result (λ state. state ≡ (ways self.now).combine parts.old.items) }
        ensures kept { parts.new.items ≡ parts.old.items };

    /// Parts that stand for the state.
    fn import(
        &self,
        alloc: Global,
        state: &Self::State,
        procs: u32,
    ) -> Result<Vec<Self::Part>, Memory>
        requires known { (0 < procs) × (procs ≤ PROCESSORS) }
        requires served { serves self.now state.now }
        ensures { IfOk result (λ parts. parts.items ≡ (ways self.now).imported procs state.now) };

    /// An operation at the cells that it needs is a step of the object of one thread.
    ghost steps: { (way : Self) (procs proc : ℕ) (parts : List Self.Part) (op : Self.Op)
        → proc < procs → IsTrue ((Self.object way).takes op) → whole way procs parts
        → StepsRow (Self.object way) (ways way) (whole way procs) parts op ((ways way).reach procs op proc) };

    /// And so is every operation at all cells.
    ghost steps_all: { (way : Self) (procs : ℕ) (parts : List Self.Part) (op : Self.Op)
        → 0 < procs → IsTrue ((Self.object way).takes op) → whole way procs parts
        → StepsRow (Self.object way) (ways way) (whole way procs) parts op All };

    /// The cells that an operation needs are in the row.
    ghost reaches: { (way : Self) (procs proc : ℕ) (op : Self.Op)
        → proc < procs → IsTrue ((Self.object way).takes op)
        → IsWithin (cells_of (shape_of way) procs) ((ways way).reach procs op proc) };

    /// A whole row has the cells that are due and stands for a state in which the object can be.
    ghost stands: { (way : Self) (procs : ℕ) (parts : List Self.Part) → 0 < procs → whole way procs parts
        → StandsFor (ways way) (serves way) (shape_of way) procs parts };

    /// Empty parts are a row of the empty object.
    ghost begins: { (way : Self) (procs : ℕ) → 0 < procs
        → IsRowOfNew (Self.object way) (ways way) (whole way procs) (shape_of way) procs };

    /// Imported parts stand for the state that they were made of.
    ghost imports: { (way : Self) (procs : ℕ) (state : Self.State) → 0 < procs → serves way state
        → Imports (ways way) (whole way procs) procs state };

    /// Its object has no end of its own.
    ghost endless: { (way : Self) (state : Self.State) → (Self.object way).is_ended state ≡ false };

    /// A swap leaves the state.
    ghost stays: { (way : Self) (state : Self.State) (to : To) → (Self.object way).swapped state to ≡ state };

    /// Two of this type keep one object in one way.
    ghost alike: { (way other : Self) → Self.object way ≡ Self.object other
        → IsKeptAlike (shape_of way) (shape_of other) (ways way) (ways other) (whole way) (whole other) (serves way) (serves other) };
}
