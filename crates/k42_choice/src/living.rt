//! The live layouts of one object, numbered from 0.
ghost use Rattle.std.specs.Prelude.{◌≡◌, ◌<◌, ◌≤◌, ℕ, false, IsTrue, List, length, IfOk, OnOk, OnErr};
ghost use Rattle.k42_limits.specs.declared.TheConstants.{LIVE_LAYOUTS, PROCESSORS};
ghost use Rattle.k42_kinds.specs.LayoutLaws.{Agree, Imports, IsReached, IsTagged, IsWholeRow, StandsFor, StepsRow};
ghost use Rattle.k42_kinds.specs.Rows.{IsWithin, Ways};
ghost use Rattle.k42_kinds.specs.declared.entry.Reach.TheVariants.{All};
ghost use Rattle.k42_kinds.specs.declared.entry.To.{To};
ghost use Rattle.k42_shapes.specs.Shapes.{IsLiveTag, cells_of, shape_at};
ghost use Rattle.k42_shapes.specs.declared.shape.Shape.{Shape};
ghost use Rattle.k42_choice.specs.Living.{IsRowOfNew};

use k42_kinds::{Kind, Reach};
use k42_memory::Memory;
use k42_shapes::Shape;
use std::alloc::Global;

/// One of the live layouts of an object. It knows of no dead one, which `Mortal` puts behind them.
pub trait Living: Kind + Copy + Send + Sync {
    type Part: Drop + Send;

    /// The shapes of its object's layouts, by their tags.
    ghost shapes: { Self → List Shape };

    /// The number of this one.
    ghost tag_of: { Self → ℕ };

    /// What it does with parts.
    ghost ways: { Self → Ways Self.State Self.Part Self.Op Self.Reply };

    /// Which rows of parts are lawful, by the number of processors.
    ghost whole: { Self → ℕ → List Self.Part → Type 0 };

    /// Which states an object can be in. Each of its layouts keeps them all.
    ghost serves: { Self → Self.State → Type 0 };

    /// What every call is replied once the object is at its end.
    ghost gone: { Self.Reply };

    fn gone() -> Self::Reply
        ensures { result ≡ gone };

    fn tag(&self) -> u32
        ensures { result ≡ tag_of self.now };

    /// How many layouts its object has.
    fn live(&self) -> u32
        ensures { result ≡ length (shapes self.now) };

    /// How the processors share the cells of its row.
    fn shape(&self) -> Shape
        ensures { result ≡ shape_at (shapes self.now) (tag_of self.now) };

    /// The layout of the same object with that tag.
    fn with_tag(&self, tag: u32) -> Self
        requires { IsLiveTag (shapes self.now) tag }
        ensures { IsTagged (Self.object result) (Self.object self.now) (tag_of result) tag };

    /// The cells that an operation needs for a caller on this processor.
    fn reach(&self, op: &Self::Op, proc: u32, procs: u32) -> Reach
        requires known { (proc < procs) × (procs ≤ PROCESSORS) }
        requires takes { IsTrue ((Self.object self.now).takes op.now) }
        ensures { result ≡ (ways self.now).reach procs op.now proc };

    /// The part with which a row begins that was made of no other.
    fn empty_part(&self, alloc: Global, cell: u32, procs: u32) -> Result<Self::Part, Memory>
        requires known { (cell < procs) × (procs ≤ PROCESSORS) }
        ensures { IfOk result (λ part. part ≡ (ways self.now).empty procs cell) };

    /// An operation at the one cell that it needs.
    fn step_one(
        &self,
        alloc: Global,
        part: &mut Self::Part,
        op: &Self::Op,
    ) -> Result<Self::Reply, Memory>
        requires takes { IsTrue ((Self.object self.now).takes op.now) }
        requires reached { IsReached (ways self.now) (whole self.now) part.old op.now }
        ensures replied { IfOk result (λ reply. reply ≡ (ways self.now).part_reply part.old op.now) }
        ensures moved { OnOk result (part.new ≡ (ways self.now).part_after part.old op.now) }
        ensures memory { OnErr result (part.new ≡ part.old) };

    /// An operation at all cells.
    fn step_all(
        &self,
        alloc: Global,
        parts: &mut Vec<Self::Part>,
        op: &Self::Op,
    ) -> Result<Self::Reply, Memory>
        requires takes { IsTrue ((Self.object self.now).takes op.now) }
        requires whole { IsWholeRow (whole self.now) parts.old.items }
        ensures replied { IfOk result (λ reply. reply ≡ (ways self.now).row_reply parts.old.items op.now) }
        ensures moved { OnOk result (parts.new.items ≡ (ways self.now).row_after parts.old.items op.now) }
        ensures memory { OnErr result (parts.new.items ≡ parts.old.items) };

    /// The state for which the parts stand. It may take them apart, but puts them together again.
    fn export(&self, alloc: Global, parts: &mut Vec<Self::Part>) -> Result<Self::State, Memory>
        requires whole { IsWholeRow (whole self.now) parts.old.items }
        ensures state { IfOk result (λ state. state ≡ (ways self.now).combine parts.old.items) }
        ensures kept { parts.new.items ≡ parts.old.items };

    /// Parts that stand for the state.
    fn import(
        &self,
        alloc: Global,
        state: &Self::State,
        procs: u32,
    ) -> Result<Vec<Self::Part>, Memory>
        requires known { (0 < procs) × (procs ≤ PROCESSORS) }
        requires served { serves self.now state.now }
        ensures { IfOk result (λ parts. parts.items ≡ (ways self.now).imported procs state.now) };

    /// An operation at the cells that it needs is a step of the object of one thread.
    ghost steps: { (layout : Self) (procs proc : ℕ) (parts : List Self.Part) (op : Self.Op)
        → proc < procs → IsTrue ((Self.object layout).takes op) → whole layout procs parts
        → StepsRow (Self.object layout) (ways layout) (whole layout procs) parts op ((ways layout).reach procs op proc) };

    /// And so is every operation at all cells.
    ghost steps_all: { (layout : Self) (procs : ℕ) (parts : List Self.Part) (op : Self.Op)
        → 0 < procs → IsTrue ((Self.object layout).takes op) → whole layout procs parts
        → StepsRow (Self.object layout) (ways layout) (whole layout procs) parts op All };

    /// The cells that an operation needs are in the row.
    ghost reaches: { (layout : Self) (procs proc : ℕ) (op : Self.Op)
        → proc < procs → IsTrue ((Self.object layout).takes op)
        → IsWithin (cells_of (shape_at (shapes layout) (tag_of layout)) procs) ((ways layout).reach procs op proc) };

    /// A whole row has the cells that are due and stands for a state in which the object can be.
    ghost stands: { (layout : Self) (procs : ℕ) (parts : List Self.Part) → 0 < procs → whole layout procs parts
        → StandsFor (ways layout) (serves layout) (shape_at (shapes layout) (tag_of layout)) procs parts };

    /// Empty parts are a row of the empty object.
    ghost begins: { (layout : Self) (procs : ℕ) → 0 < procs
        → IsRowOfNew (Self.object layout) (ways layout) (whole layout procs) (shape_at (shapes layout) (tag_of layout)) procs };

    /// Imported parts stand for the state that they were made of.
    ghost imports: { (layout : Self) (procs : ℕ) (state : Self.State) → 0 < procs → serves layout state
        → Imports (ways layout) (whole layout procs) procs state };

    /// Its object has no end of its own.
    ghost endless: { (layout : Self) (state : Self.State) → (Self.object layout).is_ended state ≡ false };

    /// A swap leaves the state.
    ghost stays: { (layout : Self) (state : Self.State) (to : To) → (Self.object layout).swapped state to ≡ state };

    /// Its number is one of its object's.
    ghost numbered: { (layout : Self) → IsLiveTag (shapes layout) (tag_of layout) };

    /// There are no more of them than have a number in a word.
    ghost few: { (layout : Self) → length (shapes layout) ≤ LIVE_LAYOUTS };

    /// Layouts of one object tell the same shapes.
    ghost alike: { (layout other : Self) → Self.object layout ≡ Self.object other → shapes layout ≡ shapes other };

    /// And keep the same states.
    ghost keeps: { (layout other : Self) (state : Self.State) → Self.object layout ≡ Self.object other
        → serves layout state → serves other state };

    /// Those of one object with one tag keep it in one way.
    ghost agrees: { (layout other : Self)
        → Self.object layout ≡ Self.object other → tag_of layout ≡ tag_of other
        → Agree (ways layout) (ways other) (whole layout) (whole other) (serves layout) (serves other) };
}
