//! What a layout owes the object of one thread, as laws that each layout proves.
ghost use Rattle.std.specs.Prelude.{◌≡◌, ◌<◌, ◌≤◌, ℕ, Bool, true, false, IsTrue, List, length, IfOk, OnOk, OnErr};
ghost use Rattle.k42_limits.specs.declared.TheConstants.{LIVE_LAYOUTS, PROCESSORS};
ghost use Rattle.k42_kinds.specs.declared.entry.Act.{Act};
ghost use Rattle.k42_kinds.specs.declared.entry.Reach.TheVariants.{All};
ghost use Rattle.k42_kinds.specs.declared.entry.To.{To};
ghost use Rattle.k42_shapes.specs.declared.shape.Shape.{Shape};
ghost use Rattle.k42_kinds.specs.OneThread.{OneThread};
ghost use Rattle.k42_kinds.specs.Histories.{is_call};
ghost use Rattle.k42_kinds.specs.Rows.{Ways, IsWithin};
ghost use Rattle.k42_shapes.specs.Shapes.{IsKnownTag, IsLiveTag, cells_of, is_dead_tag, shape_at};
ghost use Rattle.k42_kinds.specs.LayoutLaws.{StepsRow, StandsFor, Begins, Imports, AdmitsAsSwapped, Agree, IsTagged, IsTarget, IsReached, IsWholeRow};

use crate::entry::{Act, Reach, To};
use crate::kind::Kind;
use k42_memory::Memory;
use k42_shapes::Shape;
use std::alloc::Global;

/// A way to keep an object: as a row of parts, which several callers use.
pub trait Layout: Kind + Copy + Send + Sync {
    type Part: Drop + Send;

    /// The shapes of its object's live layouts, by their tags.
    ghost shapes: { Self → List Shape };

    /// The number of this one: the live layouts of an object are numbered from 0, and the dead one
    /// comes after them.
    ghost tag_of: { Self → ℕ };

    /// Which tags the layouts of this type have.
    ghost has_tag: { Self → ℕ → Bool };

    /// What it does with parts.
    ghost ways: { Self → Ways Self.State Self.Part Self.Op Self.Reply };

    /// Which rows of parts are lawful, by the number of processors.
    ghost whole: { Self → ℕ → List Self.Part → Type 0 };

    /// Which states it can keep.
    ghost serves: { Self → Self.State → Type 0 };

    /// The state with which it starts after a swap.
    ghost admitted: { Self → Self.State → Self.State };

    /// What is asked of an object that is to be kept so.
    ghost act_of: { Self → Act Self.Op };

    /// To what a swap of its object may lead.
    ghost leads: { Self → To → Type 0 };

    fn tag(&self) -> u32
        ensures { result ≡ tag_of self.now };

    /// How many live layouts its object has, and so the tag of the dead one.
    fn live(&self) -> u32
        ensures { result ≡ length (shapes self.now) };

    /// How the processors share the cells of its row.
    fn shape(&self) -> Shape
        ensures { result ≡ shape_at (shapes self.now) (tag_of self.now) };

    /// The layout of the same object with that tag.
    fn with_tag(&self, tag: u32) -> Self
        requires { IsTrue (has_tag self.now tag) }
        ensures { IsTagged (Self.object result) (Self.object self.now) (tag_of result) tag };

    /// The layout of the same object to which such a swap leads from the live one with this tag.
    fn target(&self, to: To, present: u32) -> Self
        requires leads { leads self.now to }
        requires live { IsLiveTag (shapes self.now) present }
        requires has { IsTrue (has_tag self.now present) }
        ensures { IsTarget (Self.object result) (Self.object self.now) (shapes result) (tag_of result) (act_of result) to };

    /// The cells that an operation needs for a caller on this processor.
    fn reach(&self, op: &Self::Op, proc: u32, procs: u32) -> Reach
        requires known { IsKnownTag (shapes self.now) (tag_of self.now) × (proc < procs) × (procs ≤ PROCESSORS) }
        requires takes { IsTrue ((Self.object self.now).takes op.now) }
        ensures { result ≡ (ways self.now).reach procs op.now proc };

    /// The part with which a row begins that was made of no other.
    fn empty_part(&self, alloc: Global, cell: u32, procs: u32) -> Result<Self::Part, Memory>
        requires known { IsKnownTag (shapes self.now) (tag_of self.now) × (cell < procs) × (procs ≤ PROCESSORS) }
        ensures { IfOk result (λ part. part ≡ (ways self.now).empty procs cell) };

    /// An operation at the one cell that it needs.
    fn step_one(
        &self,
        alloc: Global,
        part: &mut Self::Part,
        op: &Self::Op,
    ) -> Result<Self::Reply, Memory>
        requires known { IsKnownTag (shapes self.now) (tag_of self.now) }
        requires takes { IsTrue ((Self.object self.now).takes op.now) }
        requires reached { IsReached (ways self.now) (whole self.now) part.old op.now }
        ensures replied { IfOk result (λ reply. reply ≡ (ways self.now).part_reply part.old op.now) }
        ensures moved { OnOk result (part.new ≡ (ways self.now).part_after part.old op.now) }
        ensures memory { OnErr result (part.new ≡ part.old) };

    /// An operation at all cells.
    fn step_all(
        &self,
        alloc: Global,
        parts: &mut Vec<Self::Part>,
        op: &Self::Op,
    ) -> Result<Self::Reply, Memory>
        requires known { IsKnownTag (shapes self.now) (tag_of self.now) }
        requires takes { IsTrue ((Self.object self.now).takes op.now) }
        requires whole { IsWholeRow (whole self.now) parts.old.items }
        ensures replied { IfOk result (λ reply. reply ≡ (ways self.now).row_reply parts.old.items op.now) }
        ensures moved { OnOk result (parts.new.items ≡ (ways self.now).row_after parts.old.items op.now) }
        ensures memory { OnErr result (parts.new.items ≡ parts.old.items) };

    /// The state for which the parts stand. It may take them apart, but puts them together again.
    fn export(&self, alloc: Global, parts: &mut Vec<Self::Part>) -> Result<Self::State, Memory>
        requires known { IsKnownTag (shapes self.now) (tag_of self.now) }
        requires whole { IsWholeRow (whole self.now) parts.old.items }
        ensures state { IfOk result (λ state. state ≡ (ways self.now).combine parts.old.items) }
        ensures kept { parts.new.items ≡ parts.old.items };

    /// Parts that stand for the state.
    fn import(
        &self,
        alloc: Global,
        state: &Self::State,
        procs: u32,
    ) -> Result<Vec<Self::Part>, Memory>
        requires known { IsKnownTag (shapes self.now) (tag_of self.now) × (0 < procs) × (procs ≤ PROCESSORS) }
        requires served { serves self.now state.now }
        ensures { IfOk result (λ parts. parts.items ≡ (ways self.now).imported procs state.now) };

    fn admit(&self, state: Self::State) -> Self::State
        requires known { IsKnownTag (shapes self.now) (tag_of self.now) }
        ensures { result ≡ admitted self.now state };

    fn act(&self) -> Act<Self::Op>
        requires known { IsKnownTag (shapes self.now) (tag_of self.now) }
        ensures { result ≡ act_of self.now };

    /// An operation at the cells that it needs is a step of the object of one thread.
    ghost steps: { (layout : Self) (procs proc : ℕ) (parts : List Self.Part) (op : Self.Op)
        → IsKnownTag (shapes layout) (tag_of layout) → proc < procs → IsTrue ((Self.object layout).takes op)
        → whole layout procs parts
        → StepsRow (Self.object layout) (ways layout) (whole layout procs) parts op ((ways layout).reach procs op proc) };

    /// And so is every operation at all cells.
    ghost steps_all: { (layout : Self) (procs : ℕ) (parts : List Self.Part) (op : Self.Op)
        → IsKnownTag (shapes layout) (tag_of layout) → 0 < procs → IsTrue ((Self.object layout).takes op)
        → whole layout procs parts
        → StepsRow (Self.object layout) (ways layout) (whole layout procs) parts op All };

    /// The cells that an operation needs are in the row.
    ghost reaches: { (layout : Self) (procs proc : ℕ) (op : Self.Op)
        → IsKnownTag (shapes layout) (tag_of layout) → proc < procs → IsTrue ((Self.object layout).takes op)
        → IsWithin (cells_of (shape_at (shapes layout) (tag_of layout)) procs) ((ways layout).reach procs op proc) };

    /// A whole row has the cells that are due and stands for a state that the layout serves.
    ghost stands: { (layout : Self) (procs : ℕ) (parts : List Self.Part)
        → IsKnownTag (shapes layout) (tag_of layout) → 0 < procs → whole layout procs parts
        → StandsFor (ways layout) (serves layout) (shape_at (shapes layout) (tag_of layout)) procs parts };

    /// Empty parts are a row of the empty object.
    ghost begins: { (layout : Self) (procs : ℕ)
        → IsKnownTag (shapes layout) (tag_of layout) → 0 < procs
        → Begins (Self.object layout) (ways layout) (whole layout procs) (shapes layout) (tag_of layout) procs };

    /// Imported parts stand for the state that they were made of.
    ghost imports: { (layout : Self) (procs : ℕ) (state : Self.State)
        → IsKnownTag (shapes layout) (tag_of layout) → 0 < procs → serves layout state
        → Imports (ways layout) (whole layout procs) procs state };

    /// Only the dead layout serves the state of an object at its end.
    ghost ends: { (layout : Self) (state : Self.State)
        → IsKnownTag (shapes layout) (tag_of layout) → serves layout state
        → (Self.object layout).is_ended state ≡ is_dead_tag (shapes layout) (tag_of layout) };

    /// What a live layout of the object leaves is admitted to a state that this one serves.
    ghost admits: { (layout before : Self) (state : Self.State)
        → IsKnownTag (shapes layout) (tag_of layout) → IsLiveTag (shapes before) (tag_of before) → Self.object before ≡ Self.object layout
        → serves before state → serves layout (admitted layout state) };

    /// What is admitted is what a swap to this layout makes of the object of one thread.
    ghost swaps: { (layout : Self) (state : Self.State)
        → IsKnownTag (shapes layout) (tag_of layout)
        → AdmitsAsSwapped (Self.object layout) (act_of layout) state (admitted layout state) };

    /// A layout is asked for by no call.
    ghost asks: { (layout : Self) → is_call (act_of layout) ≡ false };

    /// Layouts of one object tell the same shapes.
    ghost alike: { (layout other : Self) → Self.object layout ≡ Self.object other → shapes layout ≡ shapes other };

    /// There are no more of them than have a number in a word.
    ghost few: { (layout : Self) → length (shapes layout) ≤ LIVE_LAYOUTS };

    /// Layouts of one object with one tag keep it in one way.
    ghost agrees: { (layout other : Self)
        → Self.object layout ≡ Self.object other → tag_of layout ≡ tag_of other
        → Agree (ways layout) (ways other) (whole layout) (whole other) (serves layout) (serves other) };
}
