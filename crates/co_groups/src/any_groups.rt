//! Groups of any of four widths, as the layouts of one object.
ghost use Rattle.std.specs.Prelude.{refl};
ghost use Rattle.std.proofs.Common.{arith, sym, subst};
ghost use Rattle.k42_shapes.specs.declared.shape.Shape.{Shape};
ghost use Rattle.k42_shapes.specs.Shapes.{cells_of, cell_called};
ghost use Rattle.k42_kinds.specs.LayoutLaws.{StandsFor};
ghost use Rattle.k42_kinds.specs.Rows.{IsWithin};
ghost use Rattle.k42_choice.specs.Living.{IsRowOfNew};
ghost use Rattle.k42_copies.specs.Spaced.{four_shapes, number_of, number_there, numbered_shape, shape_of};
ghost use Rattle.co_groups.specs.Grouped.{living, grouped, IsGrouped};
ghost use Rattle.co_groups.specs.GroupedLaws as laws;
ghost use Rattle.co_groups.specs.SpacedGroups.{spaced_groups};

use crate::spread::Spread;
use k42_choice::Living;
use k42_copies::Spaced;
use k42_kinds::{Kind, Reach};
use k42_memory::Memory;
use k42_shapes::Shape;
use std::alloc::Global;

/// The parts of the layout as of `Grouped`, whose shape is one of four: an object is swapped from one to another by its
/// number. The type is flat, so that the check of what is called over it is short.
#[derive(Clone, Copy, Debug, PartialEq, Eq)]
pub struct AnyGroups<L> {
    pub layout: L,
    pub spaced: Spaced,
}

impl<L: Spread> Kind for AnyGroups<L> {
    type State = L::State;

    type Op = L::Op;

    type Reply = L::Reply;

    ghost object = { λ way. living (L.object way.layout) };

    fn empty(&self, alloc: Global) -> L::State {
        self.layout.empty(alloc)
    }

    fn takes(&self, op: &L::Op) -> bool {
        self.layout.takes(op)
    }

    fn step(&self, alloc: Global, state: &mut L::State, op: &L::Op) -> Result<L::Reply, Memory> {
        self.layout.step(alloc, state, op)
    }
}

impl<L: Spread> Living for AnyGroups<L> {
    type Part = L::Part;

    ghost shapes = { λ _. four_shapes };

    ghost tag_of = { λ way. number_of way.spaced };

    ghost ways = { λ way. grouped (shape_of way.spaced) (L.ways way.layout) };

    ghost whole = { λ way. IsGrouped (shape_of way.spaced) (L.whole way.layout) };

    ghost serves = { λ way. L.serves way.layout };

    ghost gone = { L.gone };

    fn gone() -> L::Reply {
        L::gone()
    }

    fn tag(&self) -> u32 {
        self.spaced.number()
    }

    fn live(&self) -> u32 {
        4
    }

    #[tactic(auto, using(k42_copies::specs::Spaced::numbered_shape))]
    fn shape(&self) -> Shape {
        self.spaced.shape()
    }

    fn with_tag(&self, tag: u32) -> Self {
        AnyGroups {
            layout: self.layout,
            spaced: Spaced::of(tag),
        }
    }

    fn reach(&self, op: &L::Op, proc: u32, procs: u32) -> Reach {
        let shape = self.spaced.shape();
        self.layout
            .reach(op, shape.cell_called(proc), shape.cells(procs))
    }

    fn empty_part(&self, alloc: Global, cell: u32, procs: u32) -> Result<L::Part, Memory> {
        let cells = self.spaced.shape().cells(procs);
        self.layout.empty_part(alloc, cell % cells, cells)
    }

    #[inline(always)]
    #[tactic(auto, using(crate::proofs::ReachedParts::reached_there))]
    fn step_one(&self, alloc: Global, part: &mut L::Part, op: &L::Op) -> Result<L::Reply, Memory> {
        self.layout.step_one(alloc, part, op)
    }

    fn step_all(
        &self,
        alloc: Global,
        parts: &mut Vec<L::Part>,
        op: &L::Op,
    ) -> Result<L::Reply, Memory> {
        self.layout.step_all(alloc, parts, op)
    }

    fn export(&self, alloc: Global, parts: &mut Vec<L::Part>) -> Result<L::State, Memory> {
        self.layout.export(alloc, parts)
    }

    fn import(&self, alloc: Global, state: &L::State, procs: u32) -> Result<Vec<L::Part>, Memory> {
        self.layout
            .import(alloc, state, self.spaced.shape().cells(procs))
    }

    ghost steps = { λ way procs proc parts op there takes whole.
        laws.grouped_steps (L.ways way.layout) (shape_of way.spaced) procs (L.whole way.layout) (L.object way.layout) proc parts op there
        (λ within. L.steps way.layout (cells_of (shape_of way.spaced) procs) (cell_called (shape_of way.spaced) proc) parts op
        (omega (arith, L.numbered way.layout)) within takes whole) };

    ghost steps_all = { λ way procs parts op some takes whole.
        laws.grouped_steps_all (L.ways way.layout) (shape_of way.spaced) procs (L.whole way.layout) (L.object way.layout) parts op some
        (λ cells. L.steps_all way.layout (cells_of (shape_of way.spaced) procs) parts op
        (omega (arith, L.numbered way.layout)) cells takes whole) };

    ghost reaches = { λ way procs proc op there takes.
        subst (λ (shape : Shape). IsWithin (cells_of shape procs) ((grouped (shape_of way.spaced) (L.ways way.layout)).reach procs op proc)) (sym (numbered_shape way.spaced))
        (laws.grouped_reaches (L.ways way.layout) (shape_of way.spaced) procs proc op (L.each way.layout) there
        (λ within. L.reaches way.layout (cells_of (shape_of way.spaced) procs) (cell_called (shape_of way.spaced) proc) op
        (omega (arith, L.numbered way.layout)) within takes)) };

    ghost stands = { λ way procs parts some whole.
        subst (λ (shape : Shape). StandsFor (grouped (shape_of way.spaced) (L.ways way.layout)) (L.serves way.layout) shape procs parts) (sym (numbered_shape way.spaced))
        (laws.grouped_stands (L.ways way.layout) (shape_of way.spaced) procs (L.serves way.layout) parts (L.each way.layout) some
        (λ cells. L.stands way.layout (cells_of (shape_of way.spaced) procs) parts
        (omega (arith, L.numbered way.layout)) cells whole)) };

    ghost begins = { λ way procs some.
        subst (λ (shape : Shape). IsRowOfNew (living (L.object way.layout)) (grouped (shape_of way.spaced) (L.ways way.layout))
        (IsGrouped (shape_of way.spaced) (L.whole way.layout) procs) shape procs) (sym (numbered_shape way.spaced))
        (laws.grouped_begins (L.ways way.layout) (shape_of way.spaced) procs (L.whole way.layout) (L.object way.layout)
        (L.shapes way.layout) (L.tag_of way.layout) (L.each way.layout) (L.numbered way.layout) some
        (λ cells. L.begins way.layout (cells_of (shape_of way.spaced) procs) (omega (arith, L.numbered way.layout)) cells)) };

    ghost imports = { λ way procs state some served.
        laws.grouped_imports (L.ways way.layout) (shape_of way.spaced) procs (L.whole way.layout) state some
        (λ cells. L.imports way.layout (cells_of (shape_of way.spaced) procs) state
        (omega (arith, L.numbered way.layout)) cells served) };

    ghost endless = { λ way state. refl };

    ghost stays = { λ way state to. refl };

    ghost numbered = { λ way. number_there way.spaced };

    ghost few = { λ way. omega arith };

    ghost alike = { λ way other same. refl };

    ghost keeps = { λ way other state same.
        (L.agrees way.layout other.layout (L.one_end way.layout other.layout same) (L.one_tag way.layout other.layout)).served state };

    ghost agrees = { λ way other same tags.
        spaced_groups way.spaced other.spaced (L.ways way.layout) (L.ways other.layout) (L.whole way.layout) (L.whole other.layout)
        (L.serves way.layout) (L.serves other.layout) tags
        (L.agrees way.layout other.layout (L.one_end way.layout other.layout same) (L.one_tag way.layout other.layout)) };
}
