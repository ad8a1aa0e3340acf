//! A layout with a cell for each processor, with a cell for each group of them.
ghost use Rattle.std.specs.Prelude.{refl};
ghost use Rattle.std.proofs.Common.{arith};
ghost use Rattle.k42_shapes.specs.Shapes.{cells_of, cell_called};
ghost use Rattle.co_groups.specs.Grouped.{living, grouped, IsGrouped};
ghost use Rattle.co_groups.specs.GroupedLaws as laws;

use crate::spread::Spread;
use k42_choice::Way;
use k42_copies::Spacing;
use k42_kinds::{Kind, Reach};
use k42_memory::Memory;
use k42_shapes::Shape;
use std::alloc::Global;

/// The row of the layout for as many processors as the shape has cells. A caller calls as the processor whose number is
/// that of its cell.
#[derive(Clone, Copy, Debug, PartialEq, Eq)]
pub struct Grouped<L, S> {
    pub layout: L,
    pub spacing: S,
}

impl<L: Spread, S: Spacing> Kind for Grouped<L, S> {
    type State = L::State;

    type Op = L::Op;

    type Reply = L::Reply;

    ghost object = { λ way. living (L.object way.layout) };

    fn empty(&self, alloc: Global) -> L::State {
        self.layout.empty(alloc)
    }

    fn takes(&self, op: &L::Op) -> bool {
        self.layout.takes(op)
    }

    fn step(&self, alloc: Global, state: &mut L::State, op: &L::Op) -> Result<L::Reply, Memory> {
        self.layout.step(alloc, state, op)
    }
}

impl<L: Spread, S: Spacing> Way for Grouped<L, S> {
    type Part = L::Part;

    ghost shape_of = { λ _. S.shape };

    ghost ways = { λ way. grouped S.shape (L.ways way.layout) };

    ghost whole = { λ way. IsGrouped S.shape (L.whole way.layout) };

    ghost serves = { λ way. L.serves way.layout };

    ghost gone = { L.gone };

    fn gone() -> L::Reply {
        L::gone()
    }

    fn shape(&self) -> Shape {
        S::shape()
    }

    fn reach(&self, op: &L::Op, proc: u32, procs: u32) -> Reach {
        let shape = S::shape();
        self.layout
            .reach(op, shape.cell_called(proc), shape.cells(procs))
    }

    fn empty_part(&self, alloc: Global, cell: u32, procs: u32) -> Result<L::Part, Memory> {
        let cells = S::shape().cells(procs);
        self.layout.empty_part(alloc, cell % cells, cells)
    }

    #[inline(always)]
    #[tactic(auto, using(crate::proofs::ReachedParts::reached_there))]
    fn step_one(&self, alloc: Global, part: &mut L::Part, op: &L::Op) -> Result<L::Reply, Memory> {
        self.layout.step_one(alloc, part, op)
    }

    fn step_all(
        &self,
        alloc: Global,
        parts: &mut Vec<L::Part>,
        op: &L::Op,
    ) -> Result<L::Reply, Memory> {
        self.layout.step_all(alloc, parts, op)
    }

    fn export(&self, alloc: Global, parts: &mut Vec<L::Part>) -> Result<L::State, Memory> {
        self.layout.export(alloc, parts)
    }

    fn import(&self, alloc: Global, state: &L::State, procs: u32) -> Result<Vec<L::Part>, Memory> {
        self.layout.import(alloc, state, S::shape().cells(procs))
    }

    ghost steps = { λ way procs proc parts op there takes whole.
        laws.grouped_steps (L.ways way.layout) S.shape procs (L.whole way.layout) (L.object way.layout) proc parts op there
        (λ within. L.steps way.layout (cells_of S.shape procs) (cell_called S.shape proc) parts op
        (omega (arith, L.numbered way.layout)) within takes whole) };

    ghost steps_all = { λ way procs parts op some takes whole.
        laws.grouped_steps_all (L.ways way.layout) S.shape procs (L.whole way.layout) (L.object way.layout) parts op some
        (λ cells. L.steps_all way.layout (cells_of S.shape procs) parts op
        (omega (arith, L.numbered way.layout)) cells takes whole) };

    ghost reaches = { λ way procs proc op there takes.
        laws.grouped_reaches (L.ways way.layout) S.shape procs proc op (L.each way.layout) there
        (λ within. L.reaches way.layout (cells_of S.shape procs) (cell_called S.shape proc) op
        (omega (arith, L.numbered way.layout)) within takes) };

    ghost stands = { λ way procs parts some whole.
        laws.grouped_stands (L.ways way.layout) S.shape procs (L.serves way.layout) parts (L.each way.layout) some
        (λ cells. L.stands way.layout (cells_of S.shape procs) parts
        (omega (arith, L.numbered way.layout)) cells whole) };

    ghost begins = { λ way procs some.
        laws.grouped_begins (L.ways way.layout) S.shape procs (L.whole way.layout) (L.object way.layout)
        (L.shapes way.layout) (L.tag_of way.layout) (L.each way.layout) (L.numbered way.layout) some
        (λ cells. L.begins way.layout (cells_of S.shape procs) (omega (arith, L.numbered way.layout)) cells) };

    ghost imports = { λ way procs state some served.
        laws.grouped_imports (L.ways way.layout) S.shape procs (L.whole way.layout) state some
        (λ cells. L.imports way.layout (cells_of S.shape procs) state
        (omega (arith, L.numbered way.layout)) cells served) };

    ghost endless = { λ way state. refl };

    ghost stays = { λ way state to. refl };

    ghost alike = { λ way other same.
        laws.grouped_alike S.shape (L.ways way.layout) (L.ways other.layout) (L.whole way.layout) (L.whole other.layout)
        (L.serves way.layout) (L.serves other.layout) (L.agrees way.layout other.layout
        (L.one_end way.layout other.layout same) (L.one_tag way.layout other.layout)) };
}
