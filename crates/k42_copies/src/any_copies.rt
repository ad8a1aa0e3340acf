//! Copies of a state in any of four shapes, as the layouts of one object.
ghost use Rattle.std.specs.Prelude.{refl};
ghost use Rattle.std.proofs.Common.{arith, sym, subst};
ghost use Rattle.k42_shapes.specs.declared.shape.Shape.{Shape};
ghost use Rattle.k42_shapes.specs.declared.shape.Shape.TheVariants.{One};
ghost use Rattle.k42_shapes.specs.Shapes.{cells_of};
ghost use Rattle.k42_kinds.specs.LayoutLaws.{StandsFor};
ghost use Rattle.k42_kinds.specs.Rows.{IsWithin};
ghost use Rattle.k42_choice.specs.Living.{IsRowOfNew};
ghost use Rattle.k42_copies.specs.Copies.{AreCopies, IsReachable, copies};
ghost use Rattle.k42_copies.specs.CopyLaws.{steps_at_reach, steps_at_all, reach_within, stand_for_state, begin_row, import_state, kept_alike};
ghost use Rattle.k42_copies.specs.Spaced.{four_shapes, number_of, number_there, numbered_shape, shape_of, spaced_agree};

use crate::replica::Replica;
use crate::replicated::Replicated;
use crate::row::row_of;
use crate::spaced::Spaced;
use k42_choice::Living;
use k42_kinds::{Kind, Reach};
use k42_memory::Memory;
use k42_shapes::Shape;
use std::alloc::Global;

/// A copy of the state in each cell, as of `Copies`, whose shape is one of four: an object is swapped from one to another
/// by its number. The type is flat, so that the check of what is called over it is short.
#[derive(Clone, Copy, Debug, PartialEq, Eq)]
pub struct AnyCopies<K> {
    pub kind: K,
    pub spaced: Spaced,
}

impl<K: Replicated> Kind for AnyCopies<K> {
    type State = K::State;

    type Op = K::Op;

    type Reply = K::Reply;

    ghost object = { λ way. K.object way.kind };

    fn empty(&self, alloc: Global) -> K::State {
        self.kind.empty(alloc)
    }

    fn takes(&self, op: &K::Op) -> bool {
        self.kind.takes(op)
    }

    fn step(&self, alloc: Global, state: &mut K::State, op: &K::Op) -> Result<K::Reply, Memory> {
        self.kind.step(alloc, state, op)
    }
}

impl<K: Replicated + Copy + Send + Sync> Living for AnyCopies<K>
where
    K::State: Replica + Send,
{
    type Part = K::State;

    ghost shapes = { λ _. four_shapes };

    ghost tag_of = { λ way. number_of way.spaced };

    ghost ways = { λ way. copies (K.object way.kind) K.reads (shape_of way.spaced) };

    ghost whole = { λ way procs. AreCopies (K.object way.kind) (shape_of way.spaced) procs };

    ghost serves = { λ way. IsReachable (K.object way.kind) };

    ghost gone = { K.gone };

    fn gone() -> K::Reply {
        K::gone()
    }

    fn tag(&self) -> u32 {
        self.spaced.number()
    }

    fn live(&self) -> u32 {
        4
    }

    #[tactic(auto, using(crate::specs::Spaced::numbered_shape))]
    fn shape(&self) -> Shape {
        self.spaced.shape()
    }

    fn with_tag(&self, tag: u32) -> Self {
        AnyCopies {
            kind: self.kind,
            spaced: Spaced::of(tag),
        }
    }

    fn reach(&self, op: &K::Op, proc: u32, procs: u32) -> Reach {
        let shape = self.spaced.shape();
        if shape.cells(procs) == 1 || K::reads(op) {
            Reach::One(shape.cell_called(proc))
        } else {
            Reach::All
        }
    }

    fn empty_part(&self, alloc: Global, _cell: u32, _procs: u32) -> Result<K::State, Memory> {
        Ok(self.kind.empty(alloc))
    }

    #[inline(always)]
    fn step_one(&self, alloc: Global, part: &mut K::State, op: &K::Op) -> Result<K::Reply, Memory> {
        self.kind.step(alloc, part, op)
    }

    fn step_all(
        &self,
        alloc: Global,
        parts: &mut Vec<K::State>,
        op: &K::Op,
    ) -> Result<K::Reply, Memory> {
        if K::spares(op) {
            let reply = self.kind.change(&mut parts[0], op);
            self.kind.change_each(&mut parts[1..], op);
            return Ok(reply);
        }
        // The new row is whole before the old one is let go, so want of memory leaves no copy behind the others.
        let mut state = parts[0].again(alloc)?;
        let reply = self.kind.step(alloc, &mut state, op)?;
        *parts = row_of(alloc, state, parts.len())?;
        Ok(reply)
    }

    fn export(&self, alloc: Global, parts: &mut Vec<K::State>) -> Result<K::State, Memory> {
        parts[0].again(alloc)
    }

    fn import(&self, alloc: Global, state: &K::State, procs: u32) -> Result<Vec<K::State>, Memory> {
        let state = state.again(alloc)?;
        row_of(alloc, state, self.spaced.shape().cells(procs) as usize)
    }

    ghost steps = { λ way procs proc row op there takes whole.
        steps_at_reach (K.object way.kind) K.reads (shape_of way.spaced) procs proc row op (K.leaves way.kind) there takes whole };

    ghost steps_all = { λ way procs row op some takes whole.
        steps_at_all (K.object way.kind) K.reads (shape_of way.spaced) procs row op some takes whole };

    ghost reaches = { λ way procs proc op there takes.
        subst (λ (shape : Shape). IsWithin (cells_of shape procs) ((copies (K.object way.kind) K.reads (shape_of way.spaced)).reach procs op proc)) (sym (numbered_shape way.spaced))
        (reach_within (K.object way.kind) K.reads (shape_of way.spaced) procs op proc there) };

    ghost stands = { λ way procs row some whole.
        subst (λ (shape : Shape). StandsFor (copies (K.object way.kind) K.reads (shape_of way.spaced)) (IsReachable (K.object way.kind)) shape procs row) (sym (numbered_shape way.spaced))
        (stand_for_state (K.object way.kind) K.reads (shape_of way.spaced) procs row whole) };

    ghost begins = { λ way procs some.
        subst (λ (shape : Shape). IsRowOfNew (K.object way.kind) (copies (K.object way.kind) K.reads (shape_of way.spaced)) (AreCopies (K.object way.kind) (shape_of way.spaced) procs) shape procs)
        (sym (numbered_shape way.spaced)) (begin_row (K.object way.kind) K.reads (shape_of way.spaced) procs some) };

    ghost imports = { λ way procs state some served.
        import_state (K.object way.kind) K.reads (shape_of way.spaced) procs state some served };

    ghost endless = { λ way. K.endless way.kind };

    ghost stays = { λ way. K.stays way.kind };

    ghost numbered = { λ way. number_there way.spaced };

    ghost few = { λ way. omega arith };

    ghost alike = { λ way other same. refl };

    ghost keeps = { λ way other state same. (kept_alike (K.object way.kind) (K.object other.kind) K.reads One same).agree.served state };

    ghost agrees = { λ way other same tags. spaced_agree (K.object way.kind) (K.object other.kind) K.reads way.spaced other.spaced same tags };
}
