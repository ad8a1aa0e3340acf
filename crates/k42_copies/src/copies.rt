//! The way to keep an object as copies of its state.
ghost use Rattle.k42_copies.specs.Copies.{AreCopies, IsReachable, copies};
ghost use Rattle.k42_copies.specs.CopyLaws.{steps_at_reach, steps_at_all, reach_within, stand_for_state, begin_row, import_state, kept_alike};

use crate::replica::Replica;
use crate::replicated::Replicated;
use crate::row::row_of;
use crate::spacing::Spacing;
use k42_choice::Way;
use k42_kinds::{Kind, Reach};
use k42_memory::Memory;
use k42_shapes::Shape;
use std::alloc::Global;

/// A copy of the state in each cell. A caller reads the copy in its own cell; any other operation is done at all cells, so
/// that they stay copies. Where there is one cell alone, everything is done there.
#[derive(Clone, Copy, Debug, PartialEq, Eq)]
pub struct Copies<K, S> {
    pub kind: K,
    pub spacing: S,
}

impl<K: Replicated, S: Spacing> Kind for Copies<K, S> {
    type State = K::State;

    type Op = K::Op;

    type Reply = K::Reply;

    ghost object = { λ way. K.object way.kind };

    fn empty(&self, alloc: Global) -> K::State {
        self.kind.empty(alloc)
    }

    fn takes(&self, op: &K::Op) -> bool {
        self.kind.takes(op)
    }

    fn step(&self, alloc: Global, state: &mut K::State, op: &K::Op) -> Result<K::Reply, Memory> {
        self.kind.step(alloc, state, op)
    }
}

impl<K: Replicated + Copy + Send + Sync, S: Spacing> Way for Copies<K, S>
where
    K::State: Replica + Send,
{
    type Part = K::State;

    ghost shape_of = { λ _. S.shape };

    ghost ways = { λ way. copies (K.object way.kind) K.reads S.shape };

    ghost whole = { λ way procs. AreCopies (K.object way.kind) S.shape procs };

    ghost serves = { λ way. IsReachable (K.object way.kind) };

    ghost gone = { K.gone };

    fn gone() -> K::Reply {
        K::gone()
    }

    fn shape(&self) -> Shape {
        S::shape()
    }

    fn reach(&self, op: &K::Op, proc: u32, procs: u32) -> Reach {
        let shape = S::shape();
        if shape.cells(procs) == 1 || K::reads(op) {
            Reach::One(shape.cell_called(proc))
        } else {
            Reach::All
        }
    }

    fn empty_part(&self, alloc: Global, _cell: u32, _procs: u32) -> Result<K::State, Memory> {
        Ok(self.kind.empty(alloc))
    }

    fn step_one(&self, alloc: Global, part: &mut K::State, op: &K::Op) -> Result<K::Reply, Memory> {
        self.kind.step(alloc, part, op)
    }

    fn step_all(
        &self,
        alloc: Global,
        parts: &mut Vec<K::State>,
        op: &K::Op,
    ) -> Result<K::Reply, Memory> {
        if K::spares(op) {
            let reply = self.kind.change(&mut parts[0], op);
            self.kind.change_each(&mut parts[1..], op);
            return Ok(reply);
        }
        // The new row is whole before the old one is let go, so want of memory leaves no copy behind the others.
        let mut state = parts[0].again(alloc)?;
        let reply = self.kind.step(alloc, &mut state, op)?;
        *parts = row_of(alloc, state, parts.len())?;
        Ok(reply)
    }

    fn export(&self, alloc: Global, parts: &mut Vec<K::State>) -> Result<K::State, Memory> {
        parts[0].again(alloc)
    }

    fn import(&self, alloc: Global, state: &K::State, procs: u32) -> Result<Vec<K::State>, Memory> {
        let state = state.again(alloc)?;
        row_of(alloc, state, S::shape().cells(procs) as usize)
    }

    ghost steps = { λ way procs proc row op there takes whole. steps_at_reach (K.object way.kind) K.reads S.shape procs proc row op (K.leaves way.kind) there takes whole };

    ghost steps_all = { λ way procs row op some takes whole. steps_at_all (K.object way.kind) K.reads S.shape procs row op some takes whole };

    ghost reaches = { λ way procs proc op there takes. reach_within (K.object way.kind) K.reads S.shape procs op proc there };

    ghost stands = { λ way procs row some whole. stand_for_state (K.object way.kind) K.reads S.shape procs row whole };

    ghost begins = { λ way procs some. begin_row (K.object way.kind) K.reads S.shape procs some };

    ghost imports = { λ way procs state some served. import_state (K.object way.kind) K.reads S.shape procs state some served };

    ghost endless = { λ way. K.endless way.kind };

    ghost stays = { λ way. K.stays way.kind };

    ghost alike = { λ way other same. kept_alike (K.object way.kind) (K.object other.kind) K.reads S.shape same };
}
