//! A way to keep an object, as the only layout that the object has.
ghost use Rattle.std.specs.Prelude.{[], ◌∷◌};
ghost use Rattle.std.proofs.Common.{ap, arith};
ghost use Rattle.k42_shapes.specs.declared.shape.Shape.{Shape};

use crate::living::Living;
use crate::way::Way;
use k42_kinds::{Kind, Reach};
use k42_memory::Memory;
use k42_shapes::Shape;
use std::alloc::Global;

/// A way, with the number 0.
#[derive(Clone, Copy, Debug, PartialEq, Eq)]
pub struct Only<W> {
    pub way: W,
}

impl<W: Way> Kind for Only<W> {
    type State = W::State;

    type Op = W::Op;

    type Reply = W::Reply;

    ghost object = { λ only. W.object only.way };

    fn empty(&self, alloc: Global) -> W::State {
        self.way.empty(alloc)
    }

    fn takes(&self, op: &W::Op) -> bool {
        self.way.takes(op)
    }

    fn step(&self, alloc: Global, state: &mut W::State, op: &W::Op) -> Result<W::Reply, Memory> {
        self.way.step(alloc, state, op)
    }
}

impl<W: Way> Living for Only<W> {
    type Part = W::Part;

    ghost shapes = { λ only. W.shape_of only.way ∷ [] };

    ghost tag_of = { λ only. 0 };

    ghost ways = { λ only. W.ways only.way };

    ghost whole = { λ only. W.whole only.way };

    ghost serves = { λ only. W.serves only.way };

    ghost gone = { W.gone };

    fn gone() -> W::Reply {
        W::gone()
    }

    fn tag(&self) -> u32 {
        0
    }

    fn live(&self) -> u32 {
        1
    }

    fn shape(&self) -> Shape {
        self.way.shape()
    }

    fn with_tag(&self, _tag: u32) -> Self {
        Only { way: self.way }
    }

    fn reach(&self, op: &W::Op, proc: u32, procs: u32) -> Reach {
        self.way.reach(op, proc, procs)
    }

    fn empty_part(&self, alloc: Global, cell: u32, procs: u32) -> Result<W::Part, Memory> {
        self.way.empty_part(alloc, cell, procs)
    }

    #[inline(always)]
    fn step_one(&self, alloc: Global, part: &mut W::Part, op: &W::Op) -> Result<W::Reply, Memory> {
        self.way.step_one(alloc, part, op)
    }

    fn step_all(
        &self,
        alloc: Global,
        parts: &mut Vec<W::Part>,
        op: &W::Op,
    ) -> Result<W::Reply, Memory> {
        self.way.step_all(alloc, parts, op)
    }

    fn export(&self, alloc: Global, parts: &mut Vec<W::Part>) -> Result<W::State, Memory> {
        self.way.export(alloc, parts)
    }

    fn import(&self, alloc: Global, state: &W::State, procs: u32) -> Result<Vec<W::Part>, Memory> {
        self.way.import(alloc, state, procs)
    }

    ghost steps = { λ only. W.steps only.way };

    ghost steps_all = { λ only. W.steps_all only.way };

    ghost reaches = { λ only. W.reaches only.way };

    ghost stands = { λ only. W.stands only.way };

    ghost begins = { λ only. W.begins only.way };

    ghost imports = { λ only. W.imports only.way };

    ghost endless = { λ only. W.endless only.way };

    ghost stays = { λ only. W.stays only.way };

    ghost numbered = { λ only. omega arith };

    ghost few = { λ only. omega arith };

    ghost alike = { λ only other same. ap (λ (shape : Shape). shape ∷ []) (W.alike only.way other.way same).shapes };

    ghost keeps = { λ only other state same. (W.alike only.way other.way same).agree.served state };

    ghost agrees = { λ only other same tags. (W.alike only.way other.way same).agree };
}
