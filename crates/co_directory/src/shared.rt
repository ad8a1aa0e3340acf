//! The layout of a directory that keeps one map for all.
ghost use Rattle.std.specs.Prelude.{◌≡◌, ◌==◌, refl};
ghost use Rattle.std.proofs.Common.{arith};
ghost use Rattle.k42_shapes.specs.Shapes.{shared_and_spread};
ghost use Rattle.k42_kinds.specs.declared.entry.Act.TheVariants.{Swap};
ghost use Rattle.k42_kinds.specs.declared.entry.To.TheVariants as tos;
ghost use Rattle.k42_kinds.specs.Objects.{directory_object};
ghost use Rattle.co_directory.specs.Directories.{IsOneMap, shared};
ghost use Rattle.co_directory.specs.SharedLaws.{shared_steps, shared_steps_all};

use crate::indexed::{IndexedNames, step_indexed};
use k42_kinds::{
    Act, DirectoryState, Kind, KindName, Layout, Op, Reach, Reply, To, belongs_to, step_directory,
};
use k42_memory::Memory;
use k42_shapes::Shape;
use std::alloc::Global;

/// A directory in one part, which all processors use.
#[derive(Clone, Copy, Debug, PartialEq, Eq)]
pub struct SharedDirectory;

impl Kind for SharedDirectory {
    type State = DirectoryState;

    type Op = Op;

    type Reply = Reply;

    ghost object = { λ _. directory_object };

    fn empty(&self, alloc: Global) -> DirectoryState {
        DirectoryState::new(alloc)
    }

    fn takes(&self, op: &Op) -> bool {
        belongs_to(op, KindName::Directory)
    }

    fn step(&self, _alloc: Global, state: &mut DirectoryState, op: &Op) -> Result<Reply, Memory> {
        step_directory(state, op)
    }
}

impl Layout for SharedDirectory {
    type Part = IndexedNames;

    ghost shapes = { λ _. shared_and_spread };

    ghost tag_of = { λ _. 0 };

    ghost has_tag = { λ _ tag. tag == 0 };

    ghost ways = { λ _. shared };

    ghost whole = { λ _. IsOneMap };

    ghost serves = { λ _ _. Unit {0} };

    ghost admitted = { λ _ state. state };

    ghost act_of = { λ _. Swap (tos.Layout 0) };

    ghost leads = { λ _ to. to ≡ tos.Layout 0 };

    fn tag(&self) -> u32 {
        0
    }

    fn live(&self) -> u32 {
        2
    }

    fn shape(&self) -> Shape {
        Shape::One
    }

    fn with_tag(&self, _tag: u32) -> Self {
        SharedDirectory
    }

    fn target(&self, _to: To, _present: u32) -> Self {
        SharedDirectory
    }

    fn reach(&self, _op: &Op, _proc: u32, _procs: u32) -> Reach {
        Reach::One(0)
    }

    fn empty_part(&self, alloc: Global, _cell: u32, _procs: u32) -> Result<IndexedNames, Memory> {
        Ok(IndexedNames::new(alloc))
    }

    fn step_one(&self, _alloc: Global, part: &mut IndexedNames, op: &Op) -> Result<Reply, Memory> {
        step_indexed(part, op)
    }

    fn step_all(
        &self,
        _alloc: Global,
        parts: &mut Vec<IndexedNames>,
        op: &Op,
    ) -> Result<Reply, Memory> {
        step_indexed(&mut parts[0], op)
    }

    fn export(
        &self,
        alloc: Global,
        parts: &mut Vec<IndexedNames>,
    ) -> Result<DirectoryState, Memory> {
        parts[0].state(alloc)
    }

    fn import(
        &self,
        alloc: Global,
        state: &DirectoryState,
        _procs: u32,
    ) -> Result<Vec<IndexedNames>, Memory> {
        let mut parts = Vec::new(alloc);
        parts.push(IndexedNames::of(alloc, state)?)?;
        Ok(parts)
    }

    fn admit(&self, state: DirectoryState) -> DirectoryState {
        state
    }

    fn act(&self) -> Act<Op> {
        Act::Swap(To::Layout(0))
    }

    ghost steps = { λ _ procs proc maps op known there takes whole. shared_steps procs maps op whole };

    ghost steps_all = { λ _ procs maps op known some takes whole. shared_steps_all procs maps op whole };

    ghost reaches = { λ _ procs proc op known there takes. omega arith };

    ghost stands = { λ _ procs maps known some whole. record { sized = whole; served = tt } };

    ghost begins = { λ _ procs known some. record { whole = refl; empty = λ live. refl } };

    ghost imports = { λ _ procs names known some served. record { whole = refl; back = refl } };

    ghost ends = { λ _ names known served. refl };

    ghost admits = { λ _ before names known live same served. tt };

    ghost swaps = { λ _ names known number. refl };

    ghost asks = { λ _. refl };

    ghost alike = { λ _ other same. refl };

    ghost few = { λ _. omega arith };

    ghost agrees = { λ _ other same tags. record {
      ways = refl;
      whole = λ procs maps whole. whole;
      served = λ names served. served;
    } };
}
