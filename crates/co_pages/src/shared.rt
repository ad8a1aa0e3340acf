//! The layout of pages that keeps one map for all.
ghost use Rattle.std.specs.Prelude.{◌≡◌, ◌==◌, IfOk, refl};
ghost use Rattle.std.proofs.Common.{arith};
ghost use Rattle.k42_shapes.specs.Shapes.{shared_and_spread};
ghost use Rattle.k42_kinds.specs.declared.entry.Act.TheVariants.{Swap};
ghost use Rattle.k42_kinds.specs.declared.entry.To.TheVariants as tos;
ghost use Rattle.k42_kinds.specs.Objects.{pages_object};
ghost use Rattle.co_pages.specs.OneMap.{IsAny, IsOneMap, shared};
ghost use Rattle.co_pages.specs.SharedLaws.{shared_steps, shared_steps_all, shared_stands};

use k42_kinds::{
    Act, Kind, KindName, Layout, Op, PagesState, Reach, Reply, To, belongs_to, step_pages,
};
use k42_memory::Memory;
use k42_shapes::Shape;
use std::alloc::Global;

/// Pages in one part, which all processors use.
#[derive(Clone, Copy, Debug, PartialEq, Eq)]
pub struct SharedPages;

impl Kind for SharedPages {
    type State = PagesState;

    type Op = Op;

    type Reply = Reply;

    ghost object = { λ _. pages_object };

    fn empty(&self, alloc: Global) -> PagesState {
        PagesState::new(alloc)
    }

    fn takes(&self, op: &Op) -> bool {
        belongs_to(op, KindName::Pages)
    }

    fn step(&self, _alloc: Global, state: &mut PagesState, op: &Op) -> Result<Reply, Memory> {
        step_pages(state, op)
    }
}

/// The same pages, in a map of their own.
#[tactic(auto, using(crate::specs::Refilled::refilled))]
pub fn copied(alloc: Global, pages: &PagesState) -> Result<PagesState, Memory>
    ensures { IfOk result (λ copy. copy ≡ pages.now) }
{
    let mut copy = PagesState::new(alloc);
    for (number, page) in pages.iter() {
        copy.insert(*number, page)?;
    }
    Ok(copy)
}

impl Layout for SharedPages {
    type Part = PagesState;

    ghost shapes = { λ _. shared_and_spread };

    ghost tag_of = { λ _. 0 };

    ghost has_tag = { λ _ tag. tag == 0 };

    ghost ways = { λ _. shared };

    ghost whole = { λ _. IsOneMap };

    ghost serves = { λ _. IsAny };

    ghost admitted = { λ _ state. state };

    ghost act_of = { λ _. Swap (tos.Layout 0) };

    ghost leads = { λ _ to. to ≡ tos.Layout 0 };

    fn tag(&self) -> u32 {
        0
    }

    fn live(&self) -> u32 {
        2
    }

    fn shape(&self) -> Shape {
        Shape::One
    }

    fn with_tag(&self, _tag: u32) -> Self {
        SharedPages
    }

    fn target(&self, _to: To, _present: u32) -> Self {
        SharedPages
    }

    fn reach(&self, _op: &Op, _proc: u32, _procs: u32) -> Reach {
        Reach::One(0)
    }

    fn empty_part(&self, alloc: Global, _cell: u32, _procs: u32) -> Result<PagesState, Memory> {
        Ok(PagesState::new(alloc))
    }

    fn step_one(&self, _alloc: Global, part: &mut PagesState, op: &Op) -> Result<Reply, Memory> {
        step_pages(part, op)
    }

    fn step_all(
        &self,
        _alloc: Global,
        parts: &mut Vec<PagesState>,
        op: &Op,
    ) -> Result<Reply, Memory> {
        step_pages(&mut parts[0], op)
    }

    fn export(&self, alloc: Global, parts: &mut Vec<PagesState>) -> Result<PagesState, Memory> {
        copied(alloc, &parts[0])
    }

    fn import(
        &self,
        alloc: Global,
        state: &PagesState,
        _procs: u32,
    ) -> Result<Vec<PagesState>, Memory> {
        let mut parts = Vec::new(alloc);
        parts.push(copied(alloc, state)?)?;
        Ok(parts)
    }

    fn admit(&self, state: PagesState) -> PagesState {
        state
    }

    fn act(&self) -> Act<Op> {
        Act::Swap(To::Layout(0))
    }

    ghost steps = { λ _ procs proc row op known there takes whole. shared_steps procs row op whole };

    ghost steps_all = { λ _ procs row op known some takes whole. shared_steps_all procs row op whole };

    ghost reaches = { λ _ procs proc op known there takes. omega arith };

    ghost stands = { λ _ procs row known some whole. shared_stands procs row whole };

    ghost begins = { λ _ procs known some. record { whole = tt; empty = λ live. refl } };

    ghost imports = { λ _ procs pages known some served. record { whole = tt; back = refl } };

    ghost ends = { λ _ pages known served. refl };

    ghost admits = { λ _ before pages known live same served. tt };

    ghost swaps = { λ _ pages known number. refl };

    ghost asks = { λ _. refl };

    ghost alike = { λ _ other same. refl };

    ghost few = { λ _. omega arith };

    ghost agrees = { λ _ other same tags. record {
      ways = refl;
      whole = λ procs row whole. whole;
      served = λ pages served. served;
    } };
}
