//! The layout of a counter that keeps one value for all.
ghost use Rattle.std.specs.Prelude.{◌≡◌, ◌==◌, refl};
ghost use Rattle.std.proofs.Common.{arith};
ghost use Rattle.k42_shapes.specs.Shapes.{shared_and_spread};
ghost use Rattle.k42_kinds.specs.declared.entry.Act.TheVariants.{Swap};
ghost use Rattle.k42_kinds.specs.declared.entry.To.TheVariants as tos;
ghost use Rattle.k42_kinds.specs.Objects.{counter_object};
ghost use Rattle.co_counter.specs.Counters.{IsValue, IsOneValue, shared};
ghost use Rattle.co_counter.specs.SharedLaws.{shared_steps, shared_steps_all, shared_stands};

use k42_kinds::{Act, Kind, KindName, Layout, Op, Reach, Reply, To, belongs_to, step_counter};
use k42_memory::Memory;
use k42_shapes::Shape;
use std::alloc::Global;

/// A counter in one part, which all processors use.
#[derive(Clone, Copy, Debug, PartialEq, Eq)]
pub struct SharedCounter;

impl Kind for SharedCounter {
    type State = u64;

    type Op = Op;

    type Reply = Reply;

    ghost object = { λ _. counter_object };

    fn empty(&self, _alloc: Global) -> u64 {
        0
    }

    fn takes(&self, op: &Op) -> bool {
        belongs_to(op, KindName::Counter)
    }

    fn step(&self, _alloc: Global, state: &mut u64, op: &Op) -> Result<Reply, Memory> {
        Ok(step_counter(state, op))
    }
}

impl Layout for SharedCounter {
    type Part = u64;

    ghost shapes = { λ _. shared_and_spread };

    ghost tag_of = { λ _. 0 };

    ghost has_tag = { λ _ tag. tag == 0 };

    ghost ways = { λ _. shared };

    ghost whole = { λ _. IsOneValue };

    ghost serves = { λ _. IsValue };

    ghost admitted = { λ _ state. state };

    ghost act_of = { λ _. Swap (tos.Layout 0) };

    ghost leads = { λ _ to. to ≡ tos.Layout 0 };

    fn tag(&self) -> u32 {
        0
    }

    fn live(&self) -> u32 {
        2
    }

    fn shape(&self) -> Shape {
        Shape::One
    }

    fn with_tag(&self, _tag: u32) -> Self {
        SharedCounter
    }

    fn target(&self, _to: To, _present: u32) -> Self {
        SharedCounter
    }

    fn reach(&self, _op: &Op, _proc: u32, _procs: u32) -> Reach {
        Reach::One(0)
    }

    fn empty_part(&self, _alloc: Global, _cell: u32, _procs: u32) -> Result<u64, Memory> {
        Ok(0)
    }

    #[inline(always)]
    fn step_one(&self, _alloc: Global, part: &mut u64, op: &Op) -> Result<Reply, Memory> {
        Ok(step_counter(part, op))
    }

    fn step_all(&self, _alloc: Global, parts: &mut Vec<u64>, op: &Op) -> Result<Reply, Memory> {
        Ok(step_counter(&mut parts[0], op))
    }

    fn export(&self, _alloc: Global, parts: &mut Vec<u64>) -> Result<u64, Memory> {
        Ok(parts[0])
    }

    fn import(&self, alloc: Global, state: &u64, _procs: u32) -> Result<Vec<u64>, Memory> {
        let mut parts = Vec::new(alloc);
        parts.push(*state)?;
        Ok(parts)
    }

    fn admit(&self, state: u64) -> u64 {
        state
    }

    fn act(&self) -> Act<Op> {
        Act::Swap(To::Layout(0))
    }

    ghost steps = { λ _ procs proc values op known there takes whole. shared_steps procs values op whole };

    ghost steps_all = { λ _ procs values op known some takes whole. shared_steps_all procs values op whole };

    ghost reaches = { λ _ procs proc op known there takes. omega arith };

    ghost stands = { λ _ procs values known some whole. shared_stands procs values whole };

    ghost begins = { λ _ procs known some. record { whole = omega arith; empty = λ live. refl } };

    ghost imports = { λ _ procs value known some served. record { whole = served; back = refl } };

    ghost ends = { λ _ value known served. refl };

    ghost admits = { λ _ before value known live same served. served };

    ghost swaps = { λ _ value known number. refl };

    ghost asks = { λ _. refl };

    ghost alike = { λ _ other same. refl };

    ghost few = { λ _. omega arith };

    ghost agrees = { λ _ other same tags. record {
      ways = refl;
      whole = λ procs values whole. whole;
      served = λ value served. served;
    } };
}
