//! The layout of a counter that keeps an amount for each processor.
ghost use Rattle.std.specs.Prelude.{◌≡◌, ◌==◌, refl};
ghost use Rattle.std.proofs.Common.{arith};
ghost use Rattle.k42_shapes.specs.Shapes.{shared_and_spread};
ghost use Rattle.k42_kinds.specs.declared.entry.Act.TheVariants.{Swap};
ghost use Rattle.k42_kinds.specs.declared.entry.To.TheVariants as tos;
ghost use Rattle.k42_kinds.specs.Objects.{counter_object};
ghost use Rattle.co_counter.specs.Counters.{IsValue, HasAmounts, total_of, spread};
ghost use Rattle.co_counter.specs.SpreadLaws.{spread_steps, spread_steps_all, spread_reaches, spread_stands, spread_begins, spread_imports};

use k42_kinds::{Act, Kind, KindName, Layout, Op, Reach, Reply, To, belongs_to, step_counter};
use k42_memory::Memory;
use k42_shapes::Shape;
use std::alloc::Global;

/// A counter as an amount for each processor. Its value is their sum, modulo 2^64.
#[derive(Clone, Copy, Debug, PartialEq, Eq)]
pub struct SpreadCounter;

impl Kind for SpreadCounter {
    type State = u64;

    type Op = Op;

    type Reply = Reply;

    ghost object = { λ _. counter_object };

    fn empty(&self, _alloc: Global) -> u64 {
        0
    }

    fn takes(&self, op: &Op) -> bool {
        belongs_to(op, KindName::Counter)
    }

    fn step(&self, _alloc: Global, state: &mut u64, op: &Op) -> Result<Reply, Memory> {
        Ok(step_counter(state, op))
    }
}

/// The sum of the amounts, modulo 2^64.
fn total(amounts: &[u64]) -> u64
    ensures { result ≡ total_of amounts.now }
{
    let mut total = 0u64;
    for amount in amounts {
        total = total.wrapping_add(*amount);
    }
    total
}

impl Layout for SpreadCounter {
    type Part = u64;

    ghost shapes = { λ _. shared_and_spread };

    ghost tag_of = { λ _. 1 };

    ghost has_tag = { λ _ tag. tag == 1 };

    ghost ways = { λ _. spread };

    ghost whole = { λ _. HasAmounts };

    ghost serves = { λ _. IsValue };

    ghost admitted = { λ _ state. state };

    ghost act_of = { λ _. Swap (tos.Layout 1) };

    ghost leads = { λ _ to. to ≡ tos.Layout 1 };

    fn tag(&self) -> u32 {
        1
    }

    fn live(&self) -> u32 {
        2
    }

    fn shape(&self) -> Shape {
        Shape::Each
    }

    fn with_tag(&self, _tag: u32) -> Self {
        SpreadCounter
    }

    fn target(&self, _to: To, _present: u32) -> Self {
        SpreadCounter
    }

    fn reach(&self, op: &Op, proc: u32, _procs: u32) -> Reach {
        match op {
            Op::Add(_) => Reach::One(proc),
            _ => Reach::All,
        }
    }

    fn empty_part(&self, _alloc: Global, _cell: u32, _procs: u32) -> Result<u64, Memory> {
        Ok(0)
    }

    #[inline(always)]
    fn step_one(&self, _alloc: Global, part: &mut u64, op: &Op) -> Result<Reply, Memory> {
        Ok(step_counter(part, op))
    }

    fn step_all(&self, _alloc: Global, parts: &mut Vec<u64>, op: &Op) -> Result<Reply, Memory> {
        match op {
            Op::Add(_) => Ok(step_counter(&mut parts[0], op)),
            Op::Get => Ok(Reply::Number(total(parts))),
            Op::Drain => {
                let drained = total(parts);
                parts.fill(0);
                Ok(Reply::Number(drained))
            }
            _ => Ok(Reply::Gone),
        }
    }

    fn export(&self, _alloc: Global, parts: &mut Vec<u64>) -> Result<u64, Memory> {
        Ok(total(parts))
    }

    fn import(&self, alloc: Global, state: &u64, procs: u32) -> Result<Vec<u64>, Memory> {
        let mut parts = Vec::new(alloc);
        parts.push(*state)?;
        parts.resize(procs as usize, 0)?;
        Ok(parts)
    }

    fn admit(&self, state: u64) -> u64 {
        state
    }

    fn act(&self) -> Act<Op> {
        Act::Swap(To::Layout(1))
    }

    ghost steps = { λ _ procs proc amounts op known there takes whole. spread_steps procs proc amounts op there takes whole };

    ghost steps_all = { λ _ procs amounts op known some takes whole. spread_steps_all procs amounts op some takes whole };

    ghost reaches = { λ _ procs proc op known there takes. spread_reaches procs proc op there takes };

    ghost stands = { λ _ procs amounts known some whole. spread_stands procs amounts whole };

    ghost begins = { λ _ procs known some. spread_begins procs };

    ghost imports = { λ _ procs value known some served. spread_imports procs value some served };

    ghost ends = { λ _ value known served. refl };

    ghost admits = { λ _ before value known live same served. served };

    ghost swaps = { λ _ value known number. refl };

    ghost asks = { λ _. refl };

    ghost alike = { λ _ other same. refl };

    ghost few = { λ _. omega arith };

    ghost agrees = { λ _ other same tags. record {
      ways = refl;
      whole = λ procs amounts whole. whole;
      served = λ value served. served;
    } };
}
