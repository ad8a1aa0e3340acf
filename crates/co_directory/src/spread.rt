//! The layout of a directory that keeps a copy for each processor.
ghost use Rattle.std.specs.Prelude.{◌≡◌, ◌==◌, refl};
ghost use Rattle.std.proofs.Common.{arith};
ghost use Rattle.k42_shapes.specs.Shapes.{shared_and_spread};
ghost use Rattle.k42_kinds.specs.declared.entry.Act.TheVariants.{Swap};
ghost use Rattle.k42_kinds.specs.declared.entry.To.TheVariants as tos;
ghost use Rattle.k42_kinds.specs.Objects.{directory_object};
ghost use Rattle.co_directory.specs.Directories.{AreCopies, spread};
ghost use Rattle.co_directory.specs.SpreadLaws.{spread_steps, spread_steps_all, spread_reaches, spread_stands, spread_begins, spread_imports};

use crate::copies::{bind_in_all, copied, copies, unbind_in_all};
use crate::indexed::reply_with;
use k42_kinds::{
    Act, DirectoryState, Kind, KindName, Layout, Op, Reach, Reply, To, belongs_to, step_directory,
};
use k42_memory::Memory;
use k42_shapes::Shape;
use std::alloc::Global;

/// A directory as a copy for each processor. A caller reads its own copy; a change is made in all.
#[derive(Clone, Copy, Debug, PartialEq, Eq)]
pub struct SpreadDirectory;

impl Kind for SpreadDirectory {
    type State = DirectoryState;

    type Op = Op;

    type Reply = Reply;

    ghost object = { λ _. directory_object };

    fn empty(&self, alloc: Global) -> DirectoryState {
        DirectoryState::new(alloc)
    }

    fn takes(&self, op: &Op) -> bool {
        belongs_to(op, KindName::Directory)
    }

    fn step(&self, _alloc: Global, state: &mut DirectoryState, op: &Op) -> Result<Reply, Memory> {
        step_directory(state, op)
    }
}

impl Layout for SpreadDirectory {
    type Part = DirectoryState;

    ghost shapes = { λ _. shared_and_spread };

    ghost tag_of = { λ _. 1 };

    ghost has_tag = { λ _ tag. tag == 1 };

    ghost ways = { λ _. spread };

    ghost whole = { λ _. AreCopies };

    ghost serves = { λ _ _. Unit {0} };

    ghost admitted = { λ _ state. state };

    ghost act_of = { λ _. Swap (tos.Layout 1) };

    ghost leads = { λ _ to. to ≡ tos.Layout 1 };

    fn tag(&self) -> u32 {
        1
    }

    fn live(&self) -> u32 {
        2
    }

    fn shape(&self) -> Shape {
        Shape::Each
    }

    fn with_tag(&self, _tag: u32) -> Self {
        SpreadDirectory
    }

    fn target(&self, _to: To, _present: u32) -> Self {
        SpreadDirectory
    }

    fn reach(&self, op: &Op, proc: u32, _procs: u32) -> Reach {
        match op {
            Op::Find(_) | Op::Size => Reach::One(proc),
            _ => Reach::All,
        }
    }

    fn empty_part(&self, alloc: Global, _cell: u32, _procs: u32) -> Result<DirectoryState, Memory> {
        Ok(DirectoryState::new(alloc))
    }

    fn step_one(
        &self,
        _alloc: Global,
        part: &mut DirectoryState,
        op: &Op,
    ) -> Result<Reply, Memory> {
        step_directory(part, op)
    }

    fn step_all(
        &self,
        _alloc: Global,
        parts: &mut Vec<DirectoryState>,
        op: &Op,
    ) -> Result<Reply, Memory> {
        match op {
            Op::Bind(name, number) => {
                if parts[0].get(name).is_some() {
                    return Ok(Reply::Taken);
                }
                bind_in_all(parts, name, *number)?;
                Ok(Reply::Done)
            }
            Op::Find(name) => Ok(reply_with(parts[0].get(name))),
            Op::Unbind(name) => {
                let found = parts[0].get(name);
                unbind_in_all(parts, name);
                Ok(reply_with(found))
            }
            Op::Size => Ok(Reply::Number(parts[0].size() as u64)),
            _ => Ok(Reply::Gone),
        }
    }

    fn export(
        &self,
        alloc: Global,
        parts: &mut Vec<DirectoryState>,
    ) -> Result<DirectoryState, Memory> {
        copied(alloc, &parts[0])
    }

    fn import(
        &self,
        alloc: Global,
        state: &DirectoryState,
        procs: u32,
    ) -> Result<Vec<DirectoryState>, Memory> {
        copies(alloc, state, procs)
    }

    fn admit(&self, state: DirectoryState) -> DirectoryState {
        state
    }

    fn act(&self) -> Act<Op> {
        Act::Swap(To::Layout(1))
    }

    ghost steps = { λ _ procs proc copies op known there takes whole. spread_steps procs proc copies op there whole };

    ghost steps_all = { λ _ procs copies op known some takes whole. spread_steps_all procs copies op some whole };

    ghost reaches = { λ _ procs proc op known there takes. spread_reaches procs proc op there };

    ghost stands = { λ _ procs copies known some whole. spread_stands procs copies whole };

    ghost begins = { λ _ procs known some. spread_begins procs some };

    ghost imports = { λ _ procs names known some served. spread_imports procs names some };

    ghost ends = { λ _ names known served. refl };

    ghost admits = { λ _ before names known live same served. tt };

    ghost swaps = { λ _ names known number. refl };

    ghost asks = { λ _. refl };

    ghost alike = { λ _ other same. refl };

    ghost few = { λ _. omega arith };

    ghost agrees = { λ _ other same tags. record {
      ways = refl;
      whole = λ procs copies whole. whole;
      served = λ names served. served;
    } };
}
