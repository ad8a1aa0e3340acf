//! A layout of the counter that may balk at what it is to import.
ghost use Rattle.std.specs.Prelude.{◌≡◌, refl, nat_le};
ghost use Rattle.std.proofs.Common.{arith};
ghost use Rattle.k42_shapes.specs.Shapes.{shared_and_spread};
ghost use Rattle.k42_kinds.specs.declared.operation.KindName.TheVariants as kinds;
ghost use Rattle.k42_kinds.specs.Objects.{plain_object};
ghost use Rattle.co_any.specs.Layouts.{ways_of, whole_of, serves_of, admitted_of, act_of, LeadsAny};
ghost use Rattle.co_any.specs.AnyLaws.{any_steps, any_steps_all, any_reaches, any_stands, any_begins, any_imports, any_ends, any_admits, any_swaps, any_asks, any_agrees};

use co_any::{AnyLayout, AnyPart, AnyState};
use k42_kinds::{Act, Kind, KindName, Layout, Op, Reach, Reply, To};
use k42_memory::Memory;
use k42_shapes::Shape;
use std::alloc::Global;

/// The counter's layout of that tag. Where it is to refuse, its import is answered by want of memory.
#[derive(Clone, Copy)]
pub(super) struct Balky {
    pub tag: u32,
    pub refuse: bool,
}

impl Balky {
    /// The layout of that tag that does not balk.
    fn counter(&self) -> AnyLayout
        ensures kind { result.kind ≡ kinds.Counter }
        ensures tag { result.tag ≡ self.now.tag }
    {
        AnyLayout {
            kind: KindName::Counter,
            tag: self.tag,
        }
    }
}

impl Kind for Balky {
    type State = AnyState;

    type Op = Op;

    type Reply = Reply;

    ghost object = { λ _. plain_object kinds.Counter };

    fn empty(&self, alloc: Global) -> AnyState {
        self.counter().empty(alloc)
    }

    fn takes(&self, op: &Op) -> bool {
        self.counter().takes(op)
    }

    fn step(&self, alloc: Global, state: &mut AnyState, op: &Op) -> Result<Reply, Memory> {
        self.counter().step(alloc, state, op)
    }
}

impl Layout for Balky {
    type Part = AnyPart;

    ghost shapes = { λ _. shared_and_spread };

    ghost tag_of = { λ layout. layout.tag };

    ghost has_tag = { λ _ tag. nat_le tag 2 };

    ghost ways = { λ layout. ways_of kinds.Counter layout.tag };

    ghost whole = { λ layout. whole_of kinds.Counter layout.tag };

    ghost serves = { λ layout. serves_of kinds.Counter layout.tag };

    ghost admitted = { λ layout. admitted_of layout.tag };

    ghost act_of = { λ layout. act_of layout.tag };

    ghost leads = { λ _. LeadsAny };

    fn tag(&self) -> u32 {
        self.tag
    }

    fn live(&self) -> u32 {
        self.counter().live()
    }

    fn shape(&self) -> Shape {
        self.counter().shape()
    }

    fn with_tag(&self, tag: u32) -> Self {
        Balky {
            tag,
            refuse: self.refuse,
        }
    }

    fn target(&self, to: To, present: u32) -> Self {
        Balky {
            tag: self.counter().target(to, present).tag,
            refuse: self.refuse,
        }
    }

    fn reach(&self, op: &Op, proc: u32, procs: u32) -> Reach {
        self.counter().reach(op, proc, procs)
    }

    fn empty_part(&self, alloc: Global, cell: u32, procs: u32) -> Result<AnyPart, Memory> {
        self.counter().empty_part(alloc, cell, procs)
    }

    fn step_one(&self, alloc: Global, part: &mut AnyPart, op: &Op) -> Result<Reply, Memory> {
        self.counter().step_one(alloc, part, op)
    }

    fn step_all(&self, alloc: Global, parts: &mut Vec<AnyPart>, op: &Op) -> Result<Reply, Memory> {
        self.counter().step_all(alloc, parts, op)
    }

    fn export(&self, alloc: Global, parts: &mut Vec<AnyPart>) -> Result<AnyState, Memory> {
        self.counter().export(alloc, parts)
    }

    fn import(&self, alloc: Global, state: &AnyState, procs: u32) -> Result<Vec<AnyPart>, Memory> {
        if self.refuse {
            return Err(Memory);
        }
        self.counter().import(alloc, state, procs)
    }

    fn admit(&self, state: AnyState) -> AnyState {
        self.counter().admit(state)
    }

    fn act(&self) -> Act<Op> {
        self.counter().act()
    }

    ghost steps = { λ layout procs proc row op known there takes whole. any_steps kinds.Counter layout.tag procs proc row op known there takes whole };

    ghost steps_all = { λ layout procs row op known some takes whole. any_steps_all kinds.Counter layout.tag procs row op known some takes whole };

    ghost reaches = { λ layout procs proc op known there takes. any_reaches kinds.Counter layout.tag procs proc op known there takes };

    ghost stands = { λ layout procs row known some whole. any_stands kinds.Counter layout.tag procs row known some whole };

    ghost begins = { λ layout procs known some. any_begins kinds.Counter layout.tag procs known some };

    ghost imports = { λ layout procs state known some served. any_imports kinds.Counter layout.tag procs state known some served };

    ghost ends = { λ layout state known served. any_ends kinds.Counter layout.tag state known served };

    ghost admits = { λ layout before state known live same served. any_admits kinds.Counter kinds.Counter layout.tag before.tag state live same served };

    ghost swaps = { λ layout state known. any_swaps kinds.Counter layout.tag state };

    ghost asks = { λ layout. any_asks layout.tag };

    ghost alike = { λ layout other same. refl };

    ghost few = { λ _. omega arith };

    ghost agrees = { λ layout other same tags. any_agrees kinds.Counter kinds.Counter layout.tag other.tag same tags };
}
