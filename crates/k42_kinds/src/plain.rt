//! The object of one thread of any kind, against which all layouts and records are judged.
ghost use Rattle.std.specs.Prelude.{◌≡◌, IfOk, OnErr};
ghost use Rattle.k42_kinds.specs.Objects.{plain_object, state_after, reply_of, NeedsMemory};
ghost use Rattle.k42_kinds.specs.Steps.{Steps};

use crate::counter::step_counter;
use crate::directory::{DirectoryState, step_directory};
use crate::kind::Kind;
use crate::operation::{KindName, Op, Reply, belongs_to};
use crate::pages::{PagesState, step_pages};
use crate::states::AnyState;
use k42_memory::Memory;
use std::alloc::Global;

/// The plain object of one thread: it has no parts, and one caller at a time.
#[derive(Clone, Copy, Debug, PartialEq, Eq)]
pub struct Plain {
    pub kind: KindName,
}

impl Kind for Plain {
    type State = AnyState;

    type Op = Op;

    type Reply = Reply;

    ghost object = { λ plain. plain_object plain.kind };

    fn empty(&self, alloc: Global) -> AnyState {
        match self.kind {
            KindName::Counter => AnyState::Counter(0),
            KindName::Directory => AnyState::Directory(DirectoryState::new(alloc)),
            KindName::Pages => AnyState::Pages(PagesState::new(alloc)),
        }
    }

    fn takes(&self, op: &Op) -> bool {
        belongs_to(op, self.kind)
    }

    fn step(&self, _alloc: Global, state: &mut AnyState, op: &Op) -> Result<Reply, Memory>
        ensures ok { IfOk result (λ replied.
            Steps state_after reply_of state.old op.now replied state.new) }
        ensures memory { OnErr result (state.new ≡ state.old) }
        ensures needed { OnErr result (NeedsMemory state.old op.now) }
    {
        match state {
            AnyState::Counter(value) => Ok(step_counter(value, op)),
            AnyState::Directory(names) => step_directory(names, op),
            AnyState::Pages(pages) => step_pages(pages, op),
            AnyState::Dead => Ok(Reply::Gone),
        }
    }
}
