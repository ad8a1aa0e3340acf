//! Every operation of every kind, and every reply.
ghost use Rattle.std.specs.Prelude.{◌≡◌};
ghost use Rattle.k42_kinds.specs.Operations.{kind_of_op, layout_number, takes_operation};

use crate::name::Name;
use crate::text::Text;

/// The three kinds of object.
#[derive(Clone, Copy, Debug, PartialEq, Eq)]
pub enum KindName {
    Counter,
    Directory,
    Pages,
}

/// How an object is kept: by one representative for all processors, or by one for each.
#[derive(Clone, Copy, Debug, PartialEq, Eq)]
pub enum LayoutName {
    Shared,
    Spread,
}

impl LayoutName {
    /// The number of that layout among those of its object.
    pub fn number(self) -> u8
        ensures { result ≡ layout_number self }
    {
        match self {
            LayoutName::Shared => 0,
            LayoutName::Spread => 1,
        }
    }
}

/// An operation of an object, with its arguments. A script numbers pages from 0 to 1,023.
#[derive(Clone, Copy, Debug, PartialEq, Eq)]
pub enum Op {
    Add(u32),
    Get,
    Drain,
    Bind(Name, u64),
    Find(Name),
    Unbind(Name),
    Size,
    Write(u16, Text),
    Read(u16),
    Dirty,
    Clean,
    /// How many calls the layer round the object has counted. It belongs to no kind, and is taken by
    /// every object that can be watched.
    Seen,
}

/// What an operation is answered with.
#[derive(Clone, Copy, Debug, PartialEq, Eq)]
pub enum Reply {
    Done,
    Taken,
    None,
    Number(u64),
    Text(Text),
    Zero,
    Gone,
}

/// The kind to which the operation belongs; `None` for `Seen`.
pub fn kind_of(op: &Op) -> Option<KindName>
    ensures { result ≡ kind_of_op op.now }
{
    match op {
        Op::Add(_) | Op::Get | Op::Drain => Some(KindName::Counter),
        Op::Bind(_, _) | Op::Find(_) | Op::Unbind(_) | Op::Size => Some(KindName::Directory),
        Op::Write(_, _) | Op::Read(_) | Op::Dirty | Op::Clean => Some(KindName::Pages),
        Op::Seen => None,
    }
}

/// Whether the operation belongs to this kind.
pub fn belongs_to(op: &Op, kind: KindName) -> bool
    ensures { result ≡ takes_operation kind op.now }
{
    match kind_of(op) {
        Some(own) => own == kind,
        None => false,
    }
}
