//! What one line can say, told apart from how it is spelled.
use k42_kinds::{KindName, LayoutName, Name, Text, To};

/// What the first word of a line begins.
#[derive(Clone, Copy, Debug, PartialEq, Eq)]
pub enum Head {
    Procs,
    Object,
    Worker,
    Begin,
    End,
    Swap,
    Destroy,
    Watch,
    Unwatch,
    /// A call of the object of that name.
    Call,
}

/// What a line says. A part of it is `None` where it is not well formed or out of its range.
#[derive(Clone, Copy, Debug, PartialEq, Eq)]
pub enum Form {
    /// The number of processors.
    Procs(Option<u32>),
    Object(Option<Name>, KindName, LayoutName),
    /// A worker on a processor.
    Worker(Option<Name>, Option<u32>),
    Begin,
    End,
    /// A call or swap line: the object of this name is asked for it.
    Asks(Option<Name>, Request),
}

/// What an object is asked for. A part of it is `None` where it is not well formed or out of its
/// range.
#[derive(Clone, Copy, Debug, PartialEq, Eq)]
pub enum Request {
    Swap(To),
    Add(Option<u32>),
    Get,
    Drain,
    Bind(Option<Name>, Option<u64>),
    Find(Option<Name>),
    Unbind(Option<Name>),
    Size,
    Write(Option<u16>, Option<Text>),
    Read(Option<u16>),
    Dirty,
    Clean,
    Seen,
}
