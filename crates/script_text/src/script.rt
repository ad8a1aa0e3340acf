//! A script as a value: processors, objects, and the lines of each worker.
use k42_items::Items;
use k42_kinds::{Act, KindName, LayoutName, Name, Op};

/// A line that asks something of an object.
#[derive(Clone, Copy, Debug, PartialEq, Eq)]
pub struct CallLine {
    /// The number of the line in the script, from 1.
    pub line: u32,
    /// The object, by its place among the script's objects, from 0.
    pub object: u32,
    pub act: Act<Op>,
}

/// A line of a worker. The calls between `Begin` and `End` are one activity.
#[derive(Clone, Copy, Debug, PartialEq, Eq)]
pub enum Item {
    Begin,
    End,
    Line(CallLine),
}

/// An object that the script declares.
#[derive(Clone, Copy, Debug, PartialEq, Eq)]
pub struct ObjectLine {
    pub name: Name,
    pub kind: KindName,
    pub layout: LayoutName,
}

/// A worker as its line declares it.
#[derive(Clone, Copy, Debug, PartialEq, Eq)]
pub struct WorkerHead {
    pub name: Name,
    /// Its processor, from 0.
    pub proc: u32,
}

/// A worker, with its lines in their order.
#[derive(Debug, Drop)]
pub struct WorkerLines {
    pub name: Name,
    /// Its processor, from 0.
    pub proc: u32,
    pub items: Items<Item>,
}

/// What a script says: how many processors there are, which objects, and what each worker does.
#[derive(Debug, Drop)]
pub struct Script {
    pub procs: u32,
    pub objects: Items<ObjectLine>,
    pub workers: Items<WorkerLines>,
}
