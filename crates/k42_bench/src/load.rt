//! What is asked, and how often.
use co_system::Keep;
use k42_kinds::{KindName, LayoutName, Name, Op, Text};
use k42_memory::Memory;
use std::alloc::Global;

/// After so many calls a caller asks the same again.
const ROUND: u32 = 100;

/// Which operations a thread asks.
#[derive(Clone, Copy, Debug, PartialEq, Eq)]
pub enum Ops {
    /// Those at the cell of its own processor: adds, finds, reads and writes of own pages.
    Near,
    /// All of the kind in turn.
    Mix,
}

#[derive(Clone, Copy, Debug, PartialEq, Eq)]
pub struct Load {
    pub kind: KindName,
    /// The layout in which the object starts.
    pub layout: LayoutName,
    pub ops: Ops,
    /// 1 to 8.
    pub threads: u32,
    /// At least so many on each thread.
    pub calls: u32,
    /// How many calls a thread makes in one activity.
    pub block: u32,
    pub swaps: u32,
    /// Which entries the passes keep.
    pub keep: Keep,
}

/// A name of the caller's own, one of ten.
fn name_of(caller: u32, number: u32) -> Option<Name> {
    Name::of(&[b'n', b'0' + (caller % 10) as u8, b'0' + (number % 10) as u8])
}

/// A page of the caller's own, one of a hundred.
fn page_of(caller: u32, number: u32) -> u16 {
    (caller % 10 * 100 + number % 100) as u16
}

/// The same, of the pages that a spread cache has at the caller's own processor.
fn near_page_of(load: &Load, caller: u32, number: u32) -> u16 {
    (number % 100 * load.threads.min(8) + caller % 8) as u16
}

fn near(load: &Load, caller: u32, number: u32) -> Option<Op> {
    let op = match (load.kind, number % 2) {
        (KindName::Counter, _) => Op::Add(1),
        (KindName::Directory, _) => Op::Find(name_of(caller, number)?),
        (KindName::Pages, 0) => Op::Write(near_page_of(load, caller, number), Text::of(b"text")?),
        (KindName::Pages, _) => Op::Read(near_page_of(load, caller, number - 1)),
    };
    Some(op)
}

fn mix(kind: KindName, caller: u32, number: u32) -> Option<Op> {
    let op = match (kind, number % 4) {
        (KindName::Counter, 0 | 1) => Op::Add(1),
        (KindName::Counter, 2) => Op::Get,
        (KindName::Counter, _) => Op::Drain,
        (KindName::Directory, 0) => Op::Bind(name_of(caller, number)?, u64::from(number)),
        (KindName::Directory, 1) => Op::Find(name_of(caller, number - 1)?),
        (KindName::Directory, 2) => Op::Size,
        (KindName::Directory, _) => Op::Unbind(name_of(caller, number - 3)?),
        (KindName::Pages, 0) => Op::Write(page_of(caller, number), Text::of(b"text")?),
        (KindName::Pages, 1) => Op::Read(page_of(caller, number - 1)),
        (KindName::Pages, 2) => Op::Dirty,
        (KindName::Pages, _) => Op::Clean,
    };
    Some(op)
}

/// What the caller asks in its call of this number.
fn op_of(load: &Load, caller: u32, number: u32) -> Option<Op> {
    match load.ops {
        Ops::Near => near(load, caller, number),
        Ops::Mix => mix(load.kind, caller, number),
    }
}

/// What a caller asks over and over, made before it calls: what is measured is the call.
#[derive(Debug, Drop)]
pub struct Round(Vec<Op>);

impl Round {
    pub fn of(alloc: Global, load: &Load, caller: u32) -> Result<Round, Memory> {
        let mut ops = Vec::new(alloc);
        for number in 0..ROUND {
            if let Some(op) = op_of(load, caller, number) {
                ops.push(op)?;
            }
        }
        Ok(Round(ops))
    }

    /// What is asked in the call of this number.
    pub fn op(&self, number: u32) -> Option<&Op> {
        self.0.get((number % ROUND) as usize)
    }
}

/// Asks how much is in the object.
pub fn size_of(kind: KindName) -> Op {
    match kind {
        KindName::Counter => Op::Get,
        KindName::Directory => Op::Size,
        KindName::Pages => Op::Dirty,
    }
}

/// How much is in it once each thread has made its calls, where their order does not matter for it.
pub fn size_due(load: &Load) -> Option<u64> {
    let each = match (load.kind, load.ops) {
        (KindName::Counter, Ops::Near) => load.calls,
        (KindName::Directory, Ops::Near) => 0,
        (KindName::Directory, Ops::Mix) => u32::from(load.calls % 4 != 0),
        (KindName::Pages, Ops::Near) => (load.calls / 2 + load.calls % 2).min(50),
        (KindName::Counter | KindName::Pages, Ops::Mix) => return None,
    };
    Some(u64::from(load.threads).saturating_mul(u64::from(each)))
}
