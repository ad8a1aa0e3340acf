//! Two callers count hits and swap the counter, and the journal gets what they have done in three sections, between which
//! the system goes on. What is written is one record, that of `examples/journal.k42`.
#![tactic(auto)]

use co_system::{
    Act, Answer, Entry, Keep, KindName, LayoutName, Memory, Op, Pass, Plan, Reply, System, To,
    kept_as,
};
use k42_crews::{Work, call_once, end, section, start, swap_once, work_all};
use std::alloc::Global;
use std::fmt;
use std::process::ExitCode;
use std::sync::Wait;
use std::thread::Threads;

/// The number of the only object.
const HITS: u32 = 0;

/// The lines of the script that the callers answer, in their order.
const LINES: [[u32; 3]; 2] = [[5, 6, 7], [9, 10, 11]];

/// What a caller does in its turn.
#[derive(Clone, Copy)]
enum Deed {
    Call(Op),
    /// Has the counter gathered in one place.
    Gather,
    /// Has it spread over the processors.
    Spread,
}

/// Which caller does what in the next turn.
#[derive(Drop)]
struct Turn {
    caller: u32,
    deed: Deed,
}

impl Work for Turn {
    /// The caller whose turn it is calls or swaps.
    fn work<R: Wait>(
        &self,
        rt: &R,
        alloc: Global,
        system: &System,
        pass: &mut Pass,
    ) -> Result<(), Memory> {
        if pass.caller() != self.caller {
            return Ok(());
        }
        // No pass is worn so soon.
        match self.deed {
            Deed::Call(op) => {
                call_once(rt, alloc, system, pass, HITS, op).map_err(|_| Memory)?;
            }
            Deed::Gather => {
                let shared = LayoutName::Shared.number();
                swap_once(rt, alloc, system, pass, HITS, shared).map_err(|_| Memory)?;
            }
            Deed::Spread => {
                let spread = LayoutName::Spread.number();
                swap_once(rt, alloc, system, pass, HITS, spread).map_err(|_| Memory)?;
            }
        }
        Ok(())
    }
}

/// What the callers do, one after the other.
fn turns() -> [Turn; 6] {
    [
        Turn::of(0, Deed::Call(Op::Add(5))),
        Turn::of(1, Deed::Call(Op::Add(2))),
        Turn::of(0, Deed::Spread),
        Turn::of(1, Deed::Call(Op::Add(3))),
        Turn::of(0, Deed::Call(Op::Get)),
        Turn::of(1, Deed::Gather),
    ]
}

impl Turn {
    fn of(caller: u32, deed: Deed) -> Turn {
        Turn { caller, deed }
    }
}

/// An entry as a line of a record.
#[derive(Drop)]
struct Line(Entry<Op, Reply>);

impl Line {
    /// The number of the script's line that it answers.
    fn number(&self) -> u32 {
        LINES
            .get(self.0.caller as usize)
            .and_then(|lines| lines.get(self.0.index as usize))
            .map_or(0, |line| *line)
    }
}

impl fmt::Display for Line {
    fn fmt<W: fmt::Write>(&self, f: &mut fmt::Formatter<W>) -> fmt::Result {
        let Entry {
            stamp,
            incarnation,
            ..
        } = self.0;
        let worker = if self.0.caller == 0 { "a" } else { "b" };
        let number = self.number();
        write!(f, "{stamp} {worker} {number} ")?;
        match self.0.act {
            Act::Call(Op::Add(amount)) => write!(f, "hits add {amount}")?,
            Act::Swap(To::Layout(1)) => write!(f, "swap hits spread")?,
            Act::Swap(_) => write!(f, "swap hits shared")?,
            Act::Call(_) => write!(f, "hits get")?,
        }
        match self.0.answer {
            Answer::Replied(Reply::Number(number)) => write!(f, " = {number}")?,
            Answer::Swapped(number) => write!(f, " = done {number}")?,
            _ => write!(f, " = ok")?,
        }
        write!(f, " @{incarnation}")
    }
}

/// One counter under two callers, each on a processor of its own.
fn plan(alloc: Global) -> Result<Option<Plan>, Memory> {
    let objects = vec![in alloc; kept_as(KindName::Counter, LayoutName::Shared)]?;
    let processors = vec![in alloc; 0u32, 1u32]?;
    Ok(Plan::new(2, objects, processors, Keep::Sections).ok())
}

/// Writes the journal, two turns at a time, and answers whether it was written whole.
fn run<R: Threads + Wait + Sync + Print>(rt: &R, alloc: Global) -> Result<bool, Memory> {
    let Some(plan) = plan(alloc)? else {
        return Ok(false);
    };
    let (system, mut passes) = start(alloc, plan)?;
    let mut written = println!(rt; "k42 record 1").is_ok();
    let mut lines = 0;
    for (place, turn) in turns().iter().enumerate() {
        work_all(rt, alloc, &system, turn, passes.as_mut_slice())?;
        if place % 2 == 0 {
            continue;
        }
        let Some(journal) = section(alloc, &system, passes.as_mut_slice())? else {
            return Ok(false);
        };
        for entry in journal.collect(alloc)? {
            lines = entry.stamp;
            let line = Line(entry);
            written &= println!(rt; "{line}").is_ok();
        }
    }
    written &= println!(rt; "end {lines}").is_ok();
    Ok(end(system, passes) && written)
}

fn main(rt: HostRuntime) -> ExitCode {
    match run(&rt, rt.alloc()) {
        Ok(written) => ExitCode::from(u8::from(!written)),
        Err(Memory) => ExitCode::from(6),
    }
}
