//! Two threads count hits, and a third has the counter gathered in one place meanwhile.
#![tactic(auto)]

use co_system::{Keep, KindName, LayoutName, Memory, Op, Pass, Plan, System, kept_as};
use k42_crews::{Work, call_once, close, start, swap_once, work_all};
use std::alloc::Global;
use std::process::ExitCode;
use std::sync::Wait;
use std::thread::Threads;

/// The number of the only object.
const HITS: u32 = 0;

struct Hits;

impl Work for Hits {
    /// The first pass swaps, and each other counts two hits.
    fn work<R: Wait>(
        &self,
        rt: &R,
        alloc: Global,
        system: &System,
        pass: &mut Pass,
    ) -> Result<(), Memory> {
        if pass.caller() == 0 {
            let shared = LayoutName::Shared.number();
            swap_once(rt, alloc, system, pass, HITS, shared).map_err(|_| Memory)?;
        } else {
            // No pass is worn so soon.
            call_once(rt, alloc, system, pass, HITS, Op::Add(1)).map_err(|_| Memory)?;
            call_once(rt, alloc, system, pass, HITS, Op::Add(1)).map_err(|_| Memory)?;
        }
        Ok(())
    }
}

/// How many entries the history of three passes over one counter has.
fn run<R: Threads + Wait + Sync>(rt: &R, alloc: Global) -> Result<usize, Memory> {
    let objects = vec![in alloc; kept_as(KindName::Counter, LayoutName::Spread)]?;
    let processors = vec![in alloc; 0u32, 0u32, 1u32]?;
    let Ok(plan) = Plan::new(2, objects, processors, Keep::All) else {
        return Ok(0);
    };
    let (system, mut passes) = start(alloc, plan)?;
    work_all(rt, alloc, &system, &Hits, passes.as_mut_slice())?;
    let history = close(alloc, system, passes)?;
    Ok(history.map_or(0, |history| history.len()))
}

fn main(rt: HostRuntime) -> ExitCode {
    match run(&rt, rt.alloc()) {
        Ok(entries) => {
            let printed = println!(rt; "entries {entries}");
            ExitCode::from(u8::from(printed.is_err()))
        }
        Err(Memory) => ExitCode::from(6),
    }
}
