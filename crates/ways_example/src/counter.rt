//! The value of one counter.
ghost use Rattle.std.specs.Prelude.{◌<◌, ◌≤◌};

mod crew;

use crate::ends::{ask, begin, end};
use crate::questions::Value;
use crate::turns::Turns;
use co_counter::SpreadCounter;
use co_groups::AnyGroups;
use crew::work_all;
use k42_choice::Mortal;
use k42_copies::Spaced;
use k42_kinds::Op;
use k42_memory::Memory;
use std::alloc::Global;
use std::sync::Wait;
use std::thread::Threads;

/// What a counter is in the end to which four threads add, while a fifth has it kept in one way after another, and how
/// many entries the history has.
pub(crate) fn run_counter<R: Threads + Wait + Sync>(
    rt: &R,
    alloc: Global,
    turns: &Turns<Op>,
) -> Result<Option<(u64, usize)>, Memory>
    requires some { 0 < turns.now.ways }
    requires few { turns.now.ways ≤ 4 }
{
    let layout = Mortal {
        layout: AnyGroups {
            layout: SpreadCounter,
            spaced: Spaced::Together,
        },
        dead: false,
    };
    let Some((system, mut passes)) = begin(alloc, layout)? else {
        return Ok(None);
    };
    work_all(rt, alloc, &system, turns, passes.as_mut_slice())?;
    let told = ask(rt, alloc, &system, passes.as_mut_slice(), &Value)?;
    let Some(entries) = end(alloc, system, passes)? else {
        return Ok(None);
    };
    match told {
        Some(Some(value)) => Ok(Some((value, entries.len()))),
        _ => Ok(None),
    }
}
