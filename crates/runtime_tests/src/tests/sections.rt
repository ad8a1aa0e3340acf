//! Sections of a running system.
ghost use Rattle.k42_crews.specs.Ready.{AreFree, IsFree};

use crate::tests::crews::{Three, listed, sectioned, take_three};
use crate::tests::steps::ask_once;
use co_system::{Pass, System};
use k42_kinds::{Op, Reply};
use std::alloc::Global;
use std::process::Abort;
use std::sync::Wait;

/// The first adds twice to one object, and the second once to another.
pub(super) fn add_thrice<R: Abort + Wait>(
    rt: &R,
    alloc: Global,
    system: &System,
    first: &mut Pass,
    second: &mut Pass,
)
    requires first { IsFree system.now first.old }
    requires second { IsFree system.now second.old }
    ensures first { IsFree system.now first.new }
    ensures second { IsFree system.now second.new }
{
    ask_once(rt, alloc, system, first, 0, Op::Add(1), Reply::Done);
    ask_once(rt, alloc, system, first, 0, Op::Add(1), Reply::Done);
    ask_once(rt, alloc, system, second, 1, Op::Add(1), Reply::Done);
}

/// The last of three, which has drawn nothing, has been told of what the others have; what it adds is later.
pub(super) fn add_with_last<R: Abort + Wait>(
    rt: &R,
    alloc: Global,
    system: &System,
    passes: Vec<Pass>,
) -> Vec<Pass>
    requires free { AreFree system.now passes.items }
    ensures free { AreFree system.now result.items }
{
    let Three { zero, one, mut two } = take_three(rt, system, passes);
    assert!(rt; two.clock() == 2);
    ask_once(rt, alloc, system, &mut two, 1, Op::Add(1), Reply::Done);
    assert!(rt; two.clock() == 3);
    listed(rt, alloc, system, zero, one, two)
}

/// Takes the next section: its entries are of these callers, and numbered on from that number.
pub(super) fn take_section<R: Abort>(
    rt: &R,
    alloc: Global,
    system: &System,
    passes: &mut Vec<Pass>,
    first: u64,
    callers: &[u32],
)
    requires free { AreFree system.now passes.old.items }
    ensures free { AreFree system.now passes.new.items }
{
    let entries = sectioned(rt, alloc, system, passes);
    assert!(rt; entries.len() == callers.len());
    let mut number = first;
    for (entry, caller) in entries.iter().zip(callers) {
        assert!(rt; entry.stamp == number);
        assert!(rt; entry.caller == *caller);
        number = number.wrapping_add(1);
    }
}
