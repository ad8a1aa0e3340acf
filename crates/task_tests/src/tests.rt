use crate::tests::gates::{Counting, Listening};
use crate::tests::steps::{steps_are, swap_before_a_call};
use co_system::History;
use k42_kinds::{Answer, Reply};
use k42_workers::{FreeGate, asks_something, begin_run};
use script_text::parse;
use std::alloc::Global;
use std::cell::Cell;
use std::process::Abort;
use std::test::Fail;
use task_workers::{run_tasks, tasks_of};

mod gates;
mod steps;

/// A worker with a block, and one that swaps.
const BESIDE_A_BLOCK: &[u8] = b"procs 1\nobject hits counter shared\n\
worker a 0\nbegin\nhits add 1\nhits add 2\nend\nworker b 0\nhits add 7\nswap hits spread\nhits get\n";

/// A worker with a block and a call behind it, and one that watches and asks for the count.
const WATCHED_BESIDE_A_BLOCK: &[u8] = b"procs 1\nobject hits counter shared\n\
worker a 0\nbegin\nhits add 1\nhits add 2\nend\nhits get\nworker b 0\nhits add 7\nwatch hits\nhits seen\n";

/// A worker with a block, and two that swap.
const TWO_SWAPS: &[u8] = b"procs 1\nobject hits counter shared\nobject more counter shared\n\
worker a 0\nbegin\nhits add 1\nend\nworker b 0\nswap hits spread\nworker c 0\nswap more spread\n";

/// One worker with two lines.
const TWO_LINES: &[u8] = b"procs 1\nobject hits counter shared\nworker a 0\nhits add 5\nhits get\n";

/// A worker that swaps, and one that calls.
const A_SWAP_AND_A_CALL: &[u8] = b"procs 1\nobject hits counter shared\n\
worker a 0\nswap hits spread\nworker b 0\nhits get\n";

/// Each entry has this worker, place among its entries, incarnation and answer, and there are no others.
fn entries_are(
    rt: &impl Abort,
    alloc: Global,
    history: &History,
    due: &[(u32, u64, u32, Answer<Reply>)],
) {
    let entries = history.collect(alloc).expect(rt, "memory");
    assert_eq!(rt; entries.len(), due.len());
    for (entry, one) in entries.iter().zip(due.iter()) {
        let told = (entry.caller, entry.index, entry.incarnation, entry.answer);
        assert_eq!(rt; told, *one);
    }
}

#[test]
fn a_swap_waits_for_a_block_and_goes_on_after_its_end(rt: HostRuntime) -> Result<(), Fail> {
    let Ok(script) = parse(rt.alloc(), BESIDE_A_BLOCK) else {
        return Err("no script")?;
    };
    let history = run_tasks(&rt, rt.alloc(), &script, &FreeGate)?;
    let due = [
        (1, 0, 0, Answer::Replied(Reply::Done)),
        (0, 0, 0, Answer::Replied(Reply::Done)),
        (0, 1, 0, Answer::Replied(Reply::Done)),
        (1, 1, 0, Answer::Swapped(1)),
        (1, 2, 1, Answer::Replied(Reply::Number(10))),
    ];
    entries_are(&rt, rt.alloc(), &history, &due);
    Ok(())
}

#[test]
fn a_watch_waits_for_a_block_and_counts_the_calls_behind_it(rt: HostRuntime) -> Result<(), Fail> {
    let Ok(script) = parse(rt.alloc(), WATCHED_BESIDE_A_BLOCK) else {
        return Err("no script")?;
    };
    let history = run_tasks(&rt, rt.alloc(), &script, &FreeGate)?;
    let due = [
        (1, 0, 0, Answer::Replied(Reply::Done)),
        (0, 0, 0, Answer::Replied(Reply::Done)),
        (0, 1, 0, Answer::Replied(Reply::Done)),
        (1, 1, 0, Answer::Swapped(1)),
        (0, 2, 1, Answer::Replied(Reply::Number(10))),
        (1, 2, 1, Answer::Replied(Reply::Number(1))),
    ];
    entries_are(&rt, rt.alloc(), &history, &due);
    Ok(())
}

#[test]
fn a_script_without_lines_has_an_empty_history(rt: HostRuntime) -> Result<(), Fail> {
    let Ok(script) = parse(rt.alloc(), b"procs 2\nworker a 1\nbegin\nend\n") else {
        return Err("no script")?;
    };
    let history = run_tasks(&rt, rt.alloc(), &script, &FreeGate)?;
    assert_eq!(rt; history.len(), 0);
    Ok(())
}

#[test]
fn a_gate_that_is_not_shared_hears_of_each_line_twice(rt: HostRuntime) -> Result<(), Fail> {
    let Ok(script) = parse(rt.alloc(), TWO_LINES) else {
        return Err("no script")?;
    };
    let gate = Counting { told: Cell::new(0) };
    let history = run_tasks(&rt, rt.alloc(), &script, &gate)?;
    assert_eq!(rt; history.len(), 2);
    assert_eq!(rt; gate.told.get(), 4);
    Ok(())
}

#[test]
fn the_gate_hears_once_of_a_line_that_is_held_up_and_tasks_step_in_rounds(
    rt: HostRuntime,
) -> Result<(), Fail> {
    let Ok(script) = parse(rt.alloc(), BESIDE_A_BLOCK) else {
        return Err("no script")?;
    };
    let gate = Listening {
        told: Cell::new(0),
        astray: Cell::new(0),
    };
    let history = run_tasks(&rt, rt.alloc(), &script, &gate)?;
    assert_eq!(rt; history.len(), 5);
    assert_eq!(rt; gate.told.get(), 10);
    assert_eq!(rt; gate.astray.get(), 0);
    Ok(())
}

#[test]
fn a_swap_tells_twice_that_one_activity_has_not_left(rt: HostRuntime) -> Result<(), Fail> {
    let Ok(script) = parse(rt.alloc(), BESIDE_A_BLOCK) else {
        return Err("no script")?;
    };
    if !asks_something(&script) {
        return Err("no lines")?;
    }
    let (system, passes) = begin_run(rt.alloc(), &script)?;
    let mut tasks = tasks_of(rt.alloc(), &system, script.workers.as_slice(), passes)?;
    steps_are(
        &rt,
        rt.alloc(),
        &system,
        tasks.as_mut_slice(),
        &steps::BESIDE_A_BLOCK,
    );
    Ok(())
}

#[test]
fn a_second_swap_tells_who_has_the_role(rt: HostRuntime) -> Result<(), Fail> {
    let Ok(script) = parse(rt.alloc(), TWO_SWAPS) else {
        return Err("no script")?;
    };
    if !asks_something(&script) {
        return Err("no lines")?;
    }
    let (system, passes) = begin_run(rt.alloc(), &script)?;
    let mut tasks = tasks_of(rt.alloc(), &system, script.workers.as_slice(), passes)?;
    steps_are(
        &rt,
        rt.alloc(),
        &system,
        tasks.as_mut_slice(),
        &steps::TWO_SWAPS,
    );
    Ok(())
}

#[test]
fn where_a_swap_is_refused_memory_the_object_is_open_and_the_other_task_ends(
    rt: HostRuntime,
) -> Result<(), Fail> {
    let Ok(script) = parse(rt.alloc(), A_SWAP_AND_A_CALL) else {
        return Err("no script")?;
    };
    if !asks_something(&script) {
        return Err("no lines")?;
    }
    let (system, passes) = begin_run(rt.alloc(), &script)?;
    let mut tasks = tasks_of(rt.alloc(), &system, script.workers.as_slice(), passes)?;
    swap_before_a_call(&rt, rt.alloc(), &system, tasks.as_mut_slice());
    Ok(())
}
