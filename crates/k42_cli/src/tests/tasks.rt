//! Workers that are tasks on one thread.
use super::gates::{Hold, Holding, NOTHING, Until, lines};
use super::side_by_side::{TWO_ADD_SHARED, expect_lawful};
use super::{expect_ran, expect_told, run_under};
use k42_input::Status;
use k42_workers::FreeGate;
use std::process::Abort;

const RUN_TASKS: &str = "run tasks";

/// A worker swaps a counter beside the block of another.
const BLOCK_AND_SWAP: &[u8] =
    b"procs 1\nobject hits counter shared\nworker a 0\nbegin\nhits add 1\nhits add 2\nend\n\
worker b 0\nhits add 7\nswap hits spread\nhits get\n";

/// The swap waits until the block has ended.
const BLOCK_AND_SWAP_RECORD: &[u8] =
    b"k42 record 1\n1 b 9 hits add 7 = ok @0\n2 a 5 hits add 1 = ok @0\n3 a 6 hits add 2 = ok @0\n\
4 b 10 swap hits spread = done 1 @0\n5 b 11 hits get = 10 @1\nend 5\n";

/// Both add before one asks for the value.
const TWO_ADD_RECORD: &[u8] = b"k42 record 1\n1 a 4 hits add 5 = ok @0\n2 b 7 hits add 7 = ok @0\n\
3 a 5 hits get = 12 @0\n4 b 8 hits get = 12 @0\nend 4\n";

/// Scripts of one worker, and their records.
const OF_ONE_WORKER: [(&[u8], &[u8]); 4] = [
    (
        b"procs 1\nobject hits counter shared\nworker a 0\nhits add 5\nhits get\n",
        b"k42 record 1\n1 a 4 hits add 5 = ok @0\n2 a 5 hits get = 5 @0\nend 2\n",
    ),
    (
        b"procs 1\nobject hits counter shared\nworker a 0\nhits add 5\nswap hits spread\nhits get\n",
        b"k42 record 1\n1 a 4 hits add 5 = ok @0\n2 a 5 swap hits spread = done 1 @0\n3 a 6 hits get = 5 @1\nend 3\n",
    ),
    (
        b"procs 1\nobject hits counter shared\nworker a 0\ndestroy hits\nhits get\nswap hits shared\ndestroy hits\n",
        b"k42 record 1\n1 a 4 destroy hits = done 1 @0\n2 a 5 hits get = gone @1\n\
3 a 6 swap hits shared = gone @1\n4 a 7 destroy hits = gone @1\nend 4\n",
    ),
    (
        b"procs 8\nobject cache pages shared\nworker a 0\ncache write 5 hi\nswap cache spread\ncache dirty\n",
        b"k42 record 1\n1 a 4 cache write 5 hi = ok @0\n2 a 5 swap cache spread = done 1 @0\n3 a 6 cache dirty = 1 @1\nend 3\n",
    ),
];

#[test]
fn a_swap_waits_for_the_block_of_another_task(rt: HostRuntime) {
    let ran = run_under(&rt, rt.alloc(), RUN_TASKS, BLOCK_AND_SWAP, &FreeGate);
    expect_ran(&rt, &ran, Status::Ok, BLOCK_AND_SWAP_RECORD, Some(5));
    expect_lawful(&rt, rt.alloc(), BLOCK_AND_SWAP, &ran.text, b"lawful 5\n");
}

#[test]
fn tasks_go_on_by_turns(rt: HostRuntime) {
    let ran = run_under(&rt, rt.alloc(), RUN_TASKS, TWO_ADD_SHARED, &FreeGate);
    expect_told(&rt, &ran, Status::Ok, TWO_ADD_RECORD, RUN_TASKS);
}

#[test]
fn one_worker_leaves_the_record_that_it_leaves_on_a_thread(rt: HostRuntime) {
    for (script, record) in OF_ONE_WORKER {
        for line in ["run", RUN_TASKS] {
            let ran = run_under(&rt, rt.alloc(), line, script, &FreeGate);
            expect_told(&rt, &ran, Status::Ok, record, line);
        }
    }
}

#[test]
fn while_a_task_is_held_no_other_goes_on(rt: HostRuntime) {
    let gate = Holding::briefly([
        Hold {
            lines: lines(&[4]),
            until: Until::Reached(lines(&[7])),
        },
        NOTHING,
    ]);
    let ran = run_under(&rt, rt.alloc(), RUN_TASKS, TWO_ADD_SHARED, &gate);
    assert!(rt; ran.status == Status::Ok);
    gate.expect_lines(&rt, lines(&[4, 5, 7, 8]), 1);
}
