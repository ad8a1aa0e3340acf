//! Workers that run side by side, held at lines by a gate.
use super::gates::{Hold, Holding, NOTHING, Until, lines};
use super::{Ran, run_under};
use k42_input::Status;
use k42_workers::FreeGate;
use std::alloc::Global;
use std::process::Abort;
use std::sync::Wait;
use std::thread::Threads;

/// Two workers add to one counter and ask for its value.
const TWO_ADD: &[u8] =
    b"procs 2\nobject hits counter spread\nworker a 0\nhits add 5\nhits get\nworker b 1\nhits add 7\nhits get\n";

pub const TWO_ADD_SHARED: &[u8] =
    b"procs 2\nobject hits counter shared\nworker a 0\nhits add 5\nhits get\nworker b 1\nhits add 7\nhits get\n";

/// Two workers swap a counter while a third is in an activity.
const TWO_SWAP: &[u8] =
    b"procs 1\nobject hits counter shared\nworker a 0\nswap hits spread\nworker b 0\nswap hits spread\nworker c 0\nbegin\nhits add 1\nhits get\nend\n";

/// Both workers are at their adds before either is made, and the second asks for the value behind both.
fn adds_meet() -> Holding {
    let both = lines(&[4, 7]);
    Holding::new([
        Hold {
            lines: both,
            until: Until::Reached(both),
        },
        Hold {
            lines: lines(&[8]),
            until: Until::Answered(lines(&[4])),
        },
    ])
}

/// The swaps come while the activity is open, and it goes on once one of them was answered.
fn swaps_meet() -> Holding {
    let swaps = lines(&[4, 6]);
    Holding::new([
        Hold {
            lines: swaps,
            until: Until::Answered(lines(&[9])),
        },
        Hold {
            lines: lines(&[10]),
            until: Until::Answered(swaps),
        },
    ])
}

/// Sixteen workers add on eight processors.
const SIXTEEN_ADD: &[u8] =
    b"procs 8\nobject hits counter spread\nworker w0 0\nhits add 1\nworker w1 1\nhits add 1\nworker w2 2\nhits add 1\nworker w3 3\nhits add 1\n\
worker w4 4\nhits add 1\nworker w5 5\nhits add 1\nworker w6 6\nhits add 1\nworker w7 7\nhits add 1\n\
worker w8 0\nhits add 1\nworker w9 1\nhits add 1\nworker w10 2\nhits add 1\nworker w11 3\nhits add 1\n\
worker w12 4\nhits add 1\nworker w13 5\nhits add 1\nworker w14 6\nhits add 1\nworker w15 7\nhits add 1\n";

/// All of them are at their adds before one is made.
fn sixteen_meet() -> Holding {
    let all = lines(&[4, 6, 8, 10, 12, 14, 16, 18, 20, 22, 24, 26, 28, 30, 32, 34]);
    Holding::new([
        Hold {
            lines: all,
            until: Until::Reached(all),
        },
        NOTHING,
    ])
}

/// What `check` says of a record.
pub fn judged<R: Threads + Abort + Wait + Sync>(
    rt: &R,
    alloc: Global,
    script: &[u8],
    record: &[u8],
) -> Ran {
    let pieces = [script, b"---\n", record];
    let input = pieces.concat(alloc).expect(rt, "memory");
    run_under(rt, alloc, "check", &input, &FreeGate)
}

/// `check` finds the record lawful.
pub fn expect_lawful<R: Threads + Abort + Wait + Sync>(
    rt: &R,
    alloc: Global,
    script: &[u8],
    record: &[u8],
    told: &[u8],
) {
    let found = judged(rt, alloc, script, record);
    assert!(rt; found.text.as_slice() == told);
    assert!(rt; found.kept == None);
}

/// Whether a line of the record stands behind its number as it is told.
fn has_line(record: &[u8], told: &[u8]) -> bool {
    record
        .split(|&byte| byte == b'\n')
        .any(|line| line.ends_with(told))
}

#[test]
fn two_workers_reach_their_first_lines_side_by_side(rt: HostRuntime) {
    for line in ["run", "run 2"] {
        let gate = adds_meet();
        let ran = run_under(&rt, rt.alloc(), line, TWO_ADD, &gate);
        assert!(rt; ran.status == Status::Ok);
        gate.expect_lines(&rt, lines(&[4, 5, 7, 8]), 0);
        assert!(rt; ran.kept == Some(4));
        expect_lawful(&rt, rt.alloc(), TWO_ADD, &ran.text, b"lawful 4\n");
    }
}

#[test]
fn sixteen_workers_reach_their_first_lines_side_by_side(rt: HostRuntime) {
    for line in ["run", "run 2"] {
        let gate = sixteen_meet();
        let ran = run_under(&rt, rt.alloc(), line, SIXTEEN_ADD, &gate);
        assert!(rt; ran.status == Status::Ok);
        gate.expect_lines(&rt, gate.reached(), 0);
        expect_lawful(&rt, rt.alloc(), SIXTEEN_ADD, &ran.text, b"lawful 16\n");
    }
}

#[test]
fn a_value_behind_both_adds_is_their_sum(rt: HostRuntime) {
    let gate = adds_meet();
    let ran = run_under(&rt, rt.alloc(), "run", TWO_ADD_SHARED, &gate);
    assert!(rt; ran.status == Status::Ok);
    gate.expect_lines(&rt, lines(&[4, 5, 7, 8]), 0);
    assert!(rt; has_line(&ran.text, b" b 8 hits get = 12 @0"));
    expect_lawful(&rt, rt.alloc(), TWO_ADD_SHARED, &ran.text, b"lawful 4\n");
}

/// Of the swaps at lines 4 and 6 one was done, and the other one was busy.
fn expect_one_busy(rt: &impl Abort, record: &[u8]) {
    let first = has_line(record, b" a 4 swap hits spread = done 1 @0");
    let second = has_line(record, b" b 6 swap hits spread = done 1 @0");
    assert!(rt; first != second);
    let other: &[u8] = if first {
        b" b 6 swap hits spread = busy 1 @0"
    } else {
        b" a 4 swap hits spread = busy 1 @0"
    };
    assert!(rt; has_line(record, other));
}

#[test]
fn of_two_swaps_at_once_one_is_busy(rt: HostRuntime) {
    let gate = swaps_meet();
    let ran = run_under(&rt, rt.alloc(), "run", TWO_SWAP, &gate);
    assert!(rt; ran.status == Status::Ok);
    gate.expect_lines(&rt, lines(&[4, 6, 9, 10]), 0);
    assert!(rt; ran.kept == Some(4));
    expect_lawful(&rt, rt.alloc(), TWO_SWAP, &ran.text, b"lawful 4\n");
    expect_one_busy(&rt, &ran.text);
    assert!(rt; has_line(&ran.text, b" c 9 hits add 1 = ok @0"));
    assert!(rt; has_line(&ran.text, b" c 10 hits get = 1 @0"));
}
