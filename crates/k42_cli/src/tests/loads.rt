//! Loads: generated scripts that are run and summed up.
use super::gates::{Hold, Holding, NOTHING, Until, lines};
use super::{expect_ran, run_under};
use k42_input::Status;
use k42_workers::FreeGate;
use std::process::Abort;

#[test]
fn a_load_of_one_step_adds_its_value(rt: HostRuntime) {
    let ran = run_under(&rt, rt.alloc(), "load 1", b"", &FreeGate);
    let told = b"load 1 calls 1 total 1817669548 names 0 dirty 0 swaps 0\n";
    expect_ran(&rt, &ran, Status::Ok, told, Some(1));
}

#[test]
fn the_longest_load_tells_the_same_each_time(rt: HostRuntime) {
    let first = run_under(&rt, rt.alloc(), "load 10000", b"", &FreeGate);
    let second = run_under(&rt, rt.alloc(), "load 10000", b"", &FreeGate);
    assert!(rt; first.status == Status::Ok);
    assert!(rt; first.text.as_slice() == second.text.as_slice());
    assert!(rt; first.text.starts_with(b"load 10000 calls 9970 total "));
    assert!(rt; first.text.ends_with(b" swaps 30\n"));
    assert!(rt; first.kept == Some(10_000));
}

#[test]
fn the_workers_of_a_load_run_side_by_side(rt: HostRuntime) {
    let first = lines(&[6, 9, 12, 15]);
    let gate = Holding::new([
        Hold {
            lines: first,
            until: Until::Reached(first),
        },
        NOTHING,
    ]);
    let ran = run_under(&rt, rt.alloc(), "load 8", b"", &gate);
    let all = lines(&[6, 7, 9, 10, 12, 13, 15, 16]);
    assert!(rt; ran.status == Status::Ok);
    gate.expect_lines(&rt, all, 0);
}
