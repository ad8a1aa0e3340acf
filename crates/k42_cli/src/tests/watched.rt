//! Objects that are watched while they are called.
use super::side_by_side::judged;
use super::{expect_told, run_under};
use k42_input::Status;
use k42_workers::FreeGate;
use std::alloc::Global;
use std::process::Abort;

/// A counter is watched across a swap, and no longer.
const WATCHED: &[u8] = b"procs 1\nobject hits counter shared\nworker a 0\n\
hits add 5\nwatch hits\nhits add 1\nhits get\nhits seen\nswap hits spread\nhits seen\nunwatch hits\nhits seen\n";

/// What comes of it under `run 2`.
const WATCHED_RECORD_2: &[u8] =
    b"k42 record 2\n1 a 4 hits add 5 = ok @0 p0 g0\n2 a 5 watch hits = done 1 @0 p0 g-\n\
3 a 6 hits add 1 = ok @1 p0 g1\n4 a 7 hits get = 6 @1 p0 g1\n5 a 8 hits seen = 2 @1 p0 g1\n\
6 a 9 swap hits spread = done 2 @1 p0 g-\n7 a 10 hits seen = 2 @2 p0 g2\n\
8 a 11 unwatch hits = done 3 @2 p0 g-\n9 a 12 hits seen = none @3 p0 g3\nend 9\n";

/// A counter is watched once it is dead.
const DEAD: &[u8] = b"procs 1\nobject hits counter shared\nworker a 0\n\
destroy hits\nwatch hits\nhits seen\n";

const DEAD_RECORD: &[u8] = b"k42 record 1\n1 a 4 destroy hits = done 1 @0\n\
2 a 5 watch hits = gone @1\n3 a 6 hits seen = gone @1\nend 3\n";

/// A counter is to be watched in an activity.
const IN_AN_ACTIVITY: &[u8] =
    b"procs 1\nobject hits counter shared\nworker a 0\nbegin\nwatch hits\n";

/// The record of the watched counter, with these counts before and behind its swap.
fn watched_record(rt: &impl Abort, alloc: Global, before: &str, behind: &str) -> String {
    let text = format!(in alloc;
        "k42 record 1\n1 a 4 hits add 5 = ok @0\n2 a 5 watch hits = done 1 @0\n3 a 6 hits add 1 = ok @1\n\
4 a 7 hits get = 6 @1\n5 a 8 hits seen = {before} @1\n6 a 9 swap hits spread = done 2 @1\n\
7 a 10 hits seen = {behind} @2\n8 a 11 unwatch hits = done 3 @2\n9 a 12 hits seen = none @3\nend 9\n"
    );
    text.expect(rt, "memory")
}

#[test]
fn a_watched_object_tells_its_calls_across_a_swap(rt: HostRuntime) {
    let record = watched_record(&rt, rt.alloc(), "2", "2");
    let cases: [(&str, &[u8]); 3] = [
        ("run", record.as_bytes()),
        ("run 2", WATCHED_RECORD_2),
        ("run tasks", record.as_bytes()),
    ];
    for (line, due) in cases {
        let ran = run_under(&rt, rt.alloc(), line, WATCHED, &FreeGate);
        expect_told(&rt, &ran, Status::Ok, due, line);
        let found = judged(&rt, rt.alloc(), WATCHED, due);
        assert!(rt;
            found.text.as_slice() == b"lawful 9\n".as_slice(),
            "of {line}"
        );
    }
}

#[test]
fn a_count_that_is_told_too_high_or_too_low_is_found(rt: HostRuntime) {
    let cases: [(&str, &str, &[u8]); 5] = [
        ("3", "2", b"line 6: rule 5\n"),
        ("1", "2", b"line 6: rule 5\n"),
        ("none", "2", b"line 6: rule 5\n"),
        ("2", "3", b"line 8: rule 5\n"),
        ("2", "0", b"line 8: rule 5\n"),
    ];
    for (before, behind, verdict) in cases {
        let record = watched_record(&rt, rt.alloc(), before, behind);
        let found = judged(&rt, rt.alloc(), WATCHED, record.as_bytes());
        expect_told(&rt, &found, Status::Unlawful, verdict, before);
    }
}

#[test]
fn a_dead_object_is_gone_for_who_watches_it(rt: HostRuntime) {
    for line in ["run", "run tasks"] {
        let ran = run_under(&rt, rt.alloc(), line, DEAD, &FreeGate);
        expect_told(&rt, &ran, Status::Ok, DEAD_RECORD, line);
    }
}

#[test]
fn a_watch_in_an_activity_is_refused(rt: HostRuntime) {
    for line in ["run", "run 2", "run tasks"] {
        let ran = run_under(&rt, rt.alloc(), line, IN_AN_ACTIVITY, &FreeGate);
        expect_told(&rt, &ran, Status::Refused, b"line 5: BlockFault\n", line);
    }
}
