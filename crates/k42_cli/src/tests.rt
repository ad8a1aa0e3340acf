//! The program over sources and sinks that fail, and which history it keeps.
ghost use Rattle.std.specs.Prelude.{◌<◌, None};

use crate::program::k42_main;
use co_system::History;
use k42_input::Status;
use k42_io::{Failed, MemSink, MemSource, QuietSink, QuietSource, Source};
use k42_workers::{FreeGate, Gate};
use std::alloc::Global;
use std::process::Abort;
use std::sync::Wait;
use std::thread::Threads;

mod gates;
mod library;
mod loads;
mod side_by_side;
mod statuses;
mod tasks;
mod watched;

const RUN: &str = "run";

/// One worker over one counter, which adds 5 and asks for the value. It has 66 bytes.
const ADD_AND_GET: &[u8] =
    b"procs 1\nobject hits counter shared\nworker a 0\nhits add 5\nhits get\n";

/// What comes of it. It has 66 bytes too.
const ADD_AND_GET_RECORD: &[u8] =
    b"k42 record 1\n1 a 4 hits add 5 = ok @0\n2 a 5 hits get = 5 @0\nend 2\n";

const NO_CALLS_RECORD: &[u8] = b"k42 record 1\nend 0\n";

const USAGE_LINE: &[u8] = b"usage: k42 run [2 | tasks] | k42 check | k42 load N\n";

/// A source that is at its end, and counts the reads.
#[derive(Drop)]
struct Counted {
    reads: u32,
}

impl Source for Counted {
    ghost left = { λ _. None };

    ghost faults = { λ _. 0 };

    fn read(&mut self, _buf: &mut [u8]) -> Result<usize, Failed> {
        self.reads = self.reads.saturating_add(1);
        Ok(0)
    }
}

/// How a run of the program ended, what its sink holds, and how many entries the history has that it kept.
#[derive(Drop)]
struct Ran {
    status: Status,
    text: Vec<u8>,
    kept: Option<usize>,
}

/// The words of a command line.
fn words_in(rt: &impl Abort, alloc: Global, line: &str) -> Vec<String> {
    let mut words = Vec::new(alloc);
    for word in line.split_whitespace() {
        let word = word.to_string(alloc).expect(rt, "memory");
        words.push(word).expect(rt, "memory");
    }
    words
}

/// How many entries there are, where a history is kept.
fn kept_entries(kept: &Option<History>) -> Option<usize> {
    kept.as_ref().map(|history| history.len())
}

/// Runs over a source and a sink of this piece that fail at these reads and writes.
fn run_in_pieces<R: Threads + Abort + Wait + Sync>(
    rt: &R,
    alloc: Global,
    line: &str,
    input: &[u8],
    piece: usize,
    reads: &[u64],
    writes: &[u64],
) -> Ran
    requires { 0 < piece }
{
    let words = words_in(rt, alloc, line);
    let input = input.to_vec(alloc).expect(rt, "memory");
    let reads = reads.to_vec(alloc).expect(rt, "memory");
    let writes = writes.to_vec(alloc).expect(rt, "memory");
    let mut source = MemSource::new(input, piece, reads);
    let mut sink = MemSink::new(alloc, 4096, piece, writes).expect(rt, "memory");
    let mut kept = None;
    let status = k42_main(
        rt,
        alloc,
        &words,
        &mut source,
        &mut sink,
        &FreeGate,
        &mut kept,
    );
    let text = sink.taken().to_vec(alloc).expect(rt, "memory");
    let kept = kept_entries(&kept);
    Ran { status, text, kept }
}

/// Runs under a gate over ends that never fail.
fn run_under<R: Threads + Abort + Wait + Sync, G: Gate + Sync>(
    rt: &R,
    alloc: Global,
    line: &str,
    input: &[u8],
    gate: &G,
) -> Ran {
    let words = words_in(rt, alloc, line);
    let input = input.to_vec(alloc).expect(rt, "memory");
    let mut source = QuietSource::new(input);
    let mut sink = QuietSink::new(alloc, 4096).expect(rt, "memory");
    let mut kept = None;
    let status = k42_main(rt, alloc, &words, &mut source, &mut sink, gate, &mut kept);
    let text = sink.taken().to_vec(alloc).expect(rt, "memory");
    let kept = kept_entries(&kept);
    Ran { status, text, kept }
}

/// It ended so, wrote this, and kept so many entries, if it kept a history.
fn expect_ran(rt: &impl Abort, ran: &Ran, status: Status, text: &[u8], kept: Option<usize>) {
    assert!(rt; ran.status == status);
    assert!(rt; ran.text.as_slice() == text);
    assert!(rt; ran.kept == kept);
}

/// It ended so, and wrote this.
fn expect_told(rt: &impl Abort, ran: &Ran, status: Status, text: &[u8], at: &str) {
    assert!(rt; ran.status == status, "of {at}");
    assert!(rt; ran.text.as_slice() == text, "of {at}");
}

#[test]
fn memory_is_not_lacking_where_there_is_enough(rt: HostRuntime) {
    let ran = run_in_pieces(&rt, rt.alloc(), RUN, ADD_AND_GET, 4096, &[], &[]);
    expect_ran(&rt, &ran, Status::Ok, ADD_AND_GET_RECORD, Some(2));
}

#[test]
fn a_run_without_calls_over_ends_that_never_fail(rt: HostRuntime) {
    let ran = run_under(&rt, rt.alloc(), RUN, b"procs 1\n", &FreeGate);
    expect_told(&rt, &ran, Status::Ok, NO_CALLS_RECORD, RUN);
}

/// The words are answered by the usage line, and nothing is read or kept.
fn expect_usage<R: Threads + Abort + Wait + Sync>(rt: &R, alloc: Global, line: &str) {
    let words = words_in(rt, alloc, line);
    let mut source = Counted { reads: 0 };
    let sink = MemSink::new(alloc, 4096, 4096, Vec::new(alloc));
    let mut sink = sink.expect(rt, "memory");
    let mut kept = None;
    let status = k42_main(
        rt,
        alloc,
        &words,
        &mut source,
        &mut sink,
        &FreeGate,
        &mut kept,
    );
    assert!(rt; status == Status::Usage, "of {line}");
    assert!(rt; sink.taken() == USAGE_LINE, "of {line}");
    assert!(rt; source.reads == 0, "of {line}");
    assert!(rt; kept_entries(&kept) == None, "of {line}");
}

#[test]
fn words_that_are_no_form_read_nothing(rt: HostRuntime) {
    let cases = [
        "",
        "load",
        "load 0",
        "load 01",
        "load 10001",
        "run x",
        "check x",
        "run 2 2",
        "run task",
        "run Tasks",
        "run tasks 2",
        "run 2 tasks",
        "tasks",
        "load 8 8",
    ];
    for line in cases {
        expect_usage(&rt, rt.alloc(), line);
    }
}

#[test]
fn a_failed_read_leaves_the_sink_empty(rt: HostRuntime) {
    let ran = run_in_pieces(&rt, rt.alloc(), RUN, ADD_AND_GET, 4096, &[2], &[]);
    expect_ran(&rt, &ran, Status::ReadFault, b"", None);
}

#[test]
fn a_failed_write_leaves_what_came_before_it(rt: HostRuntime) {
    let ran = run_in_pieces(&rt, rt.alloc(), RUN, ADD_AND_GET, 8, &[], &[3]);
    expect_ran(&rt, &ran, Status::WriteFault, b"k42 record 1\n1 a", None);
}

#[test]
fn each_read_failing_in_turn(rt: HostRuntime) {
    for k in 1..68 {
        let ran = run_in_pieces(&rt, rt.alloc(), RUN, ADD_AND_GET, 1, &[k], &[]);
        assert!(rt; ran.status == Status::ReadFault, "at read {k}");
        assert!(rt; ran.text.is_empty(), "at read {k}");
    }
    let ran = run_in_pieces(&rt, rt.alloc(), RUN, ADD_AND_GET, 1, &[68], &[]);
    expect_told(&rt, &ran, Status::Ok, ADD_AND_GET_RECORD, "read 68");
}

#[test]
fn each_write_failing_in_turn(rt: HostRuntime) {
    for k in 1..67u64 {
        let ran = run_in_pieces(&rt, rt.alloc(), RUN, ADD_AND_GET, 1, &[], &[k]);
        let written = ADD_AND_GET_RECORD.iter().take(k as usize - 1);
        assert!(rt; ran.status == Status::WriteFault, "at write {k}");
        assert!(rt; ran.text.iter().eq(written), "at write {k}");
    }
    let ran = run_in_pieces(&rt, rt.alloc(), RUN, ADD_AND_GET, 1, &[], &[67]);
    expect_told(&rt, &ran, Status::Ok, ADD_AND_GET_RECORD, "write 67");
}

#[test]
fn reads_and_writes_that_fail_under_check(rt: HostRuntime) {
    let input = b"procs 1\n---\nk42 record 1\nend 0\n";
    let read = run_in_pieces(&rt, rt.alloc(), "check", input, 8, &[2], &[]);
    expect_told(&rt, &read, Status::ReadFault, b"", "a read");
    let written = run_in_pieces(&rt, rt.alloc(), "check", input, 4, &[], &[2]);
    expect_told(&rt, &written, Status::WriteFault, b"lawf", "a write");
}
