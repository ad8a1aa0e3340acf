ghost use Rattle.std.specs.Prelude.{◌≡◌, None};

use super::{ADD_AND_GET, USAGE_LINE, words_in};
use crate::called::k42_called;
use k42_input::Status;
use k42_io::{MemSink, MemSource};
use k42_workers::FreeGate;
use std::alloc::Global;
use std::env::Args;
use std::io;
use std::io::ErrorKind;
use std::process::Abort;
use std::sync::Wait;
use std::thread::Threads;

/// The words of a command line, as the system hands them over.
fn handed_over(rt: &impl Abort, alloc: Global, line: &str) -> Args {
    words_in(rt, alloc, line).into_iter()
}

/// How the program ends, and how much it writes, over ends that fail at these reads and writes.
fn ended<R: Threads + Abort + Wait + Sync>(
    rt: &R,
    alloc: Global,
    said: io::Result<Args>,
    input: &[u8],
    reads: &[u64],
    writes: &[u64],
) -> (Status, usize) {
    let input = input.to_vec(alloc).expect(rt, "memory");
    let reads = reads.to_vec(alloc).expect(rt, "memory");
    let writes = writes.to_vec(alloc).expect(rt, "memory");
    let mut source = MemSource::new(input, 4096, reads);
    let mut sink = MemSink::new(alloc, 4096, 4096, writes).expect(rt, "memory");
    let mut kept = None;
    let status = k42_called(
        rt,
        alloc,
        said,
        &mut source,
        &mut sink,
        &FreeGate,
        &mut kept,
    );
    (status, sink.taken().len())
}

#[test]
fn each_status_has_its_cause(rt: HostRuntime) {
    let no_script: &[u8] = b"procs many\n";
    let unlawful: &[u8] = b"procs 1\n---\nk42 record 1\nend 1\n";
    let cases: [(&str, &[u8], &[u64], &[u64], Status); 8] = [
        ("k42 run", ADD_AND_GET, &[], &[], Status::Ok),
        ("k42 check", unlawful, &[], &[], Status::Unlawful),
        ("k42 walk", ADD_AND_GET, &[], &[], Status::Usage),
        ("k42 run 2", no_script, &[], &[], Status::Refused),
        ("k42 run tasks", ADD_AND_GET, &[], &[], Status::Ok),
        ("k42 run tasks", no_script, &[], &[], Status::Refused),
        ("k42 run", ADD_AND_GET, &[1], &[], Status::ReadFault),
        ("k42 run", ADD_AND_GET, &[], &[1], Status::WriteFault),
    ];
    for (line, input, reads, writes, status) in cases {
        let said = Ok(handed_over(&rt, rt.alloc(), line));
        let end = ended(&rt, rt.alloc(), said, input, reads, writes);
        assert!(rt; end.0 == status, "of {line:?}");
    }
}

#[test]
fn without_memory_for_the_words_nothing_is_written(rt: HostRuntime) {
    let said = Err(io::Error::from(ErrorKind::OutOfMemory));
    let end = ended(&rt, rt.alloc(), said, ADD_AND_GET, &[], &[]);
    assert!(rt; end == (Status::Memory, 0));
}

#[test]
fn words_that_are_not_utf8_are_answered_by_the_usage_line(rt: HostRuntime) {
    let said = Err(io::Error::from(ErrorKind::InvalidData));
    let end = ended(&rt, rt.alloc(), said, ADD_AND_GET, &[], &[]);
    assert!(rt; end == (Status::Usage, USAGE_LINE.len()));
}
