use super::{LAWFUL, UNLAWFUL};
use crate::called::view_called;
use k42_input::Status;
use k42_io::{MemSink, MemSource};
use std::alloc::Global;
use std::env::Args;
use std::io;
use std::io::ErrorKind;
use std::test::Fail;

/// The words of a command line, as the system hands them over.
fn handed_over(alloc: Global, line: &str) -> Result<Args, Fail> {
    let mut words = Vec::new(alloc);
    for word in line.split_whitespace() {
        words.push(word.to_string(alloc)?)?;
    }
    Ok(words.into_iter())
}

/// How the program ends, and how much it writes, over ends that fail at these reads and writes.
fn ended(
    alloc: Global,
    said: io::Result<Args>,
    input: &[u8],
    reads: &[u64],
    writes: &[u64],
) -> Result<(Status, usize), Fail> {
    let mut source = MemSource::new(input.to_vec(alloc)?, 4096, reads.to_vec(alloc)?);
    let mut sink = MemSink::new(alloc, 65_536, 4096, writes.to_vec(alloc)?)?;
    let status = view_called(alloc, said, &mut source, &mut sink);
    Ok((status, sink.taken().len()))
}

#[test]
fn each_status_has_its_cause(rt: HostRuntime) -> Result<(), Fail> {
    let no_script: &[u8] = b"procs many\n---\nk42 record 1\nend 0\n";
    let cases: [(&str, &[u8], &[u64], &[u64], Status); 6] = [
        ("k42-view", LAWFUL, &[], &[], Status::Ok),
        ("k42-view 2 1", UNLAWFUL, &[], &[], Status::Unlawful),
        ("k42-view 2", LAWFUL, &[], &[], Status::Usage),
        ("k42-view", no_script, &[], &[], Status::Refused),
        ("k42-view", LAWFUL, &[1], &[], Status::ReadFault),
        ("k42-view", LAWFUL, &[], &[1], Status::WriteFault),
    ];
    for (line, input, reads, writes, status) in cases {
        let said = Ok(handed_over(rt.alloc(), line)?);
        let end = ended(rt.alloc(), said, input, reads, writes)?;
        assert_eq!(rt; end.0, status, "of {line:?}");
    }
    Ok(())
}

#[test]
fn without_memory_for_the_words_nothing_is_written(rt: HostRuntime) -> Result<(), Fail> {
    let said = Err(io::Error::from(ErrorKind::OutOfMemory));
    let end = ended(rt.alloc(), said, LAWFUL, &[], &[])?;
    assert_eq!(rt; end, (Status::Memory, 0));
    Ok(())
}

#[test]
fn words_that_are_not_utf8_are_answered_by_the_usage_line(rt: HostRuntime) -> Result<(), Fail> {
    let said = Err(io::Error::from(ErrorKind::InvalidData));
    let end = ended(rt.alloc(), said, LAWFUL, &[], &[])?;
    assert_eq!(rt; end, (Status::Usage, 50));
    Ok(())
}
