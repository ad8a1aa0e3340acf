//! Inputs that are cut, records that are found in them, the words of programs, and the numbers of the statuses.
use k42_input::{RecordFound, Status, record_in, separate, words_of};
use k42_limits::INPUT_BYTES;
use script_text::parse;
use std::alloc::Global;
use std::env::Args;
use std::io;
use std::io::ErrorKind;
use std::process::Abort;

#[test]
fn the_first_line_of_three_dashes_separates(rt: HostRuntime) {
    let cases: [(&[u8], &[u8], &[u8]); 9] = [
        (b"", b"", b""),
        (b"procs 1\n", b"procs 1\n", b""),
        (b"procs 1\n---\nend 0\n", b"procs 1\n", b"end 0\n"),
        (b"---\nend 0\n", b"", b"end 0\n"),
        (b"procs 1\n---", b"procs 1\n", b""),
        (b"a\n---\nb\n---\nc", b"a\n", b"b\n---\nc"),
        (
            b"a---\n---b\n --- \n----\n",
            b"a---\n---b\n --- \n----\n",
            b"",
        ),
        (b"a\n--- \n--", b"a\n--- \n--", b""),
        (b"\n---\n\n", b"\n", b"\n"),
    ];
    for (input, script, text) in cases {
        let parts = separate(input);
        assert!(rt; parts.script == script, "the script in {input:?}");
        assert!(rt; parts.text == text, "the record in {input:?}");
    }
}

#[test]
fn statuses_have_the_numbers_0_to_6(rt: HostRuntime) {
    let statuses = [
        Status::Ok,
        Status::Unlawful,
        Status::Usage,
        Status::Refused,
        Status::ReadFault,
        Status::WriteFault,
        Status::Memory,
    ];
    let mut number = 0;
    for status in statuses {
        assert!(rt; status.number() == number, "of {status:?}");
        number += 1;
    }
}

/// How many entries the record has that stands in the input, or the line at which it is none.
fn record_of(rt: &impl Abort, alloc: Global, input: &[u8]) -> Result<usize, u32> {
    assert!(rt; input.len() <= INPUT_BYTES);
    let parts = separate(input);
    let script = parse(alloc, parts.script).expect(rt, "a script");
    match record_in(alloc, &script, input, parts.text).expect(rt, "memory") {
        RecordFound::Spelled(written) => Ok(written.lines.len()),
        RecordFound::Misspelt(line) => Err(line),
    }
}

#[test]
fn a_record_is_found_or_the_line_at_which_it_is_none(rt: HostRuntime) {
    let cases: [(&[u8], Result<usize, u32>); 4] = [
        (b"procs 1\n---\nk42 record 1\nend 0\n", Ok(0)),
        (b"procs 1\n", Err(1)),
        (b"procs 1\n---\nk42 record 1\nend 1\n", Err(2)),
        (b"procs 1\n---\nk42 record 1\nend 0\n---\n", Err(3)),
    ];
    for (input, found) in cases {
        assert!(rt; record_of(&rt, rt.alloc(), input) == found, "in {input:?}");
    }
}

/// The words of a command line, as the system hands them over.
fn handed_over(rt: &impl Abort, alloc: Global, line: &str) -> Args {
    let mut words = Vec::new(alloc);
    for word in line.split_whitespace() {
        let word = word.to_string(alloc).expect(rt, "memory");
        words.push(word).expect(rt, "memory");
    }
    words.into_iter()
}

#[test]
fn words_are_told_where_there_is_memory(rt: HostRuntime) {
    let cases = [("k42 run 2", 2), ("k42 check", 1), ("k42", 0), ("", 0)];
    for (line, count) in cases {
        let args = handed_over(&rt, rt.alloc(), line);
        let words = words_of(rt.alloc(), Ok(args)).expect(&rt, "memory");
        assert!(rt; words.len() == count, "of {line:?}");
    }
}

#[test]
fn words_that_are_not_to_be_had_are_one_empty_word(rt: HostRuntime) {
    for cause in [
        ErrorKind::InvalidData,
        ErrorKind::PermissionDenied,
        ErrorKind::NotFound,
        ErrorKind::Interrupted,
        ErrorKind::Unsupported,
        ErrorKind::Other,
    ] {
        let args = Err(io::Error::from(cause));
        let words = words_of(rt.alloc(), args).expect(&rt, "memory");
        assert!(rt; words.len() == 1 && words[0].is_empty());
    }
}
