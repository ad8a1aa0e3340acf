//! Scripts with what they say, and others with the line and the cause by which they are refused.
ghost use Rattle.std.specs.Prelude.{◌≤◌};

use k42_kinds::{Act, KindName, LayoutName, Name, Op, Text, To};
use script_text::{
    CallLine, Item, ObjectLine, ParseEnd, Script, ScriptCause, ScriptFault, WorkerLines, parse,
};
use std::alloc::Global;
use std::process::Abort;

/// The processors, a counter and a worker, so that calls begin at line 4.
const HEAD: &[u8] = b"procs 1\nobject hits counter shared\nworker a 0\n";

/// The piece so many times over, between what stands before and behind it.
fn repeated(
    rt: &impl Abort,
    alloc: Global,
    before: &[u8],
    piece: &[u8],
    times: usize,
    behind: &[u8],
) -> Vec<u8> {
    let mut bytes = before.to_vec(alloc).expect(rt, "memory");
    for _ in 0..times {
        bytes.extend_from_slice(piece).expect(rt, "memory");
    }
    bytes.extend_from_slice(behind).expect(rt, "memory");
    bytes
}

/// These pieces, one behind the other.
fn joined(rt: &impl Abort, alloc: Global, before: &[u8], piece: &[u8], behind: &[u8]) -> Vec<u8> {
    [before, piece, behind].concat(alloc).expect(rt, "memory")
}

/// Why the bytes are no script, if they are none.
fn end_of(alloc: Global, bytes: &[u8]) -> Option<ParseEnd> {
    match parse(alloc, bytes) {
        Ok(_) => None,
        Err(end) => Some(end),
    }
}

/// The bytes, in which this piece is what matters, are refused so, or are a script.
fn expect_end(rt: &impl Abort, alloc: Global, bytes: &[u8], due: Option<ParseEnd>, piece: &[u8]) {
    let end = end_of(alloc, bytes);
    assert!(rt; end == due, "{end:?} of {piece:?}");
}

/// The only worker of the script.
fn only_worker<'a>(rt: &impl Abort, script: &'a Script) -> &'a WorkerLines {
    assert!(rt; script.workers.len() == 1);
    &script.workers.as_slice()[0]
}

/// The refusal of this line for this cause.
fn refusal(line: u32, cause: ScriptCause) -> ParseEnd {
    ParseEnd::Fault(ScriptFault { line, cause })
}

/// A line that asks this of the object of this place.
fn asks(line: u32, object: u32, act: Act<Op>) -> Item {
    Item::Line(CallLine { line, object, act })
}

/// A call of the first object.
fn call(line: u32, op: Op) -> Item {
    asks(line, 0, Act::Call(op))
}

#[test]
fn a_script_has_what_its_lines_say(rt: HostRuntime) {
    let text = b"# one counter\n\nprocs 8\n  object  hits counter   shared  \n   # its worker\n\
        worker hits 7\nhits add 4294967295\n\n hits add 0\nhits drain\nhits get";
    let script = parse(rt.alloc(), text).expect(&rt, "a script");
    let hits = Name::of(b"hits").expect(&rt, "a name");
    let object = ObjectLine {
        name: hits,
        kind: KindName::Counter,
        layout: LayoutName::Shared,
    };
    assert!(rt; script.procs == 8);
    assert!(rt; script.objects.as_slice() == [object].as_slice());
    let worker = only_worker(&rt, &script);
    assert!(rt; worker.name == hits && worker.proc == 7);
    let items = [
        call(7, Op::Add(4_294_967_295)),
        call(9, Op::Add(0)),
        call(10, Op::Drain),
        call(11, Op::Get),
    ];
    assert!(rt; worker.items.as_slice() == items.as_slice());
}

/// Compares the items of the worker that has these calls.
fn compare(rt: &impl Abort, alloc: Global, calls: &[u8], items: &[Item]) {
    let text = joined(rt, alloc, HEAD, calls, b"");
    let script = parse(alloc, &text).expect(rt, "a script");
    let worker = only_worker(rt, &script);
    assert!(rt;
        worker.items.as_slice() == items,
        "{} bytes of calls",
        calls.len()
    );
}

#[test]
fn calls_have_the_numbers_of_their_lines(rt: HostRuntime) {
    compare(&rt, rt.alloc(), b"", &[]);
    let sum = [call(4, Op::Add(5)), call(5, Op::Get)];
    compare(&rt, rt.alloc(), b"hits add 5\nhits get\n", &sum);
    let behind = b"hits drain\nhits add 1";
    let late = repeated(&rt, rt.alloc(), b"", b"\n", 1_000_000, behind);
    let last = [call(1_000_004, Op::Drain), call(1_000_005, Op::Add(1))];
    compare(&rt, rt.alloc(), &late, &last);
    let calls = b"hits add 4294967295\nhits add 4294967295\nhits drain\nhits get\n";
    let drained = [
        call(4, Op::Add(4_294_967_295)),
        call(5, Op::Add(4_294_967_295)),
        call(6, Op::Drain),
        call(7, Op::Get),
    ];
    compare(&rt, rt.alloc(), calls, &drained);
}

#[test]
fn a_script_may_end_after_each_of_its_lines(rt: HostRuntime) {
    let cases: [(&[u8], u32, usize, usize); 6] = [
        (b"procs 1", 1, 0, 0),
        (b"procs 1\n", 1, 0, 0),
        (b"procs 2\n\n# ~ is the last byte that shows\n   ", 2, 0, 0),
        (b"procs 3\nobject a_9 counter shared", 3, 1, 0),
        (b"procs 4\nobject hits counter shared\nworker a 3", 4, 1, 1),
        (
            b" procs   8 \nobject abcdefghijklmnop counter shared\nworker a 0\n",
            8,
            1,
            1,
        ),
    ];
    for (text, procs, objects, workers) in cases {
        let script = parse(rt.alloc(), text).expect(&rt, "a script");
        assert!(rt; script.procs == procs, "{text:?}");
        assert!(rt; script.objects.len() == objects, "{text:?}");
        assert!(rt; script.workers.len() == workers, "{text:?}");
    }
}

/// A script of so many processors has a worker on this one.
fn expect_worker_on(rt: &impl Abort, alloc: Global, procs: u8, proc: u8)
    requires { (procs ≤ 8) × (proc ≤ 8) }
{
    let count = [b'0' + procs];
    let object = b"\nobject o counter shared\n";
    let head = joined(rt, alloc, b"procs ", &count, object);
    let place = [b'0' + proc];
    let text = joined(rt, alloc, &head, b"worker w ", &place);
    let script = parse(alloc, &text).expect(rt, "a script");
    assert!(rt; script.procs == u32::from(procs));
    assert!(rt; only_worker(rt, &script).proc == u32::from(proc));
}

#[test]
fn there_are_1_to_8_processors_and_a_worker_on_any_of_them(rt: HostRuntime) {
    for procs in 1u8..=8 {
        for proc in 0..procs {
            expect_worker_on(&rt, rt.alloc(), procs, proc);
        }
    }
}

#[test]
fn only_the_bytes_from_32_to_126_stand_in_a_script(rt: HostRuntime) {
    for byte in 0u8..=255 {
        if byte != b'\n' {
            let text = joined(&rt, rt.alloc(), b"procs 1\n# ", &[byte], b"\n");
            let due = if matches!(byte, 32..=126) {
                None
            } else {
                Some(refusal(2, ScriptCause::BadByte))
            };
            expect_end(&rt, rt.alloc(), &text, due, &[byte]);
        }
    }
}

#[test]
fn a_script_without_processors_is_refused_at_its_last_line(rt: HostRuntime) {
    let cases: [(&[u8], u32); 6] = [
        (b"", 1),
        (b"\n", 1),
        (b"   ", 1),
        (b"# procs 1", 1),
        (b"\n  \n#\n", 3),
        (b"# a\n# b\n  # c", 3),
    ];
    for (text, line) in cases {
        let end = refusal(line, ScriptCause::ProcsExpected);
        expect_end(&rt, rt.alloc(), text, Some(end), text);
    }
}

/// Compares the refusals of these lines behind the head.
fn compare_refusals(
    rt: &impl Abort,
    alloc: Global,
    head: &[u8],
    cases: &[(&[u8], u32, ScriptCause)],
) {
    for (lines, line, cause) in cases {
        let text = joined(rt, alloc, head, lines, b"");
        let end = refusal(*line, *cause);
        expect_end(rt, alloc, &text, Some(end), lines);
    }
}

#[test]
fn the_first_line_must_give_1_to_8_processors(rt: HostRuntime) {
    let cases: [(&[u8], u32, ScriptCause); 16] = [
        (b"\xEF\xBB\xBFprocs 1", 1, ScriptCause::BadByte),
        (b"proc", 1, ScriptCause::ProcsExpected),
        (b"procs", 1, ScriptCause::UnknownWord),
        (b"procs ", 1, ScriptCause::UnknownWord),
        (b"procs 0", 1, ScriptCause::BadNumber),
        (b"procs 9", 1, ScriptCause::BadNumber),
        (b"procs 08", 1, ScriptCause::BadNumber),
        (b"procs +1", 1, ScriptCause::BadNumber),
        (b"procs 18446744073709551617", 1, ScriptCause::BadNumber),
        (b"procs 1 1", 1, ScriptCause::UnknownWord),
        (b"Procs 1", 1, ScriptCause::ProcsExpected),
        (b"procs\t1", 1, ScriptCause::BadByte),
        (b"procs 1\r\n", 1, ScriptCause::BadByte),
        (b"hits get now or never", 1, ScriptCause::ProcsExpected),
        (
            b"\nobject hits counter shared\nprocs 1",
            2,
            ScriptCause::ProcsExpected,
        ),
        (b"procs 1\nprocs 1", 2, ScriptCause::UnknownWord),
    ];
    compare_refusals(&rt, rt.alloc(), b"", &cases);
}

#[test]
fn each_cause_is_told_at_its_line(rt: HostRuntime) {
    let cases: [(&[u8], u32, ScriptCause); 38] = [
        (b"hits frob", 4, ScriptCause::UnknownWord),
        (b"hits", 4, ScriptCause::UnknownWord),
        (b"hits add", 4, ScriptCause::UnknownWord),
        (b"hits add 1 2", 4, ScriptCause::UnknownWord),
        (b"hits get 1", 4, ScriptCause::UnknownWord),
        (b"begin now", 4, ScriptCause::UnknownWord),
        (b"swap hits", 4, ScriptCause::UnknownWord),
        (b"swap hits round", 4, ScriptCause::UnknownWord),
        (b"destroy", 4, ScriptCause::UnknownWord),
        (b"hits watch", 4, ScriptCause::UnknownWord),
        (b"hits seen 1", 4, ScriptCause::UnknownWord),
        (b"worker b", 4, ScriptCause::UnknownWord),
        (b"object d list shared", 4, ScriptCause::UnknownWord),
        (b"object d counter wide", 4, ScriptCause::UnknownWord),
        (b"hits add 4294967296", 4, ScriptCause::BadNumber),
        (b"hits add 18446744073709551616", 4, ScriptCause::BadNumber),
        (b"hits add 05", 4, ScriptCause::BadNumber),
        (b"hits add -1", 4, ScriptCause::BadNumber),
        (b"hits read 1024", 4, ScriptCause::BadNumber),
        (
            b"hits bind x 18446744073709551616",
            4,
            ScriptCause::BadNumber,
        ),
        (b"worker b 1", 4, ScriptCause::BadNumber),
        (b"worker B 1", 4, ScriptCause::BadNumber),
        (b"worker B 0", 4, ScriptCause::BadName),
        (b"object Hits counter shared", 4, ScriptCause::BadName),
        (b"other find X", 4, ScriptCause::BadName),
        (
            b"p write 0 abcdefghijklmnopqrstuvwxyz0123456",
            4,
            ScriptCause::BadName,
        ),
        (b"object hits pages spread", 4, ScriptCause::NameTwice),
        (b"worker a 0", 4, ScriptCause::NameTwice),
        (b"other get", 4, ScriptCause::UnknownObject),
        (b"other seen", 4, ScriptCause::UnknownObject),
        (b"Hits get", 4, ScriptCause::UnknownObject),
        (b"swap other shared", 4, ScriptCause::UnknownObject),
        (b"hits size", 4, ScriptCause::WrongKind),
        (b"begin\nswap hits spread", 5, ScriptCause::BlockFault),
        (b"begin\nbegin", 5, ScriptCause::BlockFault),
        (b"begin\nworker b 0", 5, ScriptCause::BlockFault),
        (b"end", 4, ScriptCause::BlockFault),
        (b"begin\nhits get", 5, ScriptCause::BlockFault),
    ];
    compare_refusals(&rt, rt.alloc(), HEAD, &cases);
}

#[test]
fn a_watch_and_an_unwatch_are_refused_where_a_destroy_is(rt: HostRuntime) {
    let alloc = rt.alloc();
    let without_worker: &[u8] = b"procs 1\nobject hits counter shared\n";
    let open = joined(&rt, alloc, HEAD, b"begin\nhits seen\n", b"");
    let cases: [(&[u8], &[u8], u32, ScriptCause); 7] = [
        (b"", b" hits", 1, ScriptCause::ProcsExpected),
        (HEAD, b"", 4, ScriptCause::UnknownWord),
        (HEAD, b" hits spread", 4, ScriptCause::UnknownWord),
        (HEAD, b" get", 4, ScriptCause::UnknownObject),
        (HEAD, b" Hits", 4, ScriptCause::UnknownObject),
        (without_worker, b" hits", 3, ScriptCause::WorkerExpected),
        (open.as_slice(), b" hits", 6, ScriptCause::BlockFault),
    ];
    let words: [&[u8]; 3] = [b"destroy", b"watch", b"unwatch"];
    for word in words {
        for (head, behind, line, cause) in cases {
            let text = joined(&rt, alloc, head, word, behind);
            expect_end(&rt, alloc, &text, Some(refusal(line, cause)), behind);
        }
        let text = joined(&rt, alloc, HEAD, word, b" hits");
        expect_end(&rt, alloc, &text, None, word);
    }
}

#[test]
fn a_line_that_asks_something_stands_behind_a_worker_line(rt: HostRuntime) {
    let cases: [(&[u8], u32, ScriptCause); 8] = [
        (b"hits get", 3, ScriptCause::WorkerExpected),
        (b"hits seen", 3, ScriptCause::WorkerExpected),
        (b"begin", 3, ScriptCause::WorkerExpected),
        (b"end", 3, ScriptCause::WorkerExpected),
        (b"swap hits spread", 3, ScriptCause::WorkerExpected),
        (b"destroy hits", 3, ScriptCause::WorkerExpected),
        (b"hits size", 3, ScriptCause::WrongKind),
        (b"destroy other", 3, ScriptCause::UnknownObject),
    ];
    let head = b"procs 1\nobject hits counter shared\n";
    compare_refusals(&rt, rt.alloc(), head, &cases);
}

/// The word is no name of an object or a worker, and a key of a directory.
fn expect_key_only(rt: &impl Abort, alloc: Global, word: &[u8]) {
    let due = Some(refusal(2, ScriptCause::BadName));
    let object = joined(rt, alloc, b"procs 1\nobject ", word, b" counter shared");
    expect_end(rt, alloc, &object, due, word);
    let worker = joined(rt, alloc, b"procs 1\nworker ", word, b" 0");
    expect_end(rt, alloc, &worker, due, word);
    let head = b"procs 1\nobject d directory shared\nworker a 0\nd find ";
    let key = joined(rt, alloc, head, word, b"");
    expect_end(rt, alloc, &key, None, word);
}

#[test]
fn no_reserved_word_is_a_name_but_each_is_a_key(rt: HostRuntime) {
    let words: [&[u8]; 9] = [
        b"procs", b"object", b"worker", b"begin", b"end", b"swap", b"destroy", b"watch", b"unwatch",
    ];
    for word in words {
        expect_key_only(&rt, rt.alloc(), word);
    }
}

/// Lines that declare so many names, each a letter, behind a line of processors.
fn declared(rt: &impl Abort, alloc: Global, before: &[u8], behind: &[u8], times: u8) -> Vec<u8> {
    let mut text = b"procs 1\n".as_slice().to_vec(alloc).expect(rt, "memory");
    for place in 0..times.min(26) {
        let line = joined(rt, alloc, before, &[b'a' + place], behind);
        text.extend_from_slice(&line).expect(rt, "memory");
    }
    text
}

#[test]
fn there_are_at_most_16_objects_and_16_workers(rt: HostRuntime) {
    let lines: [(&[u8], &[u8]); 2] = [(b"object ", b" counter shared\n"), (b"worker ", b" 0\n")];
    for (before, behind) in lines {
        let full = declared(&rt, rt.alloc(), before, behind, 16);
        expect_end(&rt, rt.alloc(), &full, None, before);
        let over = declared(&rt, rt.alloc(), before, behind, 17);
        let end = refusal(18, ScriptCause::TooMany);
        expect_end(&rt, rt.alloc(), &over, Some(end), before);
    }
}

#[test]
fn each_worker_has_the_lines_behind_its_own(rt: HostRuntime) {
    let text = b"procs 2\nobject hits counter spread\nworker a 0\nbegin\nhits add 5\n\
        object d directory shared\nend\nswap hits shared\nworker hits 1\nd bind end 7\n\
        destroy d\nobject p pages shared\np write 1023 !~\n";
    let script = parse(rt.alloc(), text).expect(&rt, "a script");
    let end = Name::of(b"end").expect(&rt, "a name");
    let written = Text::of(b"!~").expect(&rt, "a text");
    let first = [
        Item::Begin,
        call(5, Op::Add(5)),
        Item::End,
        asks(8, 0, Act::Swap(To::Layout(0))),
    ];
    let second = [
        asks(10, 1, Act::Call(Op::Bind(end, 7))),
        asks(11, 1, Act::Swap(To::Dead)),
        asks(13, 2, Act::Call(Op::Write(1023, written))),
    ];
    let workers = script.workers.as_slice();
    assert!(rt; workers.len() == 2);
    assert!(rt; workers[0].items.as_slice() == first.as_slice());
    assert!(rt; workers[1].items.as_slice() == second.as_slice());
    assert!(rt; workers[1].proc == 1);
    let kinds = [KindName::Counter, KindName::Directory, KindName::Pages];
    for (object, kind) in script.objects.as_slice().iter().zip(kinds) {
        assert!(rt; object.kind == kind);
    }
}

#[test]
fn objects_of_each_kind_are_watched_and_tell_what_was_seen(rt: HostRuntime) {
    let text = b"procs 1\nobject hits counter shared\nobject d directory spread\n\
        object p pages shared\nworker a 0\nwatch hits\nwatch d\nwatch p\n\
        begin\nhits seen\nd seen\np seen\nend\nunwatch p\np seen\nunwatch p\n";
    let script = parse(rt.alloc(), text).expect(&rt, "a script");
    let items = [
        asks(6, 0, Act::Swap(To::Watch)),
        asks(7, 1, Act::Swap(To::Watch)),
        asks(8, 2, Act::Swap(To::Watch)),
        Item::Begin,
        asks(10, 0, Act::Call(Op::Seen)),
        asks(11, 1, Act::Call(Op::Seen)),
        asks(12, 2, Act::Call(Op::Seen)),
        Item::End,
        asks(14, 2, Act::Swap(To::Unwatch)),
        asks(15, 2, Act::Call(Op::Seen)),
        asks(16, 2, Act::Swap(To::Unwatch)),
    ];
    assert!(rt; only_worker(&rt, &script).items.as_slice() == items.as_slice());
}

#[test]
fn a_script_has_at_most_65536_calls(rt: HostRuntime) {
    let alloc = rt.alloc();
    let full = repeated(&rt, alloc, HEAD, b"hits drain\nhits add 7\n", 32_768, b"");
    let script = parse(alloc, &full).expect(&rt, "a script");
    let items = &only_worker(&rt, &script).items;
    assert!(rt; items.len() == 65_536);
    assert!(rt; items.as_slice()[65_534] == call(65_538, Op::Drain));
    assert!(rt; items.as_slice()[65_535] == call(65_539, Op::Add(7)));
    let end = Some(refusal(65_540, ScriptCause::TooMany));
    let over = repeated(&rt, alloc, HEAD, b"hits get\n", 65_537, b"");
    expect_end(&rt, alloc, &over, end, b"hits get\n");
    let watched = repeated(&rt, alloc, HEAD, b"watch hits\nhits seen\n", 32_768, b"");
    expect_end(&rt, alloc, &watched, None, b"hits seen\n");
    let over = joined(&rt, alloc, &watched, b"unwatch hits\n", b"");
    expect_end(&rt, alloc, &over, end, b"unwatch hits\n");
}

#[test]
fn a_script_has_at_most_1048576_bytes(rt: HostRuntime) {
    let cases: [(&[u8], &[u8], usize, &[u8], Option<u32>); 9] = [
        (b"procs 1\n", b" ", 1_048_568, b"", None),
        (b"procs 1\n", b" ", 1_048_569, b"", Some(2)),
        (b"procs 1\n#", b"x", 1_048_567, b"", None),
        (b"procs 1\n#", b"x", 1_048_568, b"", Some(2)),
        (b"procs 1\n", b" ", 1_048_567, b"\n", None),
        (b"procs 1\n", b" ", 1_048_568, b"\n", Some(2)),
        (b"procs 1\n", b" ", 1_048_567, b"\n\n", Some(3)),
        (b"procs 1\n", b"\n", 1_048_568, b"", None),
        (b"procs 1\n", b"\n", 1_048_569, b"", Some(1_048_570)),
    ];
    for (before, piece, times, behind, line) in cases {
        let text = repeated(&rt, rt.alloc(), before, piece, times, behind);
        let due = line.map(|line| refusal(line, ScriptCause::TooLong));
        expect_end(&rt, rt.alloc(), &text, due, piece);
    }
}
