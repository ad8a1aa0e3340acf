//! Known histories: the texts of their records, and that these are read back.
mod conditions;
mod judging;
mod watching;

use conditions::{has_lines, has_text, is_version};
use k42_items::Items;
use k42_kinds::{Act, Answer, Entry, KindName, LayoutName, Name, Op, Reply, Text, To};
use k42_limits::{CALLERS, OBJECTS};
use record_text::*;
use script_text::{CallLine, Item, ObjectLine, Script, WorkerLines};
use std::alloc::Global;
use std::process::Abort;

/// An entry: its caller, the index of its line, and what came of it.
#[derive(Drop)]
struct Told {
    caller: u32,
    index: u64,
    act: Act<Op>,
    answer: Answer<Reply>,
    incarnation: u32,
    generation: Option<u32>,
}

/// A script of one object, and the text of a history of it.
#[derive(Drop)]
struct Case {
    shows: &'static str,
    object: &'static [u8],
    kind: KindName,
    /// Each worker's name is one letter.
    workers: &'static [u8],
    version: u32,
    text: &'static [u8],
}

/// A line of a script: its worker, its number and its act.
type Line = (u32, u32, Act<Op>);

fn name(rt: &impl Abort, bytes: &[u8]) -> Name {
    Name::of(bytes).expect(rt, "a name")
}

fn worker_of(
    rt: &impl Abort,
    alloc: Global,
    lines: &[Line],
    number: usize,
    letter: u8,
) -> WorkerLines {
    let mut items = Items::new(alloc);
    items.push(Item::Begin).expect(rt, "memory");
    for (worker, line, act) in lines {
        if *worker as usize == number {
            let item = Item::Line(CallLine {
                line: *line,
                object: 0,
                act: *act,
            });
            items.push(item).expect(rt, "memory");
        }
    }
    items.push(Item::End).expect(rt, "memory");
    WorkerLines {
        name: name(rt, &[letter]),
        proc: 0,
        items,
    }
}

fn script_of(rt: &impl Abort, alloc: Global, case: &Case, lines: &[Line]) -> Script {
    let mut workers = Items::new(alloc);
    for (number, letter) in case.workers.iter().enumerate() {
        let worker = worker_of(rt, alloc, lines, number, *letter);
        workers.push(worker).expect(rt, "memory");
    }
    let mut objects = Items::new(alloc);
    let object = ObjectLine {
        name: name(rt, case.object),
        kind: case.kind,
        layout: LayoutName::Shared,
    };
    objects.push(object).expect(rt, "memory");
    Script {
        procs: 1,
        objects,
        workers,
    }
}

fn entries_of(rt: &impl Abort, alloc: Global, told: &[Told]) -> Vec<Entry<Op, Reply>> {
    let mut entries = Vec::new(alloc);
    for (i, told) in told.iter().enumerate() {
        let entry = Entry {
            stamp: i as u64 + 1,
            caller: told.caller,
            index: told.index,
            object: 0,
            incarnation: told.incarnation,
            cell: 0,
            act: told.act,
            answer: told.answer,
            proc: 0,
            generation: told.generation,
        };
        entries.push(entry).expect(rt, "memory");
    }
    entries
}

/// The text of a record is read as this record.
fn expect_read_back(rt: &impl Abort, alloc: Global, script: &Script, lines: &Record, text: &[u8]) {
    assert!(rt; script.objects.len() <= OBJECTS && script.workers.len() <= CALLERS);
    assert!(rt; text.len() < 1 << 31);
    let again = read(alloc, script, text).expect(rt, "a record");
    assert!(rt; again.version == lines.version);
    assert!(rt; again.lines.as_slice() == lines.lines.as_slice());
}

fn text_of(rt: &impl Abort, alloc: Global, case: &Case, lines: &[Line], told: &[Told]) -> Vec<u8> {
    let script = script_of(rt, alloc, case, lines);
    let entries = entries_of(rt, alloc, told);
    let version = case.version;
    assert!(rt; is_version(version), "{}", case.shows);
    assert!(rt;
        has_lines(rt, alloc, &script, entries.as_slice()),
        "{}",
        case.shows
    );
    let lines = lines_of(alloc, &script, &entries, version).expect(rt, "memory");
    assert!(rt; has_text(&script, &lines), "{}", case.shows);
    let text = print(alloc, &script, &lines).expect(rt, "memory");
    expect_read_back(rt, alloc, &script, &lines, text.as_slice());
    text
}

fn expect_text(rt: &impl Abort, alloc: Global, case: &Case, lines: &[Line], told: &[Told]) {
    let text = text_of(rt, alloc, case, lines, told);
    assert!(rt; text.as_slice() == case.text, "{}", case.shows);
}

fn call(op: Op) -> Act<Op> {
    Act::Call(op)
}

fn add(amount: u32) -> Act<Op> {
    call(Op::Add(amount))
}

fn swap(layout: LayoutName) -> Act<Op> {
    Act::Swap(To::Layout(layout.number()))
}

/// The reply to a call in an activity of the first generation.
fn reply(caller: u32, index: u64, act: Act<Op>, reply: Reply, incarnation: u32) -> Told {
    Told {
        caller,
        index,
        act,
        answer: Answer::Replied(reply),
        incarnation,
        generation: Some(0),
    }
}

/// The end of a swap.
fn end(caller: u32, index: u64, act: Act<Op>, answer: Answer<Reply>, incarnation: u32) -> Told {
    Told {
        caller,
        index,
        act,
        answer,
        incarnation,
        generation: None,
    }
}

#[test]
fn calls_of_a_counter(rt: HostRuntime) {
    let alloc = rt.alloc();
    expect_text(
        &rt,
        alloc,
        &Case {
            shows: "two workers in turns, each with its name and its own line numbers",
            object: b"hits",
            kind: KindName::Counter,
            workers: b"ab",
            version: 1,
            text: b"k42 record 1\n\
                1 a 4 hits add 5 = ok @0\n\
                2 b 7 hits add 7 = ok @0\n\
                3 b 8 hits get = 12 @0\n\
                4 a 5 hits get = 12 @0\n\
                end 4\n",
        },
        &[
            (0, 4, add(5)),
            (0, 5, call(Op::Get)),
            (1, 7, add(7)),
            (1, 8, call(Op::Get)),
        ],
        &[
            reply(0, 0, add(5), Reply::Done, 0),
            reply(1, 0, add(7), Reply::Done, 0),
            reply(1, 1, call(Op::Get), Reply::Number(12), 0),
            reply(0, 1, call(Op::Get), Reply::Number(12), 0),
        ],
    );
}

#[test]
fn swaps_and_destroys(rt: HostRuntime) {
    let alloc = rt.alloc();
    let get_after = Told {
        caller: 0,
        index: 2,
        act: call(Op::Get),
        answer: Answer::Replied(Reply::Number(5)),
        incarnation: 1,
        generation: Some(1),
    };
    let swapped: &[Told] = &[
        reply(0, 0, add(5), Reply::Done, 0),
        end(0, 1, swap(LayoutName::Spread), Answer::Swapped(1), 0),
        get_after,
    ];
    let swap_lines: &[(u32, u32, Act<Op>)] = &[
        (0, 4, add(5)),
        (0, 5, swap(LayoutName::Spread)),
        (0, 6, call(Op::Get)),
    ];
    expect_text(
        &rt,
        alloc,
        &Case {
            shows: "the same in version 2",
            object: b"hits",
            kind: KindName::Counter,
            workers: b"a",
            version: 2,
            text: b"k42 record 2\n\
                1 a 4 hits add 5 = ok @0 p0 g0\n\
                2 a 5 swap hits spread = done 1 @0 p0 g-\n\
                3 a 6 hits get = 5 @1 p0 g1\n\
                end 3\n",
        },
        swap_lines,
        swapped,
    );
    expect_text(
        &rt,
        alloc,
        &Case {
            shows: "an object that is dead",
            object: b"hits",
            kind: KindName::Counter,
            workers: b"a",
            version: 1,
            text: b"k42 record 1\n\
                1 a 4 destroy hits = done 1 @0\n\
                2 a 5 hits get = gone @1\n\
                3 a 6 swap hits shared = gone @1\n\
                4 a 7 destroy hits = gone @1\n\
                end 4\n",
        },
        &[
            (0, 4, Act::Swap(To::Dead)),
            (0, 5, call(Op::Get)),
            (0, 6, swap(LayoutName::Shared)),
            (0, 7, Act::Swap(To::Dead)),
        ],
        &[
            end(0, 0, Act::Swap(To::Dead), Answer::Swapped(1), 0),
            reply(0, 1, call(Op::Get), Reply::Gone, 1),
            end(0, 2, swap(LayoutName::Shared), Answer::Gone, 1),
            end(0, 3, Act::Swap(To::Dead), Answer::Gone, 1),
        ],
    );
    expect_text(
        &rt,
        alloc,
        &Case {
            shows: "a swap that is refused",
            object: b"hits",
            kind: KindName::Counter,
            workers: b"ab",
            version: 1,
            text: b"k42 record 1\n\
                1 a 4 swap hits spread = done 1 @0\n\
                2 b 6 swap hits spread = busy 1 @0\n\
                3 b 7 swap hits shared = spent @1\n\
                end 3\n",
        },
        &[
            (0, 4, swap(LayoutName::Spread)),
            (1, 6, swap(LayoutName::Spread)),
            (1, 7, swap(LayoutName::Shared)),
        ],
        &[
            end(0, 0, swap(LayoutName::Spread), Answer::Swapped(1), 0),
            end(1, 0, swap(LayoutName::Spread), Answer::Busy(1), 0),
            end(1, 1, swap(LayoutName::Shared), Answer::Spent, 1),
        ],
    );
}

#[test]
fn calls_of_a_directory(rt: HostRuntime) {
    let x = name(&rt, b"x");
    let acts = [
        (0, 4, Act::Call(Op::Bind(x, 1))),
        (0, 5, Act::Call(Op::Bind(x, 2))),
        (0, 6, Act::Call(Op::Find(x))),
        (0, 7, Act::Call(Op::Unbind(x))),
        (0, 8, Act::Call(Op::Unbind(x))),
        (0, 9, Act::Call(Op::Size)),
    ];
    let case = Case {
        shows: "a name is bound, found and unbound",
        object: b"d",
        kind: KindName::Directory,
        workers: b"a",
        version: 1,
        text: b"k42 record 1\n\
            1 a 4 d bind x 1 = ok @0\n\
            2 a 5 d bind x 2 = taken @0\n\
            3 a 6 d find x = 1 @0\n\
            4 a 7 d unbind x = 1 @0\n\
            5 a 8 d unbind x = none @0\n\
            6 a 9 d size = 0 @0\n\
            end 6\n",
    };
    expect_text(
        &rt,
        rt.alloc(),
        &case,
        &acts,
        &[
            reply(0, 0, acts[0].2, Reply::Done, 0),
            reply(0, 1, acts[1].2, Reply::Taken, 0),
            reply(0, 2, acts[2].2, Reply::Number(1), 0),
            reply(0, 3, acts[3].2, Reply::Number(1), 0),
            reply(0, 4, acts[4].2, Reply::None, 0),
            reply(0, 5, acts[5].2, Reply::Number(0), 0),
        ],
    );
}

#[test]
fn calls_of_pages(rt: HostRuntime) {
    let hello = Text::of(b"hello").expect(&rt, "a text");
    let acts = [
        (0, 4, Act::Call(Op::Read(0))),
        (0, 5, Act::Call(Op::Write(0, hello))),
        (0, 6, Act::Call(Op::Read(0))),
        (0, 7, Act::Call(Op::Dirty)),
        (0, 8, Act::Call(Op::Clean)),
        (0, 9, Act::Call(Op::Dirty)),
    ];
    let case = Case {
        shows: "a page is written, read and cleaned",
        object: b"p",
        kind: KindName::Pages,
        workers: b"a",
        version: 1,
        text: b"k42 record 1\n\
            1 a 4 p read 0 = zero @0\n\
            2 a 5 p write 0 hello = ok @0\n\
            3 a 6 p read 0 = text hello @0\n\
            4 a 7 p dirty = 1 @0\n\
            5 a 8 p clean = 1 @0\n\
            6 a 9 p dirty = 0 @0\n\
            end 6\n",
    };
    expect_text(
        &rt,
        rt.alloc(),
        &case,
        &acts,
        &[
            reply(0, 0, acts[0].2, Reply::Zero, 0),
            reply(0, 1, acts[1].2, Reply::Done, 0),
            reply(0, 2, acts[2].2, Reply::Text(hello), 0),
            reply(0, 3, acts[3].2, Reply::Number(1), 0),
            reply(0, 4, acts[4].2, Reply::Number(1), 0),
            reply(0, 5, acts[5].2, Reply::Number(0), 0),
        ],
    );
}

#[test]
fn a_record_of_65536_lines(rt: HostRuntime) {
    let alloc = rt.alloc();
    let mut lines = Vec::new(alloc);
    let mut entries = Vec::new(alloc);
    for i in 0u32..65536 {
        let done = reply(0, u64::from(i), add(7), Reply::Done, 0);
        lines.push((0, i + 4, add(7))).expect(&rt, "memory");
        entries.push(done).expect(&rt, "memory");
    }
    let case = Case {
        shows: "many lines",
        object: b"hits",
        kind: KindName::Counter,
        workers: b"a",
        version: 2,
        text: b"65536 a 65539 hits add 7 = ok @0 p0 g0\nend 65536\n",
    };
    let text = text_of(&rt, alloc, &case, lines.as_slice(), entries.as_slice());
    assert!(rt; text.as_slice().ends_with(case.text));
}

/// Two objects and one worker, whose names are as long as a name can be.
fn script_of_long_names(rt: &impl Abort, alloc: Global) -> Script {
    let mut objects = Items::new(alloc);
    for (object, kind) in [
        (b"directory_______", KindName::Directory),
        (b"pages_2_________", KindName::Pages),
    ] {
        let object = ObjectLine {
            name: name(rt, object),
            kind,
            layout: LayoutName::Spread,
        };
        objects.push(object).expect(rt, "memory");
    }
    let mut workers = Items::new(alloc);
    let worker = WorkerLines {
        name: name(rt, b"worker_of_record"),
        proc: 7,
        items: Items::new(alloc),
    };
    workers.push(worker).expect(rt, "memory");
    Script {
        procs: 8,
        objects,
        workers,
    }
}

/// A line whose numbers are the greatest of their types.
fn widest(object: u32, act: Act<Op>, answer: Answer<Reply>) -> RecordLine {
    RecordLine {
        stamp: u64::MAX,
        worker: 0,
        line: u32::MAX,
        object,
        act,
        answer,
        incarnation: u32::MAX,
        extra: Some(Extra {
            proc: u32::MAX,
            generation: match act {
                Act::Call(_) => Some(u32::MAX),
                _ => None,
            },
        }),
    }
}

#[test]
fn the_widest_lines(rt: HostRuntime) {
    let alloc = rt.alloc();
    let script = script_of_long_names(&rt, alloc);
    let key = name(&rt, b"abcdefghijklmnop");
    let text = Text::of(b"abcdefghijklmnopqrstuvwxyz012345").expect(&rt, "a text");
    let mut lines = Items::new(alloc);
    for line in [
        widest(
            0,
            call(Op::Bind(key, u64::MAX)),
            Answer::Replied(Reply::Taken),
        ),
        widest(1, call(Op::Write(1023, text)), Answer::Replied(Reply::Done)),
        widest(1, call(Op::Read(1023)), Answer::Replied(Reply::Text(text))),
        widest(0, call(Op::Size), Answer::Replied(Reply::Number(u64::MAX))),
        widest(1, Act::Swap(To::Dead), Answer::Busy(u32::MAX)),
    ] {
        lines.push(line).expect(&rt, "memory");
    }
    let record = Record { lines, version: 2 };
    assert!(rt; has_text(&script, &record));
    let text = print(alloc, &script, &record).expect(&rt, "memory");
    let want = b"k42 record 2\n\
        18446744073709551615 worker_of_record 4294967295 directory_______ bind \
        abcdefghijklmnop 18446744073709551615 = taken @4294967295 p4294967295 g4294967295\n\
        18446744073709551615 worker_of_record 4294967295 pages_2_________ write 1023 \
        abcdefghijklmnopqrstuvwxyz012345 = ok @4294967295 p4294967295 g4294967295\n\
        18446744073709551615 worker_of_record 4294967295 pages_2_________ read 1023 = \
        text abcdefghijklmnopqrstuvwxyz012345 @4294967295 p4294967295 g4294967295\n\
        18446744073709551615 worker_of_record 4294967295 directory_______ size = \
        18446744073709551615 @4294967295 p4294967295 g4294967295\n\
        18446744073709551615 worker_of_record 4294967295 destroy pages_2_________ = \
        busy 4294967295 @4294967295 p4294967295 g-\n\
        end 5\n";
    assert!(rt; text.as_slice() == want.as_slice());
    expect_read_back(&rt, alloc, &script, &record, text.as_slice());
}
