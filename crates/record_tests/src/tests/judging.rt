//! Records that are judged: lawful ones, and the first line and rule of others.
use super::conditions::has_text;
use super::name;
use k42_items::Items;
use k42_kinds::{Act, Answer, KindName, LayoutName, Op, Reply, To};
use k42_limits::{CALLERS, OBJECTS};
use record_text::*;
use script_text::{CallLine, Item, ObjectLine, Script, WorkerLines};
use std::alloc::Global;
use std::process::Abort;

const GET: Act<Op> = Act::Call(Op::Get);

/// A line of a record: its stamp, worker, number in the script, act, answer and incarnation.
type Said = (u64, u32, u32, Act<Op>, Answer<Reply>, u32);

/// A line of a script: its worker, its number and its act.
type Asked = (u32, u32, Act<Op>);

/// What is due: nothing, or a line and a rule.
pub type Due = Option<(u32, u32)>;

fn worker_with(
    rt: &impl Abort,
    alloc: Global,
    number: u32,
    letter: u8,
    asked: &[Asked],
) -> WorkerLines {
    let mut items = Items::new(alloc);
    for (worker, line, act) in asked {
        if *worker == number {
            let item = Item::Line(CallLine {
                line: *line,
                object: 0,
                act: *act,
            });
            items.push(item).expect(rt, "memory");
        }
    }
    WorkerLines {
        name: name(rt, &[letter]),
        proc: number,
        items,
    }
}

/// The counter `hits`.
fn objects(rt: &impl Abort, alloc: Global) -> Items<ObjectLine> {
    let mut objects = Items::new(alloc);
    let hits = ObjectLine {
        name: name(rt, b"hits"),
        kind: KindName::Counter,
        layout: LayoutName::Shared,
    };
    objects.push(hits).expect(rt, "memory");
    objects
}

/// A script with the counter `hits` and the workers `a` and `b`, each on its own processor.
fn script_with(rt: &impl Abort, alloc: Global, asked: &[Asked]) -> Script {
    let mut workers = Items::new(alloc);
    let a = worker_with(rt, alloc, 0, b'a', asked);
    workers.push(a).expect(rt, "memory");
    let b = worker_with(rt, alloc, 1, b'b', asked);
    workers.push(b).expect(rt, "memory");
    Script {
        procs: 2,
        objects: objects(rt, alloc),
        workers,
    }
}

fn line_of(said: &Said, extra: Option<Extra>) -> RecordLine {
    RecordLine {
        stamp: said.0,
        worker: said.1,
        line: said.2,
        object: 0,
        act: said.3,
        answer: said.4,
        incarnation: said.5,
        extra,
    }
}

fn first_version(rt: &impl Abort, alloc: Global, said: &[Said]) -> Record {
    let mut lines = Items::new(alloc);
    for one in said {
        lines.push(line_of(one, None)).expect(rt, "memory");
    }
    Record { lines, version: 1 }
}

fn second_version(
    rt: &impl Abort,
    alloc: Global,
    said: &[Said],
    extras: &[(u32, Option<u32>)],
) -> Record {
    let mut lines = Items::new(alloc);
    for (one, (proc, generation)) in said.iter().zip(extras.iter()) {
        let extra = Extra {
            proc: *proc,
            generation: *generation,
        };
        lines.push(line_of(one, Some(extra))).expect(rt, "memory");
    }
    Record { lines, version: 2 }
}

pub fn verdict(rt: &impl Abort, alloc: Global, script: &Script, record: &Record) -> Due {
    assert!(rt; has_text(script, record));
    assert!(rt; script.workers.len() <= CALLERS && script.objects.len() <= OBJECTS);
    assert!(rt; record.lines.len() < 1 << 31);
    match check(alloc, script, record) {
        Ok(()) => None,
        Err(CheckEnd::Unlawful { line, rule }) => Some((line, rule)),
        Err(CheckEnd::Memory) => panic!(rt; "no memory"),
    }
}

fn expect(
    rt: &impl Abort,
    alloc: Global,
    shows: &'static str,
    asked: &[Asked],
    said: &[Said],
    due: Due,
) {
    let script = script_with(rt, alloc, asked);
    let record = first_version(rt, alloc, said);
    let found = verdict(rt, alloc, &script, &record);
    assert!(rt; found == due, "{}", shows);
}

const SPREAD: Act<Op> = Act::Swap(To::Layout(1));

const THREE: [Asked; 3] = [(0, 4, Act::Call(Op::Add(5))), (0, 5, SPREAD), (0, 6, GET)];

const FIRST: Said = (
    1,
    0,
    4,
    Act::Call(Op::Add(5)),
    Answer::Replied(Reply::Done),
    0,
);

const SECOND: Said = (2, 0, 5, SPREAD, Answer::Swapped(1), 0);

const THIRD: Said = (3, 0, 6, GET, Answer::Replied(Reply::Number(5)), 1);

const CHANGES: [(&'static str, [Said; 3], Due); 9] = [
    ("as it was done", [FIRST, SECOND, THIRD], None),
    (
        "another reply",
        [
            FIRST,
            SECOND,
            (3, 0, 6, GET, Answer::Replied(Reply::Number(6)), 1),
        ],
        Some((4, 5)),
    ),
    (
        "two lines exchanged",
        [
            (1, 0, 5, SPREAD, Answer::Swapped(1), 0),
            (
                2,
                0,
                4,
                Act::Call(Op::Add(5)),
                Answer::Replied(Reply::Done),
                1,
            ),
            THIRD,
        ],
        Some((2, 8)),
    ),
    (
        "another stamp",
        [FIRST, (3, 0, 5, SPREAD, Answer::Swapped(1), 0), THIRD],
        Some((3, 2)),
    ),
    (
        "a later swap's number",
        [FIRST, (2, 0, 5, SPREAD, Answer::Swapped(2), 0), THIRD],
        Some((3, 6)),
    ),
    (
        "another line's number",
        [
            (
                1,
                0,
                9,
                Act::Call(Op::Add(5)),
                Answer::Replied(Reply::Done),
                0,
            ),
            SECOND,
            THIRD,
        ],
        Some((2, 8)),
    ),
    (
        "another amount",
        [
            (
                1,
                0,
                4,
                Act::Call(Op::Add(6)),
                Answer::Replied(Reply::Done),
                0,
            ),
            SECOND,
            THIRD,
        ],
        Some((2, 8)),
    ),
    (
        "another form of reply",
        [
            FIRST,
            SECOND,
            (3, 0, 6, GET, Answer::Replied(Reply::Done), 1),
        ],
        Some((4, 5)),
    ),
    (
        "an earlier incarnation",
        [
            FIRST,
            SECOND,
            (3, 0, 6, GET, Answer::Replied(Reply::Number(5)), 0),
        ],
        Some((4, 5)),
    ),
];

#[test]
fn one_change_breaks_one_rule(rt: HostRuntime) {
    let alloc = rt.alloc();
    for (shows, said, due) in &CHANGES {
        expect(&rt, alloc, shows, &THREE, said, *due);
    }
}

/// The worker `a` adds twice in one block, and once more in another.
fn script_of_blocks(rt: &impl Abort, alloc: Global) -> Script {
    let mut items = Items::new(alloc);
    for block in [[5, 6], [9, 10]] {
        items.push(Item::Begin).expect(rt, "memory");
        for line in block {
            let item = Item::Line(CallLine {
                line,
                object: 0,
                act: Act::Call(Op::Add(1)),
            });
            items.push(item).expect(rt, "memory");
        }
        items.push(Item::End).expect(rt, "memory");
    }
    let mut workers = Items::new(alloc);
    let worker = WorkerLines {
        name: name(rt, b"a"),
        proc: 0,
        items,
    };
    workers.push(worker).expect(rt, "memory");
    Script {
        procs: 2,
        objects: objects(rt, alloc),
        workers,
    }
}

const ADDED: [Said; 4] = [
    (
        1,
        0,
        5,
        Act::Call(Op::Add(1)),
        Answer::Replied(Reply::Done),
        0,
    ),
    (
        2,
        0,
        6,
        Act::Call(Op::Add(1)),
        Answer::Replied(Reply::Done),
        0,
    ),
    (
        3,
        0,
        9,
        Act::Call(Op::Add(1)),
        Answer::Replied(Reply::Done),
        0,
    ),
    (
        4,
        0,
        10,
        Act::Call(Op::Add(1)),
        Answer::Replied(Reply::Done),
        0,
    ),
];

const GENERATIONS: [(&'static str, [(u32, Option<u32>); 4], Due); 4] = [
    (
        "each block in one",
        [(0, Some(1)), (0, Some(1)), (0, Some(3)), (0, Some(3))],
        None,
    ),
    (
        "both in the same",
        [(0, Some(1)), (0, Some(1)), (0, Some(1)), (0, Some(1))],
        None,
    ),
    (
        "the first in two",
        [(0, Some(1)), (0, Some(2)), (0, Some(3)), (0, Some(3))],
        Some((3, 21)),
    ),
    (
        "the second in two",
        [(0, Some(1)), (0, Some(1)), (0, Some(2)), (0, Some(3))],
        Some((5, 21)),
    ),
];

#[test]
fn a_block_is_in_one_generation(rt: HostRuntime) {
    let alloc = rt.alloc();
    let script = script_of_blocks(&rt, alloc);
    for (shows, extras, due) in &GENERATIONS {
        let record = second_version(&rt, alloc, &ADDED, extras);
        let found = verdict(&rt, alloc, &script, &record);
        assert!(rt; found == *due, "{}", *shows);
    }
}

#[test]
fn a_record_of_many_refusals(rt: HostRuntime) {
    let alloc = rt.alloc();
    let mut asked = vec![in alloc; (0, 4, SPREAD)].expect(&rt, "memory");
    let mut said = Vec::new(alloc);
    for i in 0u32..32768 {
        let refused = (i as u64 + 1, 1, i + 7, SPREAD, Answer::Busy(1), 0);
        asked.push((1, i + 7, SPREAD)).expect(&rt, "memory");
        said.push(refused).expect(&rt, "memory");
    }
    let done = (32769, 0, 4, SPREAD, Answer::Swapped(1), 0);
    said.push(done).expect(&rt, "memory");
    expect(&rt, alloc, "many", asked.as_slice(), said.as_slice(), None);
}
