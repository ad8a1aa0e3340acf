//! Scripts that are run: their answers, their numbers, and what their gate is told.
ghost use Rattle.std.specs.Prelude.{◌≤◌};
ghost use Rattle.script_text.specs.Lawful.{IsLawful};
ghost use Rattle.script_text.specs.Sound.{IsSound};

use crossbeam_utils::Backoff;
use k42_kinds::{Answer, Entry, Op, Reply};
use k42_workers::{FreeGate, Gate, Summary, run_script, summary};
use script_text::{ParseEnd, Script, generate, parse};
use std::alloc::Global;
use std::process::Abort;
use std::sync::Wait;
use std::sync::atomic::{AtomicU32, Ordering};
use std::thread::Threads;

/// An add, a swap and a get, by one worker.
const SWAPPED: &[u8] =
    b"procs 1\nobject hits counter shared\nworker a 0\nhits add 5\nswap hits spread\nhits get\n";

/// A worker watches a counter across a swap, and asks for its count, in an activity too.
const WATCHED: &[u8] =
    b"procs 1\nobject hits counter shared\nworker a 0\nhits add 5\nwatch hits\nhits get\nswap hits spread\nbegin\nhits seen\nhits add 1\nhits seen\nend\nunwatch hits\nhits seen\n";

/// Two workers add and get on two processors.
const TWO_WORKERS: &[u8] =
    b"procs 2\nobject hits counter spread\nworker a 0\nhits add 5\nhits get\nworker b 1\nhits add 7\nhits get\n";

/// Sixteen workers add on eight processors.
const SIXTEEN_WORKERS: &[u8] =
    b"procs 8\nobject hits counter spread\nworker w0 0\nhits add 1\nworker w1 1\nhits add 1\nworker w2 2\nhits add 1\nworker w3 3\nhits add 1\n\
worker w4 4\nhits add 1\nworker w5 5\nhits add 1\nworker w6 6\nhits add 1\nworker w7 7\nhits add 1\n\
worker w8 0\nhits add 1\nworker w9 1\nhits add 1\nworker w10 2\nhits add 1\nworker w11 3\nhits add 1\n\
worker w12 4\nhits add 1\nworker w13 5\nhits add 1\nworker w14 6\nhits add 1\nworker w15 7\nhits add 1\n";

/// The entries of the script's run.
fn run<R: Threads + Abort + Wait + Sync, G: Gate + Sync>(
    rt: &R,
    alloc: Global,
    script: &Script,
    gate: &G,
) -> Vec<Entry<Op, Reply>>
    requires { IsSound script.now }
    ensures { IsLawful script.now result.items }
{
    let history = run_script(rt, alloc, script, gate).expect(rt, "memory");
    history.collect(alloc).expect(rt, "memory")
}

/// What the load of so many steps comes to.
fn summed<R: Threads + Abort + Wait + Sync>(rt: &R, alloc: Global, steps: u32) -> Summary
    requires { (1 ≤ steps) × (steps ≤ 10000) }
{
    let script = generate(alloc, steps).expect(rt, "memory");
    let entries = run(rt, alloc, &script, &FreeGate);
    summary(alloc, &script, &entries).expect(rt, "memory")
}

#[test]
fn a_get_after_a_swap_has_what_was_added_before(rt: HostRuntime) {
    let script = parse(rt.alloc(), SWAPPED).expect(&rt, "a script");
    let entries = run(&rt, rt.alloc(), &script, &FreeGate);
    assert_eq!(rt; entries.len(), 3);
    assert_eq!(rt; entries[0].answer, Answer::Replied(Reply::Done));
    assert_eq!(rt; entries[1].answer, Answer::Swapped(1));
    assert_eq!(rt; entries[2].answer, Answer::Replied(Reply::Number(5)));
    assert_eq!(rt; entries[2].incarnation, 1);
}

#[test]
fn a_watched_counter_tells_its_calls_and_an_unwatched_one_none(rt: HostRuntime) {
    let script = parse(rt.alloc(), WATCHED).expect(&rt, "a script");
    let entries = run(&rt, rt.alloc(), &script, &FreeGate);
    let due = [
        (0, Answer::Replied(Reply::Done)),
        (0, Answer::Swapped(1)),
        (1, Answer::Replied(Reply::Number(5))),
        (1, Answer::Swapped(2)),
        (2, Answer::Replied(Reply::Number(1))),
        (2, Answer::Replied(Reply::Done)),
        (2, Answer::Replied(Reply::Number(2))),
        (2, Answer::Swapped(3)),
        (3, Answer::Replied(Reply::None)),
    ];
    assert_eq!(rt; entries.len(), due.len());
    for (entry, (incarnation, answer)) in entries.iter().zip(due.iter()) {
        assert_eq!(rt; entry.incarnation, *incarnation);
        assert_eq!(rt; entry.answer, *answer);
    }
}

#[test]
fn a_script_without_lines_has_an_empty_history(rt: HostRuntime) {
    for bytes in [
        b"procs 1\n".as_slice(),
        b"procs 2\nworker a 1\nbegin\nend\n".as_slice(),
    ] {
        let script = parse(rt.alloc(), bytes).expect(&rt, "a script");
        let entries = run(&rt, rt.alloc(), &script, &FreeGate);
        assert_eq!(rt; entries.len(), 0);
    }
}

#[test]
fn a_load_of_one_step_adds_its_value(rt: HostRuntime) {
    let told = summed(&rt, rt.alloc(), 1);
    let due = Summary {
        calls: 1,
        total: 1_817_669_548,
        names: 0,
        dirty: 0,
        swaps: 0,
    };
    assert!(rt; told == due);
}

#[test]
fn a_load_of_a_thousand_steps_swaps_three_times(rt: HostRuntime) {
    let told = summed(&rt, rt.alloc(), 1000);
    let due = Summary {
        calls: 997,
        total: 707_566_935_888,
        names: 98,
        dirty: 281,
        swaps: 3,
    };
    assert!(rt; told == due);
}

/// Waits until there are so many, for so many turns at most. Once somebody has waited in vain, nobody waits.
fn wait_for(count: &AtomicU32, least: u32, late: &AtomicU32) {
    let backoff = Backoff::new();
    for _ in 0..10_000_000 {
        if count.load(Ordering::SeqCst) >= least || late.load(Ordering::SeqCst) > 0 {
            return;
        }
        backoff.snooze();
    }
    late.fetch_add(1, Ordering::SeqCst);
}

/// Holds the first lines of the workers until all are there.
#[derive(Drop)]
struct Meeting {
    first: u64,
    all: u32,
    there: AtomicU32,
    late: AtomicU32,
}

impl Meeting {
    /// A gate for so many workers, whose first lines have these numbers, all below 64.
    fn at_lines(first: &[u32], all: u32) -> Meeting {
        Meeting {
            first: first
                .iter()
                .fold(0, |bits, &line| bits | 1u64.wrapping_shl(line)),
            all,
            there: AtomicU32::new(0),
            late: AtomicU32::new(0),
        }
    }

    /// Whether a worker has waited in vain.
    fn is_late(&self) -> bool {
        self.late.load(Ordering::SeqCst) > 0
    }
}

impl Gate for Meeting {
    fn at(&self, _worker: u32, line: u32, before: bool) {
        if !before || self.first & 1u64.wrapping_shl(line) == 0 {
            return;
        }
        self.there.fetch_add(1, Ordering::SeqCst);
        wait_for(&self.there, self.all, &self.late);
    }
}

/// Runs the script under a gate that holds these lines of so many workers, and counts its entries.
fn entries_held_at<R: Threads + Abort + Wait + Sync>(
    rt: &R,
    alloc: Global,
    script: &Script,
    first: &[u32],
    all: u32,
) -> usize
    requires { IsSound script.now }
{
    let gate = Meeting::at_lines(first, all);
    let entries = run(rt, alloc, script, &gate);
    assert_eq!(rt; gate.there.load(Ordering::SeqCst), gate.all);
    assert!(rt; !gate.is_late());
    entries.len()
}

#[test]
fn workers_reach_their_first_lines_side_by_side(rt: HostRuntime) {
    let sixteen = [4, 6, 8, 10, 12, 14, 16, 18, 20, 22, 24, 26, 28, 30, 32, 34];
    for (bytes, first, all, due) in [
        (TWO_WORKERS, [4u32, 7].as_slice(), 2, 4),
        (SIXTEEN_WORKERS, sixteen.as_slice(), 16, 16),
    ] {
        let script = parse(rt.alloc(), bytes).expect(&rt, "a script");
        assert!(rt; entries_held_at(&rt, rt.alloc(), &script, first, all) == due);
    }
}

#[test]
fn the_workers_of_a_load_reach_their_first_lines_side_by_side(rt: HostRuntime) {
    let script = generate(rt.alloc(), 8).expect(&rt, "memory");
    let first = [6, 9, 12, 15].as_slice();
    assert!(rt; entries_held_at(&rt, rt.alloc(), &script, first, 4) == 8);
}

/// Two workers, of which the second adds, swaps, asks in an activity, and destroys.
const SECOND_WORKS: &[u8] =
    b"procs 2\nobject hits counter spread\nworker a 0\nworker b 1\nhits add 5\nswap hits shared\nbegin\nhits get\nend\ndestroy hits\n";

/// What its gate is to hear: worker, line, and whether it comes before the line.
const HEARD: [(u32, u32, bool); 8] = [
    (1, 5, true),
    (1, 5, false),
    (1, 6, true),
    (1, 6, false),
    (1, 8, true),
    (1, 8, false),
    (1, 10, true),
    (1, 10, false),
];

/// Counts what it is told, and what of it was not to be heard then.
#[derive(Drop)]
struct Listening {
    told: AtomicU32,
    astray: AtomicU32,
}

impl Gate for Listening {
    fn at(&self, worker: u32, line: u32, before: bool) {
        let place = self.told.fetch_add(1, Ordering::SeqCst);
        if HEARD.get(place as usize) != Some(&(worker, line, before)) {
            self.astray.fetch_add(1, Ordering::SeqCst);
        }
    }
}

#[test]
fn the_gate_is_told_of_its_worker_before_and_after_each_line(rt: HostRuntime) {
    let script = parse(rt.alloc(), SECOND_WORKS).expect(&rt, "a script");
    let gate = Listening {
        told: AtomicU32::new(0),
        astray: AtomicU32::new(0),
    };
    let entries = run(&rt, rt.alloc(), &script, &gate);
    assert_eq!(rt; entries.len(), 4);
    assert_eq!(rt; gate.told.load(Ordering::SeqCst), 8);
    assert_eq!(rt; gate.astray.load(Ordering::SeqCst), 0);
}

/// One worker adds beside another that gets.
const AN_ADD_BESIDE_GETS: &[u8] =
    b"procs 2\nobject hits counter shared\nworker a 0\nhits add 5\nworker b 1\nhits get\nhits get\nhits get\nhits get\nhits get\n";

/// Holds the add before and behind its line until the other worker has done a get since, and that worker behind two of
/// its gets until the add has come so far.
#[derive(Drop)]
struct Holding {
    /// Whether the add is held before its line (1) or behind it (2).
    at: AtomicU32,
    /// Whether the get is done for which it is held.
    done: AtomicU32,
    late: AtomicU32,
}

impl Holding {
    /// Tells that the add is held, and holds it.
    fn hold(&self, at: u32) {
        self.at.store(at, Ordering::SeqCst);
        wait_for(&self.done, at, &self.late);
    }
}

impl Gate for Holding {
    fn at(&self, _worker: u32, line: u32, before: bool) {
        // A line is done where the next one is told of.
        match (line, before) {
            (4, true) => self.hold(1),
            (4, false) => self.hold(2),
            (6, false) => wait_for(&self.at, 1, &self.late),
            (8, true) => self.done.store(1, Ordering::SeqCst),
            (8, false) => wait_for(&self.at, 2, &self.late),
            (10, true) => self.done.store(2, Ordering::SeqCst),
            _ => (),
        }
    }
}

/// What the second worker was answered by its line of this place.
fn got(entries: &[Entry<Op, Reply>], place: u64) -> Option<Answer<Reply>> {
    for entry in entries {
        if entry.caller == 1 && entry.index == place {
            return Some(entry.answer);
        }
    }
    None
}

#[test]
fn a_line_is_done_between_what_the_gate_hears_of_it(rt: HostRuntime) {
    let script = parse(rt.alloc(), AN_ADD_BESIDE_GETS).expect(&rt, "a script");
    let gate = Holding {
        at: AtomicU32::new(0),
        done: AtomicU32::new(0),
        late: AtomicU32::new(0),
    };
    let entries = run(&rt, rt.alloc(), &script, &gate);
    assert_eq!(rt; gate.late.load(Ordering::SeqCst), 0);
    let before = Some(Answer::Replied(Reply::Number(0)));
    assert!(rt; got(entries.as_slice(), 1) == before);
    let after = Some(Answer::Replied(Reply::Number(5)));
    assert!(rt; got(entries.as_slice(), 3) == after);
}
