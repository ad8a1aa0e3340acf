//! Five passes, six and sixteen, each on a thread of its own.
ghost use Rattle.k42_crews.specs.Ready.{AreFree};

use crate::tests::crews::{closed, crew_of};
use crate::tests::refusing::tried_by_all;
use crate::tests::sixteen::{SIXTEEN, entries_of_all, entries_of_many, late_of_all};
use crate::tests::staying::LongStay;
use crate::tests::swapping::{CALLS, ToAndFro};
use crate::tests::watching::{Instrument, figures_told, has_figure};
use co_system::{Pass, System};
use k42_crews::{call_once, work_all};
use k42_kinds::{Answer, Entry, KindName, Op, Reply};
use std::alloc::Global;
use std::process::Abort;
use std::sync::Wait;
use std::sync::atomic::Ordering;
use std::thread::Threads;

mod asking;
mod crews;
mod refusing;
mod sixteen;
mod staying;
mod swapping;
mod watching;

/// Asks once more, of the first pass, and is answered so.
fn ask_last<R: Abort + Wait>(
    rt: &R,
    alloc: Global,
    system: &System,
    passes: &mut [Pass],
    op: Op,
    due: Reply,
)
    requires { AreFree system.now passes.old }
    ensures { AreFree system.now passes.new }
{
    let Some((pass, _others)) = passes.split_first_mut() else {
        panic!(rt; "no pass");
    };
    let reply = call_once(rt, alloc, system, pass, 0, op).expect(rt, "a call");
    assert!(rt; reply == Some(due));
}

fn is_swap(entry: &Entry<Op, Reply>) -> bool {
    matches!(entry.answer, Answer::Swapped(_))
}

/// Whether these are the entries of the calls and as many swaps, and end with a call of the last implementation.
fn are_whole(entries: &[Entry<Op, Reply>], swaps: usize) -> bool {
    let Some(last) = entries.last() else {
        return false;
    };
    let calls = entries.iter().filter(|entry| !is_swap(entry)).count();
    calls == 4 * CALLS as usize + 1
        && entries.len() == calls.saturating_add(swaps)
        && last.incarnation as usize == swaps
}

/// Four passes call an object of the kind while a fifth swaps it. A last call is answered as all their calls are done.
fn stays_right<R: Threads + Abort + Wait + Sync>(
    rt: &R,
    alloc: Global,
    kind: KindName,
    op: Op,
    due: Reply,
) {
    let (system, mut passes) = crew_of(rt, alloc, kind, 2, &[0, 1, 0, 1, 0]);
    let load = ToAndFro::new(kind);
    work_all(rt, alloc, &system, &load, passes.as_mut_slice()).expect(rt, "memory");
    assert!(rt; load.late.load(Ordering::SeqCst) == 0);
    assert!(rt; load.done.load(Ordering::SeqCst) == 4);
    assert!(rt; load.wrong.load(Ordering::SeqCst) == 0);
    ask_last(rt, alloc, &system, passes.as_mut_slice(), op, due);
    let entries = closed(rt, alloc, system, passes);
    let swaps = load.swaps.load(Ordering::SeqCst).saturating_sub(3);
    assert!(rt; swaps >= 3);
    assert!(rt; are_whole(entries.as_slice(), swaps as usize));
}

#[test]
fn a_counter_keeps_its_sum_under_swaps(rt: HostRuntime) {
    // A thousand and one adds of 1, of 2, of 3 and of 4.
    let sum = Reply::Number(10_010);
    stays_right(&rt, rt.alloc(), KindName::Counter, Op::Get, sum);
}

#[test]
fn a_directory_keeps_its_names_under_swaps(rt: HostRuntime) {
    // The last call of each pass binds a name.
    let names = Reply::Number(4);
    stays_right(&rt, rt.alloc(), KindName::Directory, Op::Size, names);
}

#[test]
fn pages_keep_their_texts_under_swaps(rt: HostRuntime) {
    // Each pass has written a hundred pages of its own.
    let pages = Reply::Number(400);
    stays_right(&rt, rt.alloc(), KindName::Pages, Op::Dirty, pages);
}

#[test]
fn a_long_activity_holds_back_a_swap_and_no_call(rt: HostRuntime) {
    let alloc = rt.alloc();
    let (system, mut passes) = crew_of(&rt, alloc, KindName::Counter, 2, &[0, 1, 0, 1, 0]);
    let stay = LongStay::new();
    work_all(&rt, alloc, &system, &stay, passes.as_mut_slice()).expect(&rt, "memory");
    assert!(rt; stay.late.load(Ordering::SeqCst) == 0);
    assert!(rt; stay.early.load(Ordering::SeqCst) == 0);
    assert!(rt; stay.swaps.load(Ordering::SeqCst) == 1);
    let sum = Reply::Number(1200);
    ask_last(&rt, alloc, &system, passes.as_mut_slice(), Op::Get, sum);
    let entries = closed(&rt, alloc, system, passes);
    assert!(rt; entries.len() == 1202);
    let before = entries.iter().filter(|entry| entry.incarnation == 0);
    assert!(rt; before.count() == 1201);
}

#[test]
fn what_a_watched_counter_tells_is_the_number_of_its_calls(rt: HostRuntime) {
    let alloc = rt.alloc();
    let (system, mut passes) = crew_of(&rt, alloc, KindName::Counter, 2, &[0, 1, 0, 1, 0, 1]);
    let load = Instrument::new();
    work_all(&rt, alloc, &system, &load, passes.as_mut_slice()).expect(&rt, "memory");
    assert!(rt; load.late.load(Ordering::SeqCst) == 0);
    assert!(rt; load.done.load(Ordering::SeqCst) == 4);
    let sum = Reply::Number(4000);
    ask_last(&rt, alloc, &system, passes.as_mut_slice(), Op::Get, sum);
    let entries = closed(&rt, alloc, system, passes);
    let asked = figures_told(entries.as_slice()).expect(&rt, "what the entries say");
    assert!(rt; asked > 0);
    // The first calls of all four stand between the first watch and the first `seen`.
    assert!(rt; has_figure(entries.as_slice(), 2000));
}

#[test]
fn one_pass_and_sixteen_are_closed(rt: HostRuntime) {
    let alloc = rt.alloc();
    assert!(rt; entries_of_all(&rt, alloc, &[0]) == 1);
    assert!(rt; entries_of_all(&rt, alloc, SIXTEEN.as_slice()) == 16);
}

#[test]
fn sixteen_passes_meet_each_on_a_thread_of_its_own(rt: HostRuntime) {
    assert!(rt; late_of_all(&rt, rt.alloc()) == 0);
}

#[test]
fn passes_that_find_no_memory_are_tried_once_and_closed(rt: HostRuntime) {
    assert!(rt; tried_by_all(&rt, rt.alloc()) == (16, 16));
}

#[test]
fn a_pass_makes_more_than_131072_calls(rt: HostRuntime) {
    let entries = entries_of_many(&rt, rt.alloc(), 131_073);
    assert!(rt; entries == 131_088);
}
