//! The logs of four callers, read as one history.
ghost use Rattle.std.specs.Prelude.{◌≡◌, ◌<◌, ◌≤◌, length};
ghost use Rattle.k42_stamp.specs.Lists.{AreLists, IsListOf};
ghost use Rattle.k42_stamp.specs.Merging.{entries_in};
ghost use Rattle.k42_journal.specs.Logs.{lists_of};

use k42_journal::Journal;
use k42_kinds::{Op, Reply};
use k42_log::Log;
use std::alloc::Global;
use std::process::Abort;

/// A caller's log: of each entry its stamp, which rises, its object and its cell.
fn log_of(
    rt: &impl Abort,
    alloc: Global,
    caller: u32,
    entries: &[(u64, u32, u32)],
) -> Log<Op, Reply>
    requires few { length entries.now ≤ 100 }
    ensures list { IsListOf caller result.entries }
    ensures few { length result.entries ≤ 100 }
{
    let mut log = Log::new(alloc, caller, caller, 0);
    let mut last = 0;
    for (stamp, object, cell) in entries {
        assert!(rt; *stamp > last);
        assert!(rt; *object < 16);
        assert!(rt; *cell < 16);
        log.reserve().expect(rt, "memory");
        log.push_call(
            *stamp,
            *object,
            0,
            *cell,
            None,
            &Op::Get,
            &Reply::Number(u64::from(caller)),
        );
        last = *stamp;
    }
    log
}

/// The logs of four callers, each with such entries.
fn logs_of(rt: &impl Abort, alloc: Global, callers: &[&[(u64, u32, u32)]; 4]) -> Vec<Log<Op, Reply>>
    ensures lists { AreLists (lists_of result.items) }
    ensures few { entries_in (lists_of result.items) ≤ 400 }
{
    let mut logs = Vec::with_capacity(alloc, 4).expect(rt, "memory");
    for caller in 0..4 {
        let entries = callers[caller as usize];
        assert!(rt; entries.len() <= 100);
        logs.push_reserved(log_of(rt, alloc, caller, entries));
    }
    logs
}

#[test]
fn entries_of_one_stamp_are_read_by_object_cell_and_caller(rt: HostRuntime) {
    let alloc = rt.alloc();
    let callers: [&[(u64, u32, u32)]; 4] = [
        &[(1, 1, 0), (2, 0, 3), (4, 0, 0), (6, 2, 0)],
        &[(1, 0, 3), (2, 0, 1), (4, 0, 0)],
        &[],
        &[(1, 0, 1), (2, 1, 0), (4, 0, 0), (5, 0, 0)],
    ];
    // the stamp, the object, the cell and the caller of each entry, in the order due
    let due = [
        (7, 0, 1, 3),
        (8, 0, 3, 1),
        (9, 1, 0, 0),
        (10, 0, 1, 1),
        (11, 0, 3, 0),
        (12, 1, 0, 3),
        (13, 0, 0, 0),
        (14, 0, 0, 1),
        (15, 0, 0, 3),
        (16, 0, 0, 3),
        (17, 2, 0, 0),
    ];
    let journal = Journal::of(7, logs_of(&rt, alloc, &callers));
    assert_eq!(rt; journal.len(), 11);
    let list = journal.collect(alloc).expect(&rt, "memory");
    let told = list.iter().map(|entry| (entry.stamp, entry.object, entry.cell, entry.caller));
    assert!(rt; told.eq(due));
}

#[test]
fn a_log_alone_is_read_to_its_end(rt: HostRuntime) {
    let alloc = rt.alloc();
    let callers: [&[(u64, u32, u32)]; 4] = [&[], &[], &[(6, 3, 1), (9, 2, 0)], &[]];
    let journal = Journal::of(1, logs_of(&rt, alloc, &callers));
    assert!(rt; !journal.is_empty());
    let list = journal.collect(alloc).expect(&rt, "memory");
    let told = list
        .iter()
        .map(|entry| (entry.stamp, entry.object, entry.index));
    assert!(rt; told.eq([(1, 3, 0), (2, 2, 1)]));
    let mut reader = journal.read(alloc).expect(&rt, "memory");
    assert!(rt; reader.next().is_some());
    assert_eq!(rt; reader.len(), 1);
    assert!(rt; reader.next().is_some());
    assert!(rt; reader.is_empty());
    assert!(rt; reader.next().is_none());
}

#[test]
fn logs_without_entries_are_no_history(rt: HostRuntime) {
    let alloc = rt.alloc();
    let callers: [&[(u64, u32, u32)]; 4] = [&[], &[], &[], &[]];
    let journal = Journal::of(3, logs_of(&rt, alloc, &callers));
    assert!(rt; journal.is_empty());
    let mut reader = journal.read(alloc).expect(&rt, "memory");
    assert!(rt; reader.next().is_none());
    assert_eq!(rt; reader.len(), 0);
}
