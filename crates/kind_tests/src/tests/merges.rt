//! The order of entries that bear one stamp, and a merge of many.
ghost use Rattle.std.specs.Prelude.{◌≡◌, ◌≤◌, true, map, vec_items, IfOk, IfSome};
ghost use Rattle.k42_stamp.specs.Lists.{IsListOf, AreLists};
ghost use Rattle.k42_stamp.specs.Merging.{AreEmpty, IsAlone, entries_in};

use k42_kinds::{Act, Answer, Entry, Op, Reply};
use k42_memory::Memory;
use k42_stamp::{Room, merge, merge_from, take_alone_from};
use std::alloc::Global;
use std::test::Fail;

/// A caller's entries: of each its stamp, its object and its cell. They rise, or none are made.
fn list_of(
    alloc: Global,
    caller: u32,
    entries: &[(u64, u32, u32)],
) -> Result<Vec<Entry<Op, Reply>>, Memory>
    ensures { IfOk result (λ list. IsListOf caller list.items) }
{
    let mut list = Vec::new(alloc);
    let mut last = 0;
    for (stamp, object, cell) in entries {
        if *stamp <= last {
            return Err(Memory);
        }
        let entry = Entry {
            stamp: *stamp,
            caller,
            index: 0,
            object: *object,
            incarnation: 0,
            cell: *cell,
            act: Act::Call(Op::Get),
            answer: Answer::Replied(Reply::Number(0)),
            proc: 0,
            generation: None,
        };
        entry.push_onto(&mut list)?;
        last = *stamp;
    }
    Ok(list)
}

/// The lists of four callers.
fn lists_of(
    alloc: Global,
    callers: &[&[(u64, u32, u32)]; 4],
) -> Result<Vec<Vec<Entry<Op, Reply>>>, Memory>
    ensures { IfOk result (λ lists. AreLists (map vec_items lists.items)) }
{
    let mut lists = Vec::new(alloc);
    for caller in 0..4 {
        lists.push(list_of(alloc, caller, callers[caller as usize])?)?;
    }
    Ok(lists)
}

#[test]
fn entries_of_one_stamp_are_ordered_by_object_cell_and_caller(rt: HostRuntime) -> Result<(), Fail> {
    let callers: [&[(u64, u32, u32)]; 4] = [
        &[(1, 1, 0), (2, 0, 3), (4, 0, 0), (6, 2, 0)],
        &[(1, 0, 3), (2, 0, 1), (4, 0, 0)],
        &[],
        &[(1, 0, 1), (2, 1, 0), (4, 0, 0), (5, 0, 0)],
    ];
    // the object, the cell and the caller of each entry, in the order due
    let due = [
        (0, 1, 3),
        (0, 3, 1),
        (1, 0, 0),
        (0, 1, 1),
        (0, 3, 0),
        (1, 0, 3),
        (0, 0, 0),
        (0, 0, 1),
        (0, 0, 3),
        (0, 0, 3),
        (2, 0, 0),
    ];
    let lists = lists_of(rt.alloc(), &callers)?;
    let merged = merge(rt.alloc(), lists)?;
    let told = merged
        .iter()
        .map(|entry| (entry.object, entry.cell, entry.caller));
    assert!(rt; told.eq(due));
    assert!(rt; merged.iter().map(|entry| entry.stamp).eq(1..=11));
    Ok(())
}

/// So many stamps, of which each is two above the one before it.
fn every_second(alloc: Global, first: u64, count: u64) -> Result<Vec<(u64, u32, u32)>, Memory>
    requires first { first ≤ 2 }
    requires count { count ≤ 1_048_576 }
{
    let mut stamps = Vec::new(alloc);
    for place in 0..count {
        stamps.push((first + 2 * place, 0, 0))?;
    }
    Ok(stamps)
}

#[test]
fn more_than_1048576_entries_are_merged(rt: HostRuntime) -> Result<(), Fail> {
    let odd = every_second(rt.alloc(), 1, 524_289)?;
    let even = every_second(rt.alloc(), 2, 524_289)?;
    let callers: [&[(u64, u32, u32)]; 4] = [odd.as_slice(), &[], even.as_slice(), &[]];
    let merged = merge(rt.alloc(), lists_of(rt.alloc(), &callers)?)?;
    assert!(rt; merged.iter().map(|entry| entry.stamp).eq(1..=1_048_578));
    Ok(())
}

/// How many entries the lists have.
fn total_of(lists: &[Vec<Entry<Op, Reply>>]) -> Option<usize>
    ensures { IfSome result (λ total. total ≡ entries_in (map vec_items lists.now)) }
{
    let Some((list, others)) = lists.split_first() else {
        return Some(0);
    };
    total_of(others)?.checked_add(list.len())
}

#[test]
fn a_section_is_numbered_from_its_first_number(rt: HostRuntime) -> Result<(), Fail> {
    let callers: [&[(u64, u32, u32)]; 4] = [&[(6, 0, 0), (9, 0, 0)], &[], &[(7, 0, 0)], &[]];
    let lists = lists_of(rt.alloc(), &callers)?;
    let total = total_of(lists.as_slice()).expect(&rt, "a total");
    assert_eq!(rt; total, 3);
    let room = Room::new(rt.alloc(), lists.len(), total)?;
    let section = merge_from(3, room, lists);
    let told = section.iter().map(|entry| (entry.stamp, entry.caller));
    assert!(rt; told.eq([(3, 0), (4, 2), (5, 0)]));
    Ok(())
}

/// Whether no list has entries.
fn are_empty(lists: &[Vec<Entry<Op, Reply>>]) -> bool
    ensures { result ≡ true → AreEmpty (map vec_items lists.now) }
{
    let Some((list, others)) = lists.split_first() else {
        return true;
    };
    list.is_empty() && are_empty(others)
}

/// The place of the list that alone has entries.
fn only_place(lists: &[Vec<Entry<Op, Reply>>]) -> Option<usize>
    ensures { IfSome result (λ place. IsAlone (map vec_items lists.now) place) }
{
    let (list, others) = lists.split_first()?;
    if are_empty(others) {
        return Some(0);
    }
    if !list.is_empty() {
        return None;
    }
    Some(only_place(others)? + 1)
}

#[test]
fn a_section_of_one_caller_is_numbered_from_its_first_number(rt: HostRuntime) -> Result<(), Fail> {
    let callers: [&[(u64, u32, u32)]; 4] = [&[], &[(6, 0, 0), (9, 0, 0)], &[], &[]];
    let lists = lists_of(rt.alloc(), &callers)?;
    let place = only_place(lists.as_slice()).expect(&rt, "one caller");
    let total = total_of(lists.as_slice()).expect(&rt, "a total");
    assert_eq!(rt; total, 2);
    let section = take_alone_from(3, place, lists);
    assert!(rt; section.iter().map(|entry| entry.stamp).eq(3..=4));
    Ok(())
}
