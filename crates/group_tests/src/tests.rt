//! Objects of six processors, each on its way from one way to the next.
use crate::rows::{after, begun, walk};
use co_counter::SpreadCounter;
use co_directory::SpreadDirectory;
use co_groups::{
    CounterApart, CounterInFours, CounterInPairs, CounterTogether, DirectoryInFours,
    DirectoryInPairs, PagesInFours, PagesInPairs,
};
use co_pages::SpreadPages;
use k42_choice::{Choice, Living, Only, Way};
use k42_copies::{Apart, InFours, InPairs, Together};
use k42_kinds::{Kind, Name, Op, Reach, Reply, Text};
use k42_shapes::Shape;
use std::test::Fail;

#[test]
fn a_counter_moves_from_groups_to_groups(rt: HostRuntime) -> Result<(), Fail> {
    let alloc = rt.alloc();
    let layout = SpreadCounter;
    let together = CounterTogether {
        layout,
        spacing: Together,
    };
    let in_pairs = CounterInPairs {
        layout,
        spacing: InPairs,
    };
    let in_fours = CounterInFours {
        layout,
        spacing: InFours,
    };
    let apart = CounterApart {
        layout,
        spacing: Apart,
    };
    let calls = [(0, Op::Add(5), Reply::Done), (5, Op::Add(10), Reply::Done)];
    let value = after(&rt, alloc, &together, &0, &calls)?;
    let calls = [
        (4, Op::Get, Reply::Number(15)),
        (1, Op::Add(1), Reply::Done),
    ];
    let value = after(&rt, alloc, &in_pairs, &value, &calls)?;
    let calls = [
        (0, Op::Get, Reply::Number(16)),
        (5, Op::Add(4), Reply::Done),
    ];
    let value = after(&rt, alloc, &in_fours, &value, &calls)?;
    let calls = [
        (2, Op::Get, Reply::Number(20)),
        (3, Op::Add(2), Reply::Done),
    ];
    let value = after(&rt, alloc, &apart, &value, &calls)?;
    let calls = [
        (1, Op::Drain, Reply::Number(22)),
        (4, Op::Get, Reply::Number(0)),
    ];
    after(&rt, alloc, &together, &value, &calls)?;
    Ok(())
}

#[test]
fn a_name_is_found_from_each_processor(rt: HostRuntime) -> Result<(), Fail> {
    let alloc = rt.alloc();
    let x = Name::of(b"x").ok_or("no name")?;
    let empty = SpreadDirectory.empty(alloc);
    let in_pairs = DirectoryInPairs {
        layout: SpreadDirectory,
        spacing: InPairs,
    };
    let in_fours = DirectoryInFours {
        layout: SpreadDirectory,
        spacing: InFours,
    };
    let calls = [
        (5, Op::Bind(x, 7), Reply::Done),
        (0, Op::Bind(x, 8), Reply::Taken),
        (0, Op::Find(x), Reply::Number(7)),
        (1, Op::Find(x), Reply::Number(7)),
        (2, Op::Find(x), Reply::Number(7)),
        (3, Op::Find(x), Reply::Number(7)),
        (4, Op::Find(x), Reply::Number(7)),
        (5, Op::Find(x), Reply::Number(7)),
    ];
    let names = after(&rt, alloc, &in_pairs, &empty, &calls)?;
    let calls = [
        (3, Op::Size, Reply::Number(1)),
        (4, Op::Unbind(x), Reply::Number(7)),
        (1, Op::Find(x), Reply::None),
    ];
    after(&rt, alloc, &in_fours, &names, &calls)?;
    Ok(())
}

#[test]
fn pages_are_read_from_each_processor(rt: HostRuntime) -> Result<(), Fail> {
    let alloc = rt.alloc();
    let text = Text::of(b"hello").ok_or("no text")?;
    let empty = SpreadPages.empty(alloc);
    let in_fours = PagesInFours {
        layout: SpreadPages,
        spacing: InFours,
    };
    let in_pairs = PagesInPairs {
        layout: SpreadPages,
        spacing: InPairs,
    };
    let calls = [
        (0, Op::Write(7, text), Reply::Done),
        (5, Op::Write(8, text), Reply::Done),
        (0, Op::Read(7), Reply::Text(text)),
        (1, Op::Read(7), Reply::Text(text)),
        (2, Op::Read(7), Reply::Text(text)),
        (3, Op::Read(8), Reply::Text(text)),
        (4, Op::Read(8), Reply::Text(text)),
        (5, Op::Read(8), Reply::Text(text)),
        (1, Op::Clean, Reply::Number(2)),
    ];
    let pages = after(&rt, alloc, &in_fours, &empty, &calls)?;
    let calls = [
        (2, Op::Dirty, Reply::Number(0)),
        (4, Op::Read(7), Reply::Text(text)),
        (3, Op::Read(9), Reply::Zero),
    ];
    after(&rt, alloc, &in_pairs, &pages, &calls)?;
    Ok(())
}

#[test]
fn a_caller_adds_in_the_cell_of_its_group(rt: HostRuntime) -> Result<(), Fail> {
    let in_pairs = CounterInPairs {
        layout: SpreadCounter,
        spacing: InPairs,
    };
    let in_fours = CounterInFours {
        layout: SpreadCounter,
        spacing: InFours,
    };
    assert_eq!(rt; begun(&in_pairs, rt.alloc(), 6)?.len(), 3);
    assert_eq!(rt; begun(&in_fours, rt.alloc(), 6)?.len(), 2);
    assert!(rt; in_pairs.reach(&Op::Add(1), 2, 6) == Reach::One(1));
    assert!(rt; in_pairs.reach(&Op::Add(1), 3, 6) == Reach::One(1));
    assert!(rt; in_pairs.reach(&Op::Add(1), 5, 6) == Reach::One(2));
    assert!(rt; in_pairs.reach(&Op::Get, 5, 6) == Reach::All);
    assert!(rt; in_fours.reach(&Op::Add(1), 3, 6) == Reach::One(0));
    assert!(rt; in_fours.reach(&Op::Add(1), 4, 6) == Reach::One(1));
    Ok(())
}

#[test]
fn neighbours_add_to_one_amount(rt: HostRuntime) -> Result<(), Fail> {
    let in_pairs = CounterInPairs {
        layout: SpreadCounter,
        spacing: InPairs,
    };
    let calls = [
        (0, Op::Add(1), Reply::Done),
        (1, Op::Add(2), Reply::Done),
        (2, Op::Add(4), Reply::Done),
        (5, Op::Add(8), Reply::Done),
    ];
    let mut row = begun(&in_pairs, rt.alloc(), 6)?;
    walk(&rt, rt.alloc(), &in_pairs, &mut row, &calls)?;
    assert!(rt; row.iter().eq([3, 4, 8].iter()));
    Ok(())
}

#[test]
fn one_object_has_two_of_these_ways(rt: HostRuntime) {
    let in_pairs = Only {
        way: CounterInPairs {
            layout: SpreadCounter,
            spacing: InPairs,
        },
    };
    let in_fours = Only {
        way: CounterInFours {
            layout: SpreadCounter,
            spacing: InFours,
        },
    };
    let counter = Choice::new(in_pairs, in_fours);
    assert_eq!(rt; counter.live(), 2);
    assert!(rt; counter.shape() == Shape::Groups(2));
    assert!(rt; counter.with_tag(1).shape() == Shape::Groups(4));
}
