//! What is pushed is read back, of every kind.
ghost use Rattle.std.specs.Prelude.{◌≡◌, ◌<◌, ◌+◌, None, Some, false, length, OnOk};
ghost use Rattle.k42_log.specs.Names.{is_reply};
ghost use Rattle.k42_log.specs.Logs.{next_index};

use crate::badge::{BadgeOp, BadgeReply};
use k42_kinds::{Act, Answer, Entry, Name, Op, Packed, PackedReply, Reply, Text, To};
use k42_log::Log;
use k42_memory::Memory;
use std::alloc::Global;
use std::test::Fail;

/// An entry of caller 15 on processor 7, at the last object and cell that there are.
fn entry_of<O: Copy, R: Copy>(
    stamp: u64,
    index: u64,
    generation: Option<u32>,
    act: &Act<O>,
    answer: &Answer<R>,
) -> Entry<O, R>
    ensures { result ≡ record {
      stamp = stamp;
      index = index;
      caller = 15;
      object = 15;
      incarnation = 1_048_575;
      cell = 319;
      act = act.now;
      answer = answer.now;
      proc = 7;
      generation = generation;
    } }
{
    Entry {
        stamp,
        index,
        caller: 15,
        object: 15,
        incarnation: 1_048_575,
        cell: 319,
        act: *act,
        answer: *answer,
        proc: 7,
        generation,
    }
}

/// A log of these calls. Their stamps are even.
fn log_of<O: Packed, R: PackedReply>(alloc: Global, calls: &[(O, R)]) -> Result<Log<O, R>, Memory>
    requires { length calls.now < 100 }
{
    let mut log = Log::new(alloc, 15, 7, 0);
    for (place, (op, reply)) in calls.iter().enumerate() {
        log.reserve()?;
        let generation = Some(place as u32);
        log.push_call(2 * place as u64, 15, 1_048_575, 319, generation, op, reply);
    }
    Ok(log)
}

#[test]
fn a_call_of_every_kind_is_read_back(rt: HostRuntime) -> Result<(), Fail> {
    let short = Name::of(b"a").ok_or("no name")?;
    let long = Name::of(b"abcdefghijklmnop").ok_or("no name")?;
    let mark = Text::of(b"!").ok_or("no text")?;
    let text = Text::of(b"abcdefghijklmnopqrstuvwxyz012345").ok_or("no text")?;
    let calls = [
        (Op::Add(u32::MAX), Reply::Done),
        (Op::Get, Reply::Number(u64::MAX)),
        (Op::Drain, Reply::Number(0)),
        (Op::Bind(long, u64::MAX), Reply::Taken),
        (Op::Bind(short, 1), Reply::Number(2)),
        (Op::Find(short), Reply::None),
        (Op::Unbind(long), Reply::Done),
        (Op::Size, Reply::Number(3)),
        (Op::Write(1_023, text), Reply::Text(mark)),
        (Op::Write(u16::MAX, mark), Reply::Zero),
        (Op::Read(u16::MAX), Reply::Text(text)),
        (Op::Dirty, Reply::Number(4)),
        (Op::Clean, Reply::Done),
        (Op::Seen, Reply::Gone),
    ];
    let log = log_of(rt.alloc(), &calls)?;
    let mut unread = log.unread();
    assert_eq!(rt; unread.len(), 14);
    for (place, (op, reply)) in calls.iter().enumerate() {
        let stamp = 2 * place as u64;
        let standing = unread.standing().ok_or("no entry")?;
        assert_eq!(rt;
            (
                standing.stamp,
                standing.object,
                standing.cell,
                standing.caller
            ),
            (stamp, 15, 319, 15)
        );
        let entry = unread.next().ok_or("no entry")?;
        let due = entry_of(
            stamp,
            place as u64,
            Some(place as u32),
            &Act::Call(*op),
            &Answer::Replied(*reply),
        );
        assert_eq!(rt; entry, due);
    }
    assert!(rt; unread.next().is_none());
    Ok(())
}

#[test]
fn calls_of_another_kind_are_read_back(rt: HostRuntime) -> Result<(), Fail> {
    let short = Name::of(b"a").ok_or("no name")?;
    let long = Name::of(b"abcdefghijklmnop").ok_or("no name")?;
    let mark = Text::of(b"!").ok_or("no text")?;
    let text = Text::of(b"abcdefghijklmnopqrstuvwxyz012345").ok_or("no text")?;
    let calls = [
        (BadgeOp::Number(u64::MAX), BadgeReply::Reads(mark)),
        (BadgeOp::Give(long), BadgeReply::Bore(0)),
        (BadgeOp::Number(1), BadgeReply::Bore(u64::MAX)),
        (BadgeOp::Give(short), BadgeReply::Reads(text)),
    ];
    let log = log_of(rt.alloc(), &calls)?;
    let mut unread = log.unread();
    for (place, (op, reply)) in calls.iter().enumerate() {
        let entry = unread.next().ok_or("no entry")?;
        let due = entry_of(
            2 * place as u64,
            place as u64,
            Some(place as u32),
            &Act::Call(*op),
            &Answer::Replied(*reply),
        );
        assert_eq!(rt; entry, due);
    }
    assert!(rt; unread.next().is_none());
    Ok(())
}

/// Adds a swap. Its stamp is odd.
fn push_swap(
    log: &mut Log<Op, Reply>,
    index: u64,
    to: To,
    answer: Answer<Reply>,
) -> Result<(), Memory>
    requires owner { log.old.owner ≡ record { caller = 15; proc = 7 } }
    requires next { index ≡ next_index log.old }
    requires few { index < 100 }
    requires swap { is_reply answer ≡ false }
    ensures owner { log.new.owner ≡ record { caller = 15; proc = 7 } }
    ensures next { OnOk result (next_index log.new ≡ index + 1) }
{
    log.reserve()?;
    log.push(&entry_of(2 * index + 1, index, None, &Act::Swap(to), &answer));
    Ok(())
}

#[test]
fn a_swap_of_every_kind_is_read_back(rt: HostRuntime) -> Result<(), Fail> {
    let mut log = Log::new(rt.alloc(), 15, 7, 40);
    assert_eq!(rt; (log.last_stamp(), log.last_incarnation()), (0, 0));
    push_swap(&mut log, 40, To::Layout(14), Answer::Swapped(u32::MAX))?;
    push_swap(&mut log, 41, To::Layout(255), Answer::Busy(2))?;
    push_swap(&mut log, 42, To::Watch, Answer::Abandoned(3))?;
    push_swap(&mut log, 43, To::Unwatch, Answer::Spent)?;
    push_swap(&mut log, 44, To::Dead, Answer::Gone)?;
    push_swap(&mut log, 45, To::Layout(0), Answer::Gone)?;
    assert_eq!(rt; (log.last_stamp(), log.last_incarnation()), (91, 1_048_575));
    let due = [
        entry_of(
            81,
            40,
            None,
            &Act::Swap(To::Layout(14)),
            &Answer::Swapped(u32::MAX),
        ),
        entry_of(83, 41, None, &Act::Swap(To::Layout(255)), &Answer::Busy(2)),
        entry_of(85, 42, None, &Act::Swap(To::Watch), &Answer::Abandoned(3)),
        entry_of(87, 43, None, &Act::Swap(To::Unwatch), &Answer::Spent),
        entry_of(89, 44, None, &Act::Swap(To::Dead), &Answer::Gone),
        entry_of(91, 45, None, &Act::Swap(To::Layout(0)), &Answer::Gone),
    ];
    let list = log.unread().collect(rt.alloc())?;
    assert_eq!(rt; list.as_slice(), due.as_slice());
    Ok(())
}
