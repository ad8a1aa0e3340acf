//! Four passes add while a fifth swaps the counter to and fro, and a sixth watches it, asks for its count and unwatches it.
ghost use Rattle.std.specs.Prelude.{OnOk};
ghost use Rattle.k42_crews.specs.Ready.{IsFree, StaysFree};

use crate::tests::crews::wait_for;
use co_system::{Pass, Swapped, System};
use crossbeam_utils::Backoff;
use k42_crews::{Work, call_once, swap_once};
use k42_kinds::{Act, Answer, Entry, Op, Reply, To};
use k42_memory::Memory;
use std::alloc::Global;
use std::sync::Wait;
use std::sync::atomic::{AtomicU64, Ordering};

/// How many calls each of the four makes while the counter is watched for the first time, and how many behind that.
pub(super) const CALLS: u32 = 500;

/// How often the counter was watched, how many of the four have made their first calls, how often the count was asked
/// for behind these, how many of the four have made all their calls, and how many passes have waited in vain.
#[derive(Drop)]
pub(super) struct Instrument {
    watched: AtomicU64,
    half: AtomicU64,
    read: AtomicU64,
    pub(super) done: AtomicU64,
    pub(super) late: AtomicU64,
}

/// What the object is to tell.
fn told(figure: Option<u64>) -> Answer<Reply> {
    match figure {
        Some(count) => Answer::Replied(Reply::Number(count)),
        None => Answer::Replied(Reply::None),
    }
}

/// How many entries ask for the count, if each of them was told what the entries before it say.
pub(super) fn figures_told(entries: &[Entry<Op, Reply>]) -> Option<u64> {
    let mut figure = None;
    let mut asked = 0u64;
    for entry in entries {
        match (&entry.act, &entry.answer) {
            (Act::Call(Op::Seen), answer) => {
                if *answer != told(figure) {
                    return None;
                }
                asked = asked.saturating_add(1);
            }
            (Act::Call(_), _) => figure = figure.map(|count: u64| count.saturating_add(1)),
            (Act::Swap(To::Watch), Answer::Swapped(_)) => figure = Some(0),
            (Act::Swap(To::Unwatch), Answer::Swapped(_)) => figure = None,
            _ => (),
        }
    }
    Some(asked)
}

/// Whether some entry tells at least so much.
pub(super) fn has_figure(entries: &[Entry<Op, Reply>], least: u64) -> bool {
    entries.iter().any(|entry| match (&entry.act, &entry.answer) {
        (Act::Call(Op::Seen), Answer::Replied(Reply::Number(count))) => *count >= least,
        _ => false,
    })
}

impl Instrument {
    pub(super) fn new() -> Instrument {
        Instrument {
            watched: AtomicU64::new(0),
            half: AtomicU64::new(0),
            read: AtomicU64::new(0),
            done: AtomicU64::new(0),
            late: AtomicU64::new(0),
        }
    }

    /// Adds so often.
    fn add_often<R: Wait>(
        &self,
        rt: &R,
        alloc: Global,
        system: &System,
        pass: &mut Pass,
    ) -> Result<(), Memory>
        requires { IsFree system.now pass.old }
        ensures { StaysFree system.now pass.old pass.new }
    {
        for _ in 0..CALLS {
            call_once(rt, alloc, system, pass, 0, Op::Add(1)).map_err(|_| Memory)?;
        }
        Ok(())
    }

    /// Makes the first calls while the counter is watched, and the others once it was asked for its count.
    fn add_twice<R: Wait>(
        &self,
        rt: &R,
        alloc: Global,
        system: &System,
        pass: &mut Pass,
    ) -> Result<(), Memory>
        requires { IsFree system.now pass.old }
        ensures { StaysFree system.now pass.old pass.new }
    {
        wait_for(rt, &self.watched, 1, &self.late);
        let added = self.add_often(rt, alloc, system, pass);
        self.half.fetch_add(1, Ordering::SeqCst);
        added?;
        wait_for(rt, &self.read, 1, &self.late);
        self.add_often(rt, alloc, system, pass)
    }

    /// Swaps until the four are done.
    fn swap_on<R: Wait>(
        &self,
        rt: &R,
        alloc: Global,
        system: &System,
        pass: &mut Pass,
    ) -> Result<(), Memory>
        requires { IsFree system.now pass.old }
        ensures { StaysFree system.now pass.old pass.new }
    {
        let backoff = Backoff::new();
        for number in 0..1_000_000u32 {
            if self.done.load(Ordering::SeqCst) >= 4 {
                return Ok(());
            }
            let to = (number % 2) as u8;
            swap_once(rt, alloc, system, pass, 0, to).map_err(|_| Memory)?;
            backoff.snooze();
        }
        Ok(())
    }

    /// Watches the counter, unless another swap is in the way.
    fn watch_once<R: Wait>(
        &self,
        rt: &R,
        alloc: Global,
        system: &System,
        pass: &mut Pass,
    ) -> Result<bool, Memory>
        requires { IsFree system.now pass.old }
        ensures { StaysFree system.now pass.old pass.new }
    {
        if system.objects() == 0 {
            return Ok(false);
        }
        let end = system.watch(rt, alloc, pass, 0).map_err(|_| Memory)?;
        Ok(matches!(end, Swapped::Done(_)))
    }

    /// Takes the layer away, unless another swap is in the way.
    fn unwatch_once<R: Wait>(
        &self,
        rt: &R,
        alloc: Global,
        system: &System,
        pass: &mut Pass,
    ) -> Result<(), Memory>
        requires { IsFree system.now pass.old }
        ensures { StaysFree system.now pass.old pass.new }
    {
        if system.objects() == 0 {
            return Ok(());
        }
        system.unwatch(rt, alloc, pass, 0).map_err(|_| Memory)?;
        Ok(())
    }

    /// Watches it for the first time, and asks once the four have made their first calls.
    fn read_first<R: Wait>(
        &self,
        rt: &R,
        alloc: Global,
        system: &System,
        pass: &mut Pass,
    ) -> Result<(), Memory>
        requires { IsFree system.now pass.old }
        ensures { StaysFree system.now pass.old pass.new }
    {
        for _ in 0..1_000_000 {
            if self.watch_once(rt, alloc, system, pass)? {
                break;
            }
        }
        self.watched.fetch_add(1, Ordering::SeqCst);
        wait_for(rt, &self.half, 4, &self.late);
        call_once(rt, alloc, system, pass, 0, Op::Seen).map_err(|_| Memory)?;
        self.read.fetch_add(1, Ordering::SeqCst);
        Ok(())
    }

    /// Watches, asks, unwatches and asks until the four are done.
    fn read_on<R: Wait>(
        &self,
        rt: &R,
        alloc: Global,
        system: &System,
        pass: &mut Pass,
    ) -> Result<(), Memory>
        requires { IsFree system.now pass.old }
        ensures { StaysFree system.now pass.old pass.new }
    {
        for _ in 0..1_000_000 {
            if self.done.load(Ordering::SeqCst) >= 4 {
                return Ok(());
            }
            self.unwatch_once(rt, alloc, system, pass)?;
            call_once(rt, alloc, system, pass, 0, Op::Seen).map_err(|_| Memory)?;
            self.watch_once(rt, alloc, system, pass)?;
            call_once(rt, alloc, system, pass, 0, Op::Seen).map_err(|_| Memory)?;
        }
        Ok(())
    }

    /// Nobody waits for it, whatever has come of it.
    fn read_all<R: Wait>(
        &self,
        rt: &R,
        alloc: Global,
        system: &System,
        pass: &mut Pass,
    ) -> Result<(), Memory>
        requires { IsFree system.now pass.old }
        ensures { StaysFree system.now pass.old pass.new }
    {
        let first = self.read_first(rt, alloc, system, pass);
        self.watched.fetch_add(1, Ordering::SeqCst);
        self.read.fetch_add(1, Ordering::SeqCst);
        first?;
        self.read_on(rt, alloc, system, pass)
    }
}

impl Work for Instrument {
    fn work<R: Wait>(
        &self,
        rt: &R,
        alloc: Global,
        system: &System,
        pass: &mut Pass,
    ) -> Result<(), Memory> {
        match pass.caller() {
            4 => self.swap_on(rt, alloc, system, pass),
            5 => self.read_all(rt, alloc, system, pass),
            _ => {
                let added = self.add_twice(rt, alloc, system, pass);
                self.done.fetch_add(1, Ordering::SeqCst);
                added
            }
        }
    }
}
