//! Three passes call, and a fourth in one long activity, while a fifth waits with its swap for the end of that activity.
ghost use Rattle.std.specs.Prelude.{◌≡◌, false};
ghost use Rattle.k42_crews.specs.Ready.{IsFree, IsIn, StaysFree};
ghost use Rattle.runtime_threads.specs.Ready.{IsSwapping};

use crate::tests::crews::wait_for;
use co_system::{Cause, Pass, Step, Swap, System, To};
use crossbeam_utils::Backoff;
use k42_crews::Work;
use k42_kinds::Op;
use k42_memory::Memory;
use std::alloc::Global;
use std::sync::Wait;
use std::sync::atomic::{AtomicU64, Ordering};

/// How many calls each of the four makes.
pub(super) const CALLS: u32 = 300;

/// Whether the long activity is open, whether it was found to hold the swap back, how many of the others
/// have made their calls, how many swaps had ended before the long activity, how many have ended, and how many passes
/// have waited in vain.
#[derive(Drop)]
pub(super) struct LongStay {
    open: AtomicU64,
    held: AtomicU64,
    done: AtomicU64,
    pub(super) early: AtomicU64,
    pub(super) swaps: AtomicU64,
    pub(super) late: AtomicU64,
}

impl LongStay {
    pub(super) fn new() -> LongStay {
        LongStay {
            open: AtomicU64::new(0),
            held: AtomicU64::new(0),
            done: AtomicU64::new(0),
            early: AtomicU64::new(0),
            swaps: AtomicU64::new(0),
            late: AtomicU64::new(0),
        }
    }

    /// Adds one, so often, in one activity.
    fn add_inside<R: Wait>(
        &self,
        rt: &R,
        alloc: Global,
        system: &System,
        pass: &mut Pass,
    ) -> Result<(), Memory>
        requires { IsIn system.now pass.old }
        ensures inside { IsIn system.now pass.new }
        ensures caller { pass.new.view.number ≡ pass.old.view.number }
        ensures keep { pass.new.keep ≡ pass.old.keep }
    {
        for _ in 0..CALLS {
            if !system.takes(0, &Op::Add(1)) {
                return Ok(());
            }
            system
                .call(rt, alloc, pass, 0, Op::Add(1))
                .map_err(|_| Memory)?;
        }
        Ok(())
    }

    /// Stays in its activity until the others have made their calls.
    fn stay<R: Wait>(
        &self,
        rt: &R,
        alloc: Global,
        system: &System,
        pass: &mut Pass,
    ) -> Result<(), Memory>
        requires { IsFree system.now pass.old }
        ensures { StaysFree system.now pass.old pass.new }
    {
        system.enter(pass);
        self.open.store(1, Ordering::SeqCst);
        wait_for(rt, &self.held, 1, &self.late);
        let added = self.add_inside(rt, alloc, system, pass);
        wait_for(rt, &self.done, 3, &self.late);
        self.early
            .store(self.swaps.load(Ordering::SeqCst), Ordering::SeqCst);
        system.leave(pass);
        added
    }

    /// Adds one, so often, each time in an activity of its own.
    fn add_often<R: Wait>(
        &self,
        rt: &R,
        alloc: Global,
        system: &System,
        pass: &mut Pass,
    ) -> Result<(), Memory>
        requires { IsFree system.now pass.old }
        ensures { StaysFree system.now pass.old pass.new }
    {
        wait_for(rt, &self.held, 1, &self.late);
        for _ in 0..CALLS {
            if !system.takes(0, &Op::Add(1)) {
                return Ok(());
            }
            system.enter(pass);
            let added = system.call(rt, alloc, pass, 0, Op::Add(1));
            system.leave(pass);
            added.map_err(|_| Memory)?;
        }
        Ok(())
    }

    /// Steps the swap to its end, and tells when an activity is found to hold it back.
    fn swap_once<R: Wait>(
        &self,
        rt: &R,
        alloc: Global,
        system: &System,
        pass: &mut Pass,
        swap: &mut Swap,
    ) -> Result<(), Memory>
        requires swapping { IsSwapping system.now swap.old pass.old }
        ensures free { StaysFree system.now pass.old pass.new }
    {
        let backoff = Backoff::new();
        for _ in rt.forever() {
            match swap.step(alloc, system, pass) {
                Step::Again(Cause::Left { .. }) => self.held.store(1, Ordering::SeqCst),
                Step::Again(_) => (),
                Step::Ended(_) => {
                    self.swaps.fetch_add(1, Ordering::SeqCst);
                    return Ok(());
                }
                Step::Memory | Step::Worn => return Err(Memory),
            }
            backoff.snooze();
        }
        unreachable!()
    }

    /// Swaps once the long activity is open.
    fn swap_late<R: Wait>(
        &self,
        rt: &R,
        alloc: Global,
        system: &System,
        pass: &mut Pass,
    ) -> Result<(), Memory>
        requires { IsFree system.now pass.old }
        ensures { StaysFree system.now pass.old pass.new }
    {
        wait_for(rt, &self.open, 1, &self.late);
        if system.objects() == 0 {
            return Ok(());
        }
        let mut swap = Swap::new(0, To::Layout(0));
        self.swap_once(rt, alloc, system, pass, &mut swap)
    }
}

impl Work for LongStay {
    fn work<R: Wait>(
        &self,
        rt: &R,
        alloc: Global,
        system: &System,
        pass: &mut Pass,
    ) -> Result<(), Memory> {
        match pass.caller() {
            0 => self.stay(rt, alloc, system, pass),
            4 => {
                let swapped = self.swap_late(rt, alloc, system, pass);
                // Nobody waits for it, whatever has come of it.
                self.held.store(1, Ordering::SeqCst);
                swapped
            }
            _ => {
                let added = self.add_often(rt, alloc, system, pass);
                self.done.fetch_add(1, Ordering::SeqCst);
                added
            }
        }
    }
}
