//! Four passes call while a fifth swaps the object to and fro until they are done.
ghost use Rattle.k42_crews.specs.Ready.{IsFree, StaysFree};

use crate::tests::asking::asked_by;
use crate::tests::crews::wait_for;
use co_system::{Pass, System};
use crossbeam_utils::Backoff;
use k42_crews::Work;
use k42_kinds::KindName;
use k42_memory::Memory;
use std::alloc::Global;
use std::sync::Wait;
use std::sync::atomic::{AtomicU64, Ordering};

/// How many calls each of the four makes.
pub(super) const CALLS: u32 = 1001;

/// How many callers have made all their calls, how many replies were not those due, how many swaps are done, and how many
/// have waited for them in vain.
#[derive(Drop)]
pub(super) struct ToAndFro {
    kind: KindName,
    pub(super) done: AtomicU64,
    pub(super) wrong: AtomicU64,
    pub(super) swaps: AtomicU64,
    pub(super) late: AtomicU64,
}

impl ToAndFro {
    pub(super) fn new(kind: KindName) -> ToAndFro {
        ToAndFro {
            kind,
            done: AtomicU64::new(0),
            wrong: AtomicU64::new(0),
            swaps: AtomicU64::new(0),
            late: AtomicU64::new(0),
        }
    }

    /// Makes all calls of the pass. The second half waits for three swaps.
    fn ask_all<R: Wait>(
        &self,
        rt: &R,
        alloc: Global,
        system: &System,
        pass: &mut Pass,
    ) -> Result<(), Memory>
        requires { IsFree system.now pass.old }
        ensures { StaysFree system.now pass.old pass.new }
    {
        for number in 0..CALLS {
            if number == CALLS / 2 {
                wait_for(rt, &self.swaps, 3, &self.late);
            }
            let Some((op, due)) = asked_by(self.kind, pass.caller(), number) else {
                return Ok(());
            };
            if !system.takes(0, &op) {
                return Ok(());
            }
            system.enter(pass);
            let reply = system.call(rt, alloc, pass, 0, op);
            system.leave(pass);
            if reply.map_err(|_| Memory)? != due {
                self.wrong.fetch_add(1, Ordering::SeqCst);
            }
        }
        Ok(())
    }

    /// Swaps until the four are done.
    fn swap_on<R: Wait>(
        &self,
        rt: &R,
        alloc: Global,
        system: &System,
        pass: &mut Pass,
    ) -> Result<(), Memory>
        requires { IsFree system.now pass.old }
        ensures { StaysFree system.now pass.old pass.new }
    {
        let backoff = Backoff::new();
        for number in 0..1_000_000u32 {
            if self.done.load(Ordering::SeqCst) >= 4 || system.objects() == 0 {
                return Ok(());
            }
            let to = (number % 2) as u8;
            system.swap(rt, alloc, pass, 0, to).map_err(|_| Memory)?;
            self.swaps.fetch_add(1, Ordering::SeqCst);
            backoff.snooze();
        }
        Ok(())
    }
}

impl Work for ToAndFro {
    fn work<R: Wait>(
        &self,
        rt: &R,
        alloc: Global,
        system: &System,
        pass: &mut Pass,
    ) -> Result<(), Memory> {
        if pass.caller() == 4 {
            let swapped = self.swap_on(rt, alloc, system, pass);
            // The callers wait for no swaps more.
            self.swaps.fetch_add(3, Ordering::SeqCst);
            return swapped;
        }
        let asked = self.ask_all(rt, alloc, system, pass);
        self.done.fetch_add(1, Ordering::SeqCst);
        asked
    }
}
