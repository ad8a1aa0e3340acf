//! Sixteen passes add once, and half of them are told afterwards that there was no memory.
use crate::tests::crews::{closed, crew_of};
use crate::tests::sixteen::SIXTEEN;
use co_system::{Pass, System};
use k42_crews::{Work, call_once, work_all};
use k42_kinds::{KindName, Op};
use k42_memory::Memory;
use std::alloc::Global;
use std::process::Abort;
use std::sync::Wait;
use std::sync::atomic::{AtomicU64, Ordering};
use std::thread::Threads;

/// How often the work was begun.
#[derive(Drop)]
struct Refusing {
    tried: AtomicU64,
}

impl Work for Refusing {
    fn work<R: Wait>(
        &self,
        rt: &R,
        alloc: Global,
        system: &System,
        pass: &mut Pass,
    ) -> Result<(), Memory> {
        self.tried.fetch_add(1, Ordering::SeqCst);
        call_once(rt, alloc, system, pass, 0, Op::Add(1)).map_err(|_| Memory)?;
        if pass.caller() % 2 == 1 {
            return Err(Memory);
        }
        Ok(())
    }
}

/// How often the work of all was begun, some of whom tell of a want of memory, and how many entries the history has.
pub(super) fn tried_by_all<R: Abort + Threads + Wait + Sync>(
    rt: &R,
    alloc: Global,
) -> (u64, usize) {
    let (system, mut passes) = crew_of(rt, alloc, KindName::Counter, 8, SIXTEEN.as_slice());
    let work = Refusing {
        tried: AtomicU64::new(0),
    };
    let done = work_all(rt, alloc, &system, &work, passes.as_mut_slice());
    assert!(rt; done.is_err());
    let tried = work.tried.load(Ordering::SeqCst);
    (tried, closed(rt, alloc, system, passes).len())
}
