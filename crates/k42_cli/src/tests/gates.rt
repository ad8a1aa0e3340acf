//! A gate that holds lines until others were reached or answered.
use crossbeam_utils::Backoff;
use k42_workers::Gate;
use std::process::Abort;
use std::sync::atomic::{AtomicU32, AtomicU64, Ordering};

/// How many turns a line is held at most.
const TURNS: u32 = 10_000_000;

/// As many as threads need to begin, where nothing that is waited for may come.
const FEW_TURNS: u32 = 100_000;

/// The bits of some lines, all below 64.
pub fn lines(numbers: &[u32]) -> u64 {
    numbers.iter().fold(0, |bits, &number| bits | bit(number))
}

fn bit(line: u32) -> u64 {
    1u64.wrapping_shl(line)
}

/// Until when a line is held.
#[derive(Clone, Copy)]
pub enum Until {
    /// All of these lines were reached.
    Reached(u64),
    /// One of these lines was answered.
    Answered(u64),
}

/// Lines, and until when each is held before it is carried out.
#[derive(Clone, Copy)]
pub struct Hold {
    pub lines: u64,
    pub until: Until,
}

/// A gate with some holds, and what it was told so far.
#[derive(Drop)]
pub struct Holding {
    holds: [Hold; 2],
    turns: u32,
    reached: AtomicU64,
    answered: AtomicU64,
    late: AtomicU32,
}

/// No line is held.
pub const NOTHING: Hold = Hold {
    lines: 0,
    until: Until::Reached(0),
};

impl Holding {
    pub fn new(holds: [Hold; 2]) -> Holding {
        Holding::for_turns(holds, TURNS)
    }

    /// A gate that holds no line for long.
    pub fn briefly(holds: [Hold; 2]) -> Holding {
        Holding::for_turns(holds, FEW_TURNS)
    }

    fn for_turns(holds: [Hold; 2], turns: u32) -> Holding {
        Holding {
            holds,
            turns,
            reached: AtomicU64::new(0),
            answered: AtomicU64::new(0),
            late: AtomicU32::new(0),
        }
    }

    /// The lines that were reached.
    pub fn reached(&self) -> u64 {
        self.reached.load(Ordering::SeqCst)
    }

    /// The lines that were answered.
    pub fn answered(&self) -> u64 {
        self.answered.load(Ordering::SeqCst)
    }

    /// How many lines were held for as many turns as a line is held at most.
    pub fn late(&self) -> u32 {
        self.late.load(Ordering::SeqCst)
    }

    /// All of these lines were reached and answered, and no other, and so many were late.
    pub fn expect_lines(&self, rt: &impl Abort, all: u64, late: u32) {
        assert!(rt; self.reached() == all);
        assert!(rt; self.answered() == all);
        assert!(rt; self.late() == late);
    }

    fn is_over(&self, until: Until) -> bool {
        match until {
            Until::Reached(all) => self.reached.load(Ordering::SeqCst) & all == all,
            Until::Answered(some) => self.answered.load(Ordering::SeqCst) & some != 0,
        }
    }

    fn hold(&self, until: Until) {
        let backoff = Backoff::new();
        for _ in 0..self.turns {
            if self.is_over(until) || self.late() > 0 {
                return;
            }
            backoff.snooze();
        }
        self.late.fetch_add(1, Ordering::SeqCst);
    }
}

impl Gate for Holding {
    fn at(&self, _worker: u32, line: u32, before: bool) {
        if !before {
            self.answered.fetch_or(bit(line), Ordering::SeqCst);
            return;
        }
        self.reached.fetch_or(bit(line), Ordering::SeqCst);
        for hold in &self.holds {
            if hold.lines & bit(line) != 0 {
                self.hold(hold.until);
            }
        }
    }
}
