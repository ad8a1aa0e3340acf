//! The state of the machine: processors with their counts, and callers with their graces.
ghost use Rattle.std.specs.Prelude.{◌≡◌, ℕ, ◌-◌, ◌^◌, ◌<◌, ◌≤◌, nat_lt, length, slice_set, IfOk};
ghost use Rattle.std.specs.List.{list_all};
ghost use Rattle.k42_limits.specs.declared.TheConstants.{PROCESSORS};
ghost use Rattle.gen_core.specs.State.{proc_at, caller_at, put_proc, change_caller, fresh, IsPlan};
ghost use Rattle.gen_core.specs.Sound.{IsSound};
ghost use Rattle.gen_core.specs.Events.{exits_of, other_exits, exit_counted, is_free, after_flip, after_look};

use k42_memory::Memory;
use std::alloc::Global;
use std::marker::Model;

/// One processor: its generation, and how often it was entered and left.
#[derive(Clone, Copy, Debug, PartialEq, Eq)]
pub struct GenProc {
    pub generation: u32,
    /// The entries of the present generation, counted on from the exits of its parity.
    pub entered: u64,
    /// The exits of all activities of an even generation.
    pub exits_even: u64,
    pub exits_odd: u64,
}

/// How far a caller's grace period is. The numbers are processors.
#[derive(Clone, Copy, Debug, PartialEq, Eq)]
pub enum GraceAt {
    Idle,
    Flipping(u32),
    Looking(u32),
    Quiet,
}

/// One caller, with its activity and its grace period.
#[derive(Debug, Drop)]
pub struct GenCaller {
    /// The processor of its activities.
    pub proc: u32,
    /// The generation of its activity.
    pub active: Option<u32>,
    pub grace: GraceAt,
    /// The exits from which the next generation of the processor to be flipped will count on.
    pub coming: Option<u64>,
    /// For each processor the entries that its former generation had when it was flipped.
    pub waits: Vec<u64>,
}

impl Model for GenCaller {
    ghost use Rattle.gen_core.specs.Plain.{Caller};

    ghost Value = { Caller };

    ghost view = { λ c. record {
      proc = c.proc;
      active = c.active;
      grace = c.grace;
      coming = c.coming;
      waits = c.waits.items;
    } };
}

/// The processors and the callers, each named by its place.
#[derive(Debug, Drop)]
pub struct GenState {
    pub procs: Vec<GenProc>,
    pub callers: Vec<GenCaller>,
    /// The caller that waits for a grace period.
    pub role: Option<u32>,
}

impl Model for GenState {
    ghost use Rattle.gen_core.specs.Plain.{Generations};

    ghost Value = { Generations };

    ghost view = { λ s. record { procs = s.procs.items; callers = s.callers.items; role = s.role } };
}

impl GenProc {
    /// The exits of all activities whose generation is even, or odd.
    pub(crate) fn exits(&self, even: bool) -> u64
        ensures { result ≡ exits_of self.now even }
    {
        if even {
            self.exits_even
        } else {
            self.exits_odd
        }
    }

    /// The exits of the parity that the processor's generation has not.
    pub(crate) fn other_exits(&self) -> u64
        ensures { result ≡ other_exits self.now }
    {
        self.exits(self.generation % 2 != 0)
    }

    /// With one more exit of an activity whose generation is even, or odd.
    pub(crate) fn with_exit(&self, even: bool) -> GenProc
        requires { exits_of self.now even < 2 ^ 64 - 1 }
        ensures { result ≡ exit_counted self.now even }
    {
        if even {
            GenProc {
                exits_even: self.exits_even + 1,
                ..*self
            }
        } else {
            GenProc {
                exits_odd: self.exits_odd + 1,
                ..*self
            }
        }
    }
}

impl GraceAt {
    /// Where a grace is once it has flipped p of so many processors.
    pub(crate) fn after_flip(p: u32, procs: usize) -> GraceAt
        requires there { p < procs }
        requires few { procs ≤ PROCESSORS }
        ensures { result ≡ after_flip p procs }
    {
        if p as usize + 1 < procs {
            GraceAt::Flipping(p + 1)
        } else {
            GraceAt::Looking(0)
        }
    }

    /// Where a grace is once it has passed p of so many processors.
    pub(crate) fn after_look(p: u32, procs: usize) -> GraceAt
        requires there { p < procs }
        requires few { procs ≤ PROCESSORS }
        ensures { result ≡ after_look p procs }
    {
        if p as usize + 1 < procs {
            GraceAt::Looking(p + 1)
        } else {
            GraceAt::Quiet
        }
    }
}

impl GenCaller {
    /// Neither in an activity nor waiting for a grace period.
    pub(crate) fn is_free(&self) -> bool
        ensures { result ≡ is_free self.now }
    {
        matches!(self.grace, GraceAt::Idle) && self.active.is_none()
    }
}

impl GenState {
    /// A state in which nobody has entered. The callers are given by their processors.
    pub fn new(alloc: Global, procs: u32, callers: Vec<u32>) -> Result<GenState, Memory>
        requires { IsPlan procs callers.items }
        ensures new { IfOk result (λ s. s ≡ fresh procs callers.items) }
        ensures sound { IfOk result IsSound }
    {
        let processor = GenProc {
            generation: 0,
            entered: 0,
            exits_even: 0,
            exits_odd: 0,
        };
        let mut list = Vec::with_capacity(alloc, callers.len())?;
        for proc in &callers {
            list.push(GenCaller {
                proc: *proc,
                active: None,
                grace: GraceAt::Idle,
                coming: None,
                waits: vec![in alloc; 0; procs as usize]?,
            })?;
        }
        Ok(GenState {
            procs: vec![in alloc; processor; procs as usize]?,
            callers: list,
            role: None,
        })
    }

    pub(crate) fn processor(&self, p: usize) -> GenProc
        requires { p < length self.now.procs }
        ensures { result ≡ proc_at self.now p }
    {
        self.procs[p]
    }

    pub(crate) fn caller(&self, c: usize) -> &GenCaller
        requires { c < length self.now.callers }
        ensures { result.now ≡ caller_at self.now c }
    {
        &self.callers[c]
    }

    pub(crate) fn processors(&self) -> usize
        ensures { result ≡ length self.now.procs }
    {
        self.procs.len()
    }

    /// Whether each processor has a next generation.
    pub(crate) fn can_flip_all(&self) -> bool
        ensures { result ≡ list_all (λ k. nat_lt k.generation (2 ^ 32 - 1)) self.now.procs }
    {
        self.procs.iter().all(|proc| proc.generation < u32::MAX)
    }

    pub(crate) fn set_processor(&mut self, p: usize, proc: GenProc)
        requires { p < length self.old.procs }
        ensures { self.new ≡ put_proc self.old p proc }
    {
        self.procs[p] = proc;
    }

    pub(crate) fn set_active(&mut self, c: usize, active: Option<u32>)
        requires { c < length self.old.callers }
        ensures { self.new ≡ change_caller self.old c (λ x. record x { active = active }) }
    {
        let caller = &mut self.callers[c];
        caller.active = active;
    }

    pub(crate) fn set_grace(&mut self, c: usize, grace: GraceAt)
        requires { c < length self.old.callers }
        ensures { self.new ≡ change_caller self.old c (λ x. record x { grace = grace }) }
    {
        let caller = &mut self.callers[c];
        caller.grace = grace;
    }

    pub(crate) fn set_coming(&mut self, c: usize, coming: u64)
        requires { c < length self.old.callers }
        ensures { self.new ≡ change_caller self.old c (λ x. record x { coming = Some coming }) }
    {
        let caller = &mut self.callers[c];
        caller.coming = Some(coming);
    }

    /// Notes the entries to wait for at the processor that the caller has flipped.
    pub(crate) fn set_flipped(&mut self, c: usize, p: usize, entered: u64, grace: GraceAt)
        requires there { c < length self.old.callers }
        requires noted { p < length (caller_at self.old c).waits }
        ensures { self.new ≡ change_caller self.old c (λ x. record x {
          waits = slice_set x.waits p entered;
          coming = None;
          grace = grace;
        }) }
    {
        let caller = &mut self.callers[c];
        caller.waits[p] = entered;
        caller.coming = None;
        caller.grace = grace;
    }

    pub(crate) fn set_role(&mut self, role: Option<u32>)
        ensures { self.new ≡ record self.old { role = role } }
    {
        self.role = role;
    }
}
