//! Swaps, destroys, watches and unwatches, which may be stepped where nobody may wait.
ghost use Rattle.std.specs.Prelude.{◌≡◌, false, None};
ghost use Rattle.k42_runtime.specs.Swaps.{IsAtStage, HasStepped, is_over};
ghost use Rattle.k42_runtime.specs.Systems.{IsPassHere, MayLead};
ghost use Rattle.k42_runtime.specs.declared.swaps.Stage.TheVariants as Stage;

use crate::system::System;
use k42_clustered::Clustered;
use k42_kinds::To;
use k42_quiesce::Grace;
use k42_rule::Pass;
use std::alloc::Global;
use std::marker::Model;

/// How a swap ended. The numbers count the object's swaps from 1.
#[derive(Clone, Copy, Debug, PartialEq, Eq)]
pub enum Swapped {
    Done(u32),
    /// Another swap of the object was under way.
    Busy(u32),
    /// The object was at its last incarnation.
    Spent,
    /// The object was dead.
    Gone,
}

/// What holds a swap up.
#[derive(Clone, Copy, Debug, PartialEq, Eq)]
pub enum Cause {
    /// So many activities of the former generation have not left the processor.
    Left { proc: u32, left: u32 },
    /// Another caller has the role for its grace.
    RoleHeld { holder: u32 },
    /// So many callers are still counted.
    InFlight { count: u32 },
    /// The caller of this number held the cell at which the swap is to tell that its object is over.
    CellHeld { holder: u32 },
}

/// How far a step has brought a swap.
#[derive(Clone, Copy, Debug, PartialEq, Eq)]
pub enum Step {
    Again(Cause),
    Ended(Swapped),
    /// The old implementation is open, and the pass is idle.
    Memory,
    /// The pass has drawn all the entries that a pass draws, or has begun all its graces. Nothing was begun.
    Worn,
}

/// Why a swap was not made.
#[derive(Clone, Copy, Debug, PartialEq, Eq, thiserror::Error)]
pub enum NoSwap {
    #[error("out of memory")]
    Memory,
    #[error("the pass has drawn all its entries, or has begun all its graces")]
    Worn,
}

/// How far a swap is.
#[derive(Clone, Copy, Debug, PartialEq, Eq)]
pub enum Stage {
    New,
    Waiting,
    Shut,
    Marking,
    Over,
}

/// A swap of an object.
#[derive(Drop)]
pub struct Swap {
    pub(crate) object: u32,
    pub(crate) to: To,
    pub(crate) stage: Stage,
    pub(crate) grace: Grace,
}

impl Model for Swap {
    ghost use Rattle.k42_runtime.specs.Swaps.{SwapSeen};

    ghost Value = { SwapSeen };

    ghost view = { λ s. record { object = s.object; to = s.to; stage = s.stage; holder = s.grace } };
}

impl Swap {
    /// A swap that has not begun.
    pub fn new(object: u32, to: To) -> Swap
        ensures { result ≡ record { object = object; to = to; stage = Stage.New; holder = None } }
    {
        Swap {
            object,
            to,
            stage: Stage::New,
            grace: Grace::new(),
        }
    }

    /// Whether it has answered `Ended`, `Memory` or `Worn`.
    pub fn ended(&self) -> bool
        ensures { result ≡ is_over self.now.stage }
    {
        self.stage == Stage::Over
    }

    /// Goes on as far as it can without waiting. It is always stepped with the same pass, which is used for nothing else
    /// meanwhile. For want of memory the swap ends, with nothing begun, or given up.
    pub fn step<L: Clustered>(
        &mut self,
        alloc: Global,
        system: &System<L>,
        pass: &mut Pass<L>,
    ) -> Step
        requires ours { IsPassHere system.now pass.old }
        requires stage { IsAtStage self.old.stage system.now.sys.shapes self.old pass.old }
        requires leads { MayLead L.leads system.now.plan.objects self.old.object self.old.to }
        requires going { is_over self.old.stage ≡ false }
        ensures { HasStepped system.now result self.old self.new pass.old pass.new }
    {
        match self.stage {
            Stage::New => self.begin(alloc, system, pass),
            Stage::Waiting => self.wait(alloc, system, pass),
            Stage::Shut => self.shut(alloc, system, pass),
            Stage::Marking => self.mark(system, pass),
            Stage::Over => unreachable!(),
        }
    }
}
