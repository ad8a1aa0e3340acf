//! A pass with its system, by what it may do next.
ghost use Rattle.std.specs.Prelude.{◌≡◌};
ghost use Rattle.std.specs.Arc.{arc_value};
ghost use Rattle.k42_crews.specs.Ready.{IsFree, IsIn, AreFree, AreAll};
ghost use Rattle.k42_board.specs.declared.keep.Keep.TheVariants.{Sections};
ghost use Rattle.k42_handles.specs.FreeProps.{AreFree-prop};
ghost use Rattle.k42_handles.specs.Going.{IsReclaiming, IsSwapping};
ghost use Rattle.k42_handles.specs.GoingProps.{IsReclaiming-prop, IsSwapping-prop};

use crate::home::Home;
use co_system::{History, Journal, Pass, Swap, System};
use k42_kinds::{Op, Reply};
use k42_quiesce::Grace;
use std::alloc::Global;
use std::sync::Arc;

/// A pass with nothing under way.
#[derive(Drop)]
pub struct Rests {
    pub(crate) home: Arc<Home, Global>,
    /// In a box, so that a seat is small where it is moved.
    pub(crate) pass: Box<Pass, Global>,
    ghost free: { IsFree (arc_value home).system pass.value },
}

/// A pass in an activity.
#[derive(Drop)]
pub struct Works {
    pub(crate) home: Arc<Home, Global>,
    pub(crate) pass: Box<Pass, Global>,
    ghost works: { IsIn (arc_value home).system pass.value },
}

/// A pass with a swap under way.
#[derive(Drop)]
pub struct Swaps {
    pub(crate) home: Arc<Home, Global>,
    pub(crate) pass: Box<Pass, Global>,
    pub(crate) swap: Swap,
    ghost swaps: { IsSwapping (arc_value home).system swap pass.value } by { IsSwapping-prop (arc_value home).system swap pass.value },
}

/// A pass whose grace is to free its rows.
#[derive(Drop)]
pub struct Reclaims {
    pub(crate) home: Arc<Home, Global>,
    pub(crate) pass: Box<Pass, Global>,
    pub(crate) grace: Grace,
    ghost reclaims: { IsReclaiming (arc_value home).system grace pass.value } by { IsReclaiming-prop (arc_value home).system grace pass.value },
}

/// A pass that lies at the desk of its home, for a section.
#[derive(Drop)]
pub struct Parks {
    pub(crate) home: Arc<Home, Global>,
    /// Whose pass it is.
    pub(crate) caller: u32,
    /// The section, if this pass was the last to come.
    pub(crate) section: Box<End, Global>,
    ghost keeps: { (arc_value home).system.plan.keep ≡ Sections },
}

/// All passes, in a home that whoever gave the others back has not left yet.
#[derive(Drop)]
pub struct Closes {
    pub(crate) home: Arc<Home, Global>,
    pub(crate) passes: Vec<Pass>,
    /// A place for the end, so that it takes no memory.
    pub(crate) end: Box<End, Global>,
    ghost free: { AreFree (arc_value home).system passes.items } by { AreFree-prop (arc_value home).system passes.items },
    ghost all: { AreAll (arc_value home).system passes.items },
}

/// A system with all its passes.
#[derive(Drop)]
pub struct Whole {
    pub(crate) system: System,
    pub(crate) passes: Vec<Pass>,
    ghost free: { AreFree system passes.items } by { AreFree-prop system passes.items },
    ghost all: { AreAll system passes.items },
}

/// What is there once all passes were given back, or were put to the desk.
#[derive(Drop)]
pub enum End {
    /// Nothing yet.
    Open,
    /// There was no memory for the history.
    Whole(Whole),
    History(History),
    /// What the passes have drawn since the last one.
    Section(Journal<Op, Reply>),
}

/// What a handle has in it.
#[derive(Drop)]
pub enum Seat {
    Gone,
    Rests(Rests),
    Works(Works),
    Swaps(Swaps),
    Reclaims(Reclaims),
    Parks(Parks),
    Closes(Closes),
    Ends(Box<End, Global>),
}
