//! What a seat knows. No value of these types is made; an array stands for a list of any length, and so
//! does a linked list, where the size of its elements is not known.
use gen_core::GenCaller;
use k42_kinds::{Answer, Entry};
use k42_shapes::Shape;
use phase_core::PhaseCaller;
use std::collections::LinkedList;
use turn_core::TurnCaller;

/// The object of a Begin, and the word that it found there.
#[derive(Clone, Copy, Debug, PartialEq, Eq)]
pub struct LastBegin {
    pub object: u32,
    pub word: u64,
}

/// One incarnation of one object.
#[derive(Clone, Copy, Debug, PartialEq, Eq)]
pub struct Row {
    pub object: u32,
    pub incarnation: u32,
}

/// The row that a call is inside, and the row's layout.
#[derive(Clone, Copy, Debug, PartialEq, Eq)]
pub struct Inside {
    pub object: u32,
    pub incarnation: u32,
    pub layout: u32,
    /// Whether the mediator counts the call.
    pub tracked: bool,
}

/// The steps of the protocol.
#[derive(Clone, Copy, Debug, PartialEq, Eq)]
pub enum StepName {
    Enter,
    Leave,
    TakeRole,
    AskGeneration,
    Look,
    Flip,
    GiveRole,
    Free,
    LookUp,
    LoadRoot,
    Install,
    EndCall,
    Knock,
    StepOut,
    Begin,
    ChangeEntry,
    Block,
    Move,
    TurnOver,
    Clear,
    Lock,
    Unlock,
    Lift,
    GiveBack,
    Reach,
    Put,
    Draw,
}

/// A step that a pass has taken.
#[derive(Clone, Copy, Debug, PartialEq, Eq)]
pub struct Taken {
    pub step: StepName,
    /// The number of its word.
    pub word: u64,
    /// What it found there; 0 where it tells nothing of that.
    pub found: u64,
    /// Of a put, whether the slot has a part since.
    pub full: bool,
}

/// What a pass knows of a cell that it has taken.
pub struct Note<P, O, R> {
    pub cell: u32,
    pub closed: bool,
    pub history: LinkedList<Entry<O, R>>,
    pub part: Option<P>,
}

/// What a pass knows.
pub struct PassView<P, O, R> {
    /// The shapes of each object's live layouts.
    pub shapes: [[Shape; 0]; 0],
    pub number: u32,
    pub turn: GenCaller,
    pub visitor: PhaseCaller,
    pub taker: TurnCaller<O, R>,
    /// How many graces it has begun.
    pub graces: u32,
    /// The generation of the processors that its grace has not flipped, once it has asked.
    pub base: Option<u32>,
    /// Of its last Begin, and what is kept of it.
    pub last: Option<LastBegin>,
    pub found: Option<Answer<R>>,
    pub abandoned: bool,
    /// Whether it has turned over the object that it swaps.
    pub turned: bool,
    /// The layout of the row that it is inside, once it has learned it.
    pub layout: Option<u32>,
    /// The tag of the layout with which it has handed on a row that it has not turned over.
    pub handed: Option<u32>,
    /// The rows that it holds, and how many of them it held as it took the role.
    pub rows: [Row; 0],
    pub granted: u32,
    pub notes: LinkedList<Note<P, O, R>>,
    /// The cell whose slot is out with it.
    pub out: Option<u32>,
    /// The cells at which its last entry was drawn, and whose seats do not tell it yet.
    pub untold: [u32; 0],
    /// The steps that it has taken, the last first.
    pub log: [Taken; 0],
}

/// What the seat of a cell knows: a copy of its history.
pub struct CellView<O, R> {
    pub history: LinkedList<Entry<O, R>>,
    pub closed: bool,
}

pub enum View<P, O, R> {
    /// One pass, or several whose seats are not parted yet, or were joined.
    Crew(LinkedList<PassView<P, O, R>>),
    Kept(CellView<O, R>),
    /// The row that a `Retired` names.
    Named(Row),
    /// A stamp to which some caller's clock has come.
    Drew(u64),
    Spent,
}
