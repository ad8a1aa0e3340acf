//! The lines of a history: who asked what of which object, and the answer.
ghost use Rattle.std.specs.Prelude.{◌≡◌, [], ◌∷◌, ◌++◌, OnOk, OnErr};

use k42_memory::Memory;

/// What a caller asked of an object: an operation, or that it be kept in another way.
#[derive(Clone, Copy, Debug, PartialEq, Eq)]
pub enum Act<O> {
    Call(O),
    Swap(To),
}

/// How an object is to be kept: in the layout of that number, or dead. A swap to `Dead` is a destroy. One to `Watch`
/// or `Unwatch` keeps the layout, and places a layer that counts calls round it, or takes it away.
/// All of them are swaps, and counted as such.
#[derive(Clone, Copy, Debug, PartialEq, Eq)]
pub enum To {
    /// The live layouts of an object are numbered from 0.
    Layout(u8),
    Dead,
    Watch,
    Unwatch,
}

/// How an act was answered. The number of `Swapped`, `Busy` and `Abandoned` counts the swaps of the
/// object from 1.
#[derive(Clone, Copy, Debug, PartialEq, Eq)]
pub enum Answer<R> {
    /// What the object replied to a call.
    Replied(R),
    /// The swap was carried out, as number so many of its object.
    Swapped(u32),
    /// Another caller's swap of this number was under way.
    Busy(u32),
    /// The object's incarnations were used up.
    Spent,
    /// The object was dead.
    Gone,
    /// The swap was begun under this number and given up for want of memory.
    Abandoned(u32),
}

/// One line of a history: who did what to which object, and how it was answered.
#[derive(Clone, Copy, Debug, PartialEq, Eq)]
pub struct Entry<O, R> {
    /// Where it stands in the order of entries. In a whole history it is its place, from 1.
    pub stamp: u64,
    /// The number of this entry among its caller's, from 0.
    pub index: u64,
    /// Who called, counted from 0.
    pub caller: u32,
    /// Which object, counted from 0.
    pub object: u32,
    /// How many swaps of the object were carried out before it; where another's swap refused it,
    /// before that one.
    pub incarnation: u32,
    /// The number of the first cell, a place for a representative, that its stamp was drawn at; 0
    /// where it was drawn at none.
    pub cell: u32,
    pub act: Act<O>,
    pub answer: Answer<R>,
    /// The caller's processor.
    pub proc: u32,
    /// The generation of the caller's activity; `None` for swaps.
    pub generation: Option<u32>,
}

impl<O: Copy + Drop, R: Copy + Drop> Entry<O, R> {
    /// Puts the entry behind the others. Want of memory leaves them.
    pub fn push_onto(&self, entries: &mut Vec<Entry<O, R>>) -> Result<(), Memory>
        ensures ok { OnOk result (entries.new.items ≡ entries.old.items ++ self.now ∷ []) }
        ensures memory { OnErr result (entries.new.items ≡ entries.old.items) }
    {
        entries.push(*self)?;
        Ok(())
    }
}

/// Which cells of a row an operation needs.
#[derive(Clone, Copy, Debug, PartialEq, Eq)]
pub enum Reach {
    One(u32),
    All,
}
