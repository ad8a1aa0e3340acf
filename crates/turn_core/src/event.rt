//! What may happen to cells.
use k42_items::Items;
use k42_kinds::Entry;

/// What a caller, named first by its number, may do next. Cells are named by their numbers.
#[derive(Debug, Drop)]
pub enum TurnEvent<O, R> {
    /// Locks a cell, where it is free.
    Lock(u32, u32),
    /// Takes a cell that it holds from its place.
    Take(u32, u32),
    /// Draws an entry at these cells.
    Draw(u32, Items<u32>, Entry<O, R>),
    /// Draws an entry at no cell.
    Alone(u32, Entry<O, R>),
    /// Closes the first cells, begins a new life of the second, and draws an entry there.
    Hand(u32, Items<u32>, Items<u32>, Entry<O, R>),
    /// Puts a cell that it took back to its place.
    Put(u32, u32),
    /// Gives a cell free.
    Unlock(u32, u32),
    /// Raises its clock to a stamp that was drawn, so that what it draws next is later.
    Skip(u32, u64),
}
