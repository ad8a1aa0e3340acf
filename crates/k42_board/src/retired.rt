//! Rows on their way to whoever frees them, and what passes know of the queue that has them.
ghost use Rattle.std.specs.Prelude.{◌≡◌};

use crate::cell::Content;
use crate::view::{Row, View};
use atomic_table::Seat;
use k42_kinds::{Kind, Layout};

/// A row that is handed on, with a seat of its own.
#[derive(Drop)]
pub struct Slip<P: Drop, O, R> {
    pub(crate) row: Row,
    pub(crate) seat: Seat<Option<Content<P, O, R>>, View<P, O, R>>,
}

impl<P: Drop, O, R> Slip<P, O, R> {
    /// The row with the seat that names it.
    pub fn of(row: Row, seat: Seat<Option<Content<P, O, R>>, View<P, O, R>>) -> Slip<P, O, R>
        ensures { result ≡ record { row = row; seat = seat } }
    {
        Slip { row, seat }
    }

    /// The row, and the seat that names it.
    pub fn into_parts(self) -> (Row, Seat<Option<Content<P, O, R>>, View<P, O, R>>)
        ensures { result ≡ (self.row, self.seat) }
    {
        let Slip { row, seat } = self;
        (row, seat)
    }
}

pub type Retired<L> = Slip<<L as Layout>::Part, <L as Kind>::Op, <L as Kind>::Reply>;

/// Which table. No value of it is made; an array stands for a list.
pub struct TableName {
    pub words: u64,
    pub slots: u64,
    pub views_name: u64,
    pub atom: u64,
    pub block: u64,
    pub offset: u64,
    pub slot_names: [u64; 0],
}

/// What a pass knows of the queue. No value of it is made.
pub struct Carried {
    /// Whether it knows of which table the queue's rows are.
    pub tied: bool,
    /// The rows that it has pushed and popped, the oldest first.
    pub pushed: [Row; 0],
    pub popped: [Row; 0],
    pub table: TableName,
}
