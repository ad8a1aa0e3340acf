//! A cell, with the seat that tells its history.
ghost use Rattle.std.specs.Prelude.{◌≡◌, ◌<◌, ◌≤◌, None, Some};
ghost use Rattle.k42_limits.specs.declared.TheConstants.{LAST_STAMP};
ghost use Rattle.k42_board.specs.Seats.{IsTold};

use crate::view::View;
use atomic_table::Badge;
use k42_kinds::{Kind, Layout};

/// A place for a part. The caller that has its lock takes it out of its slot, or steps it there.
#[derive(Drop)]
pub struct Content<P: Drop, O, R> {
    /// Blank until the first entry is drawn at it.
    pub(crate) badge: Badge<View<P, O, R>>,
    pub(crate) number: u32,
    pub(crate) closed: bool,
    /// The stamp of the last entry of its history.
    pub(crate) last: u64,
    /// Whoever has the cell may change it.
    pub part: Option<P>,
    ghost told: { IsTold closed last badge.views },
    ghost few: { number < 320 },
}

pub type Cell<L> = Content<<L as Layout>::Part, <L as Kind>::Op, <L as Kind>::Reply>;

impl<P: Drop, O, R> Content<P, O, R> {
    /// `(object * 2 + incarnation % 2) * 8 + place`.
    pub fn number(&self) -> u32
        ensures { result ≡ self.now.number }
    {
        self.number
    }

    /// Whether its row was handed on.
    pub fn is_closed(&self) -> bool
        ensures { result ≡ self.now.closed }
    {
        self.closed
    }

    /// The stamp of the last entry that was drawn at it, or 0.
    pub fn last_stamp(&self) -> u64
        ensures is { result ≡ self.now.last }
        ensures small { result ≤ LAST_STAMP }
    {
        self.last
    }

    /// Takes the part out.
    pub fn take_part(&mut self) -> Option<P>
        ensures taken { result ≡ self.old.part }
        ensures same { self.new ≡ record self.old { part = None } }
    {
        self.part.take()
    }

    /// Puts a part in.
    pub fn set_part(&mut self, part: P)
        requires { self.old.part ≡ None }
        ensures { self.new ≡ record self.old { part = Some part } }
    {
        self.part = Some(part);
    }

    /// Is told of the last entry that was drawn at it.
    pub fn tell(&mut self, badge: Badge<View<P, O, R>>, closed: bool, last: u64)
        requires { IsTold closed last badge.views }
        ensures number { self.new.number ≡ self.old.number }
        ensures part { self.new.part ≡ self.old.part }
        ensures told { self.new.badge.views ≡ badge.views }
    {
        self.badge = badge;
        self.closed = closed;
        self.last = last;
    }
}
