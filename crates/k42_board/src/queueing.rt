//! Rows are handed on through one queue.
ghost use Rattle.std.specs.Prelude.{◌≡◌, ◌<◌, ◌≤◌, [], true, false, if◌then◌else◌, length};
ghost use Rattle.atomic_table.specs.Seated.{TableId};
ghost use Rattle.crossbeam_queue.specs.SegTies.{IsSegPassOf};
ghost use Rattle.k42_board.specs.Queueing.{IsTied, AreGranted, HoldsFew, newest, row_named, without_newest, with_again, with_newest};
ghost use Rattle.k42_board.specs.Phases.{IsGranted};
ghost use Rattle.k42_board.specs.Seen.{IsSeatOf};
ghost use Rattle.k42_board.specs.Views.{pass_in};
ghost use Rattle.k42_board.specs.Words.{many_words};
ghost use Rattle.k42_board.specs.declared.view.View.TheVariants.{Named};

use crate::board::{Board, BoardSeat};
use crate::cell::Content;
use crate::retired::{Carried, Slip};
use crate::view::View;
use atomic_table::{Join, Play, Seat};
use crossbeam_queue::protocol::{Lesson, Outcome, Protocol, Split};
use crossbeam_queue::{RuledSegQueue, SegPass};
use k42_kinds::Layout;
use std::marker::{Brand, PhantomData};

/// The rule of the queue.
pub struct Rows;

impl<P: Drop, O, R> Protocol<Slip<P, O, R>, Carried> for Rows {
    ghost use Rattle.std.specs.Prelude.{false};
    ghost use Rattle.k42_board.specs.Queueing.{Carries, carried_none, no_table};

    ghost holds = { Carries };

    ghost first = { carried_none false no_table };
}

pub type Line<P, O, R> = RuledSegQueue<Slip<P, O, R>, Carried, Rows>;

pub type Post<P, O, R> = SegPass<Slip<P, O, R>, Carried>;

/// The queue of a system. It goes with the system.
pub struct Lane<P: Drop, O, R> {
    pub line: Line<P, O, R>,
}

impl<P: Drop, O, R> Drop for Lane<P, O, R> {
    fn drop(self) {
        let Lane { line } = self;
        line.destroy();
    }
}

pub struct Push;

impl<P: Drop, O, R> Outcome<Slip<P, O, R>, Carried> for Push {
    ghost use Rattle.k42_board.specs.Queueing.{Pushed};

    ghost then = { Pushed };
}

pub struct Pop;

impl<P: Drop, O, R> Outcome<Slip<P, O, R>, Carried> for Pop {
    ghost use Rattle.k42_board.specs.Queueing.{Popped};

    ghost then = { Popped };
}

impl<P: Drop, O, R> Lesson<Slip<P, O, R>, Carried> for Pop {
    ghost use Rattle.k42_board.specs.Queueing.{IsRuled};

    ghost fact = { IsRuled };
}

pub struct Another;

impl Split<Carried> for Another {
    ghost use Rattle.k42_board.specs.Queueing.{fresh_carried};

    ghost left = { λ v. v };

    ghost right = { fresh_carried };
}

/// Which table the rows are of.
pub trait Naming {
    ghost table: { TableId };
}

impl Naming for Brand {
    ghost use Rattle.k42_board.specs.Queueing.{no_table};

    ghost table = { no_table };
}

struct Tie<B> {
    marker: PhantomData<B>,
}

impl<B: Naming> Split<Carried> for Tie<B> {
    ghost use Rattle.std.specs.Prelude.{true};
    ghost use Rattle.k42_board.specs.Queueing.{tied_to, carried_none};

    ghost left = { tied_to B.table };

    ghost right = { λ v. carried_none true B.table };
}

fn tie_named<B: Naming, P: Drop, O, R>(
    line: &Line<P, O, R>,
    root: &mut Post<P, O, R>,
    seat: &Seat<Option<Content<P, O, R>>, View<P, O, R>>,
)
    requires queue { IsSegPassOf line.now root.old }
    requires first { root.old.me.view.client.tied ≡ false }
    requires table { B.table ≡ seat.now.table_id }
    ensures queue { IsSegPassOf line.now root.new }
    ensures tied { IsTied seat.now.table_id root.new.me.view.client }
{
    drop(line.another::<Tie<B>>(root));
}

/// The first pass on the queue learns of which table the rows are.
pub fn tie_root<P: Drop, O, R>(
    line: &Line<P, O, R>,
    root: &mut Post<P, O, R>,
    seat: &Seat<Option<Content<P, O, R>>, View<P, O, R>>,
)
    requires queue { IsSegPassOf line.now root.old }
    requires first { root.old.me.view.client.tied ≡ false }
    ensures queue { IsSegPassOf line.now root.new }
    ensures tied { IsTied seat.now.table_id root.new.me.view.client }
{
    tie_named::<Brand, P, O, R>(line, root, seat);
}

struct See;

impl<P: Drop, O, R> Play<Option<Content<P, O, R>>, View<P, O, R>> for See {
    ghost use Rattle.k42_board.specs.Queueing.{AreGranted};
    ghost use Rattle.k42_board.specs.Steps.{TellsWith};

    ghost then = { TellsWith (λ found v. v) AreGranted };
}

struct Count;

impl<P: Drop, O, R> Play<Option<Content<P, O, R>>, View<P, O, R>> for Count {
    ghost use Rattle.k42_board.specs.Queueing.{HoldsFew};
    ghost use Rattle.k42_board.specs.Steps.{TellsWith};

    ghost then = { TellsWith (λ found v. v) HoldsFew };
}

struct Name;

impl<P, O, R> atomic_table::Split<View<P, O, R>> for Name {
    ghost use Rattle.k42_board.specs.Queueing.{keeps_older, names_newest};

    ghost left = { keeps_older };

    ghost right = { names_newest };
}

struct TakeBack;

impl<P, O, R> Join<View<P, O, R>> for TakeBack {
    ghost use Rattle.k42_board.specs.Queueing.{takes_back};
    ghost use Rattle.k42_board.specs.declared.view.View.TheVariants.{Spent};

    ghost both = { takes_back 0 };

    ghost spent = { Spent };
}

struct TakeBackGranted;

impl<P, O, R> Join<View<P, O, R>> for TakeBackGranted {
    ghost use Rattle.k42_board.specs.Queueing.{takes_back};
    ghost use Rattle.k42_board.specs.declared.view.View.TheVariants.{Spent};

    ghost both = { takes_back 1 };

    ghost spent = { Spent };
}

struct TakeIn;

impl<P, O, R> Join<View<P, O, R>> for TakeIn {
    ghost use Rattle.k42_board.specs.Queueing.{takes_in};
    ghost use Rattle.k42_board.specs.declared.view.View.TheVariants.{Spent};

    ghost both = { takes_in };

    ghost spent = { Spent };
}

/// Splits a seat off for the newest row that the pass holds.
pub fn name_newest<L: Layout>(board: &Board<L>, seat: &mut BoardSeat<L>) -> BoardSeat<L>
    requires ours { (seat.old.table_id ≡ board.now.shared.table_id) × (board.now.shared.table_id.words ≡ many_words) }
    requires pass { IsSeatOf seat.old.me (pass_in seat.old.me.0) }
    requires holds { 0 < length (pass_in seat.old.me.0).rows }
    ensures ours { (seat.new.table_id ≡ seat.old.table_id) × (seat.new.id ≡ seat.old.id) }
    ensures told { IsSeatOf seat.new.me (without_newest (pass_in seat.old.me.0)) }
    ensures named { (result.table_id ≡ seat.old.table_id) × (result.me ≡ (Named (newest (pass_in seat.old.me.0).rows), [])) }
    ensures granted { AreGranted (pass_in seat.old.me.0) 0 }
{
    board.shared.load::<See>(seat, 0);
    board.shared.split_seat::<Name>(seat)
}

/// Joins the seat of a row to that of a pass, which holds the row as its newest again.
pub fn take_back<L: Layout>(
    board: &Board<L>,
    seat: &mut BoardSeat<L>,
    named: BoardSeat<L>,
    granted: bool,
)
    requires ours { (seat.old.table_id ≡ board.now.shared.table_id) × (board.now.shared.table_id.words ≡ many_words) }
    requires pass { IsSeatOf seat.old.me (pass_in seat.old.me.0) }
    requires row { (named.table_id ≡ board.now.shared.table_id) × (named.me ≡ (Named (row_named named.me.0), [])) }
    requires few { (pass_in seat.old.me.0).granted ≤ length (pass_in seat.old.me.0).rows }
    requires all { granted ≡ true → (pass_in seat.old.me.0).granted ≡ length (pass_in seat.old.me.0).rows }
    requires granted { granted ≡ true → IsGranted (pass_in seat.old.me.0).visitor.noted (row_named named.me.0) }
    ensures ours { (seat.new.table_id ≡ seat.old.table_id) × (seat.new.id ≡ seat.old.id) }
    ensures told { IsSeatOf seat.new.me (with_again (row_named named.me.0) (if granted then 1 else 0) (pass_in seat.old.me.0)) }
{
    if granted {
        board.shared.join_seat::<TakeBackGranted>(seat, named);
    } else {
        board.shared.join_seat::<TakeBack>(seat, named);
    }
}

/// Joins the seat of a row to that of a pass, which holds the row as its newest.
pub fn take_in<L: Layout>(board: &Board<L>, seat: &mut BoardSeat<L>, named: BoardSeat<L>)
    requires ours { (seat.old.table_id ≡ board.now.shared.table_id) × (board.now.shared.table_id.words ≡ many_words) }
    requires pass { IsSeatOf seat.old.me (pass_in seat.old.me.0) }
    requires row { (named.table_id ≡ board.now.shared.table_id) × (named.me ≡ (Named (row_named named.me.0), [])) }
    requires few { (pass_in seat.old.me.0).granted ≤ length (pass_in seat.old.me.0).rows }
    ensures ours { (seat.new.table_id ≡ seat.old.table_id) × (seat.new.id ≡ seat.old.id) }
    ensures told { IsSeatOf seat.new.me (with_newest (row_named named.me.0) (pass_in seat.old.me.0)) }
    ensures few { HoldsFew (with_newest (row_named named.me.0) (pass_in seat.old.me.0)) 0 }
{
    board.shared.join_seat::<TakeIn>(seat, named);
    board.shared.load::<Count>(seat, 0);
}
