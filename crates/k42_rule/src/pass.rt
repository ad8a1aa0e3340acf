//! A pass: what one caller steps with.
ghost use Rattle.std.specs.Prelude.{◌≡◌, ◌<◌, ◌≤◌, ◌-◌, true, Some, drop, length, slice_index, is_some, IsOk, OnOk};
ghost use Rattle.k42_shapes.specs.Shapes.{IsKnownTag};
ghost use Rattle.k42_board.specs.declared.keep.Keep.TheVariants as keeps;
ghost use Rattle.k42_limits.specs.declared.TheConstants.{LAST_INCARNATION, LAST_STAMP, PASS_ENTRIES};
ghost use Rattle.k42_places.specs.Places.{EachPlace};
ghost use Rattle.phase_core.specs.Stages.{named_by, object_named};
ghost use Rattle.phase_core.specs.State.{note_at};
ghost use Rattle.k42_rule.specs.Finishing.{with_none};
ghost use Rattle.k42_rule.specs.Sections.{HasParts, given_all};
ghost use Rattle.k42_rule.specs.Settled.{IsSettled};
ghost use Rattle.k42_board.specs.Gracing.{FitsGrace};
ghost use Rattle.k42_board.specs.Phases.{is_served};
ghost use Rattle.k42_board.specs.Seen.{HasRoom, IsParted, IsRoomier, inside_in, is_at_rest, kept_by};
ghost use Rattle.k42_board.specs.Swapping.{FitsSwap};
ghost use Rattle.k42_board.specs.Values.{layout_in, incarnation_in};
ghost use Rattle.k42_board.specs.Views.{object_begun, shapes_at, word_begun};

use atomic_table::Seat;
use crossbeam_queue::SegPass;
use gen_core::GraceAt;
use k42_board::{Carried, Content, Inside, Keep, LastBegin, Row, Slip, View, layout_in};
use k42_kinds::{Kind, Layout, Packed, PackedReply};
use k42_log::Log;
use k42_memory::Memory;
use phase_core::{Place, SwapAt};
use std::alloc::Global;
use std::marker::Model;
use std::mem::replace;

#[derive(Drop)]
pub struct Walker<P: Drop, O: Packed, R: PackedReply> {
    pub(crate) seat: Seat<Option<Content<P, O, R>>, View<P, O, R>>,
    pub(crate) post: SegPass<Slip<P, O, R>, Carried>,
    pub(crate) number: u32,
    pub(crate) home: u32,
    pub(crate) active: Option<u32>,
    pub(crate) grace: GraceAt,
    /// Of exits to come, and of entries that its grace waits for, the lower 32 bits, as words tell them.
    pub(crate) coming: Option<u32>,
    pub(crate) waits: Vec<u32>,
    pub(crate) place: Place,
    pub(crate) noted: Vec<Option<u32>>,
    pub(crate) freeing: Vec<(u32, u32)>,
    pub(crate) swap: SwapAt,
    /// How many entries it has drawn, and the stamp above which it draws the next.
    pub(crate) drawn: u64,
    pub(crate) clock: u64,
    pub(crate) keep: Keep,
    /// How many of its entries sections have taken, and the clock to which the last of these raised all.
    pub(crate) given: u64,
    pub(crate) since: u64,
    pub(crate) kept: Log<O, R>,
    pub(crate) graces: u32,
    pub(crate) base: Option<u32>,
    pub(crate) last: Option<LastBegin>,
    pub(crate) turned: bool,
    pub(crate) layout: Option<u32>,
    pub(crate) handed: Option<u32>,
    pub(crate) rows: Vec<Row>,
    pub(crate) granted: usize,
    // Passes that lie side by side are of several threads, which would share a cache line.
    pub(crate) _apart: [u64; 16],
}

pub type Pass<L> = Walker<<L as Layout>::Part, <L as Kind>::Op, <L as Kind>::Reply>;

impl<P: Drop, O: Packed, R: PackedReply> Model for Walker<P, O, R> {
    ghost use Rattle.std.specs.Prelude.{ℕ, ◌+◌, ◌-◌, ◌^◌, ◌≡◌, ◌<◌, ◌≤◌, None, length, vec_capacity};
    ghost use Rattle.std.specs.Option.{unwrap_or};
    ghost use Rattle.k42_limits.specs.declared.TheConstants.{LAST_INCARNATION, LAST_STAMP};
    ghost use Rattle.phase_core.specs.Stages.{object_of, row_of, object_named};
    ghost use Rattle.k42_board.specs.Gracing.{FitsGrace};
    ghost use Rattle.k42_board.specs.Queueing.{IsTied};
    ghost use Rattle.k42_board.specs.Seen.{PassSeen, Mirrors};
    ghost use Rattle.k42_board.specs.Swapping.{next_entry, FitsSwap};
    ghost use Rattle.k42_board.specs.Values.{layout_in, incarnation_in};
    ghost use Rattle.k42_board.specs.Views.{object_begun, pass_in, shapes_at, word_begun};
    ghost use Rattle.k42_shapes.specs.Shapes.{IsKnownTag};
    ghost use Rattle.k42_rule.specs.Keeping.{HasKept};

    ghost Value = { PassSeen P O R };

    ghost view = { λ p. record {
      table = p.seat.table_id;
      seat = p.seat.id;
      keep = record { what = p.keep; given = p.given; since = p.since };
      view = pass_in p.seat.me.0;
      room = p.kept.room;
      row_room = vec_capacity p.rows - length p.rows.items;
      queue = record { web = p.post.web; heap = p.post.heap };
      pushed = p.post.me.view.client.pushed;
      popped = p.post.me.view.client.popped;
    } };

    ghost invariant = { λ p. Mirrors p.seat.me (record {
      number = p.number;
      turn = record { proc = p.home; active = p.active; grace = p.grace; coming = p.coming; waits = p.waits.items };
      place = p.place;
      noted = p.noted.items;
      freeing = p.freeing.items;
      swap = p.swap;
      drawn = p.drawn;
      clock = p.clock;
      graces = p.graces;
      base = p.base;
      last = p.last;
      turned = p.turned;
      layout = p.layout;
      handed = p.handed;
      rows = p.rows.items;
      granted = p.granted;
    }) × (p.home < 8) × (object_of p.place < 16) × (unwrap_or p.layout 0 < 16)
        × (object_named p.swap < 16) × (unwrap_or (next_entry p.swap) 0 < 8) × (length p.waits.items ≤ 8)
        × (incarnation_in (word_begun p.last) ≤ LAST_INCARNATION) × IsKnownTag (shapes_at (pass_in p.seat.me.0) (object_of p.place)) (unwrap_or p.layout 0)
        × (row_of p.place ≤ LAST_INCARNATION)
        × (p.granted ≤ length p.rows.items)
        × FitsGrace p.grace p.base (length p.waits.items) × (unwrap_or p.base 0 + 1 < 2 ^ 32)
        × HasKept (record { what = p.keep; given = p.given; since = p.since }) p.number p.home (pass_in p.seat.me.0).taker.mine p.clock p.kept
        × (p.clock ≤ LAST_STAMP)
        × FitsSwap (pass_in p.seat.me.0).shapes p.swap p.turned p.handed p.last
        × (p.post.me.hand ≡ None) × (p.post.me.spare ≡ None) × IsTied p.seat.table_id p.post.me.view.client
        × (unwrap_or p.handed 0 < 16) × (object_begun p.last < 16) };
}

impl<P: Drop, O: Packed, R: PackedReply> Walker<P, O, R> {
    pub fn caller(&self) -> u32
        ensures { result ≡ self.now.view.number }
    {
        self.number
    }

    pub fn processor(&self) -> u32
        ensures is { result ≡ self.now.view.turn.proc }
        ensures settled { IsSettled self.now.view }
    {
        self.home
    }

    /// Whether it is in an activity.
    pub fn is_active(&self) -> bool
        ensures { result ≡ is_some self.now.view.turn.active }
    {
        self.active.is_some()
    }

    /// The generation of its activity.
    pub fn generation(&self) -> Option<u32>
        ensures { result ≡ self.now.view.turn.active }
    {
        self.active
    }

    /// How far its grace is.
    pub fn grace(&self) -> GraceAt
        ensures is { result ≡ self.now.view.turn.grace }
        ensures fits { FitsGrace self.now.view.turn.grace self.now.view.base (length self.now.view.turn.waits) }
    {
        self.grace
    }

    /// How many entries of the former generation on the processor its grace waits for.
    pub fn waits(&self, proc: u32) -> u32
        requires { proc < length self.now.view.turn.waits }
        ensures { result ≡ slice_index self.now.view.turn.waits proc }
    {
        self.waits[proc as usize]
    }

    /// The generation that its grace found.
    pub fn base(&self) -> Option<u32>
        ensures { result ≡ self.now.view.base }
    {
        self.base
    }

    /// What it has learned of the exits to come on the processor that its grace flips next.
    pub fn coming(&self) -> Option<u32>
        ensures { result ≡ self.now.view.turn.coming }
    {
        self.coming
    }

    /// How many entries it has drawn.
    pub fn drawn(&self) -> u64
        ensures { result ≡ length self.now.view.taker.mine }
    {
        self.drawn
    }

    /// Which of its entries it keeps.
    pub fn keep(&self) -> Keep
        ensures { result ≡ self.now.keep.what }
    {
        self.keep
    }

    /// The stamp above which it draws its next entry. None of its entries has a greater one.
    pub fn clock(&self) -> u64
        ensures is { result ≡ self.now.view.taker.clock }
        ensures small { result ≤ LAST_STAMP }
        ensures below { EachPlace (λ place entry. entry.stamp ≤ result) self.now.view.taker.mine }
    {
        self.clock
    }

    /// How many of its entries it has given to sections.
    pub fn given(&self) -> u64
        ensures is { result ≡ self.now.keep.given }
        ensures few { result ≤ PASS_ENTRIES }
        ensures parted { IsParted self.now.keep self.now.view.taker.mine }
    {
        self.given
    }

    /// The clock to which the last section has raised all, which parts what was given from what was drawn since.
    pub fn since(&self) -> u64
        ensures is { result ≡ self.now.keep.since }
        ensures passed { result ≤ self.now.view.taker.clock }
    {
        self.since
    }

    /// The log of the entries that it keeps, the oldest first.
    pub fn log(&self) -> &Log<O, R>
        ensures kept { result.now.entries ≡ kept_by self.now.keep self.now.view.taker.mine }
        ensures last { result.now.entries ≡ drop (length self.now.view.taker.mine - length result.now.entries) self.now.view.taker.mine }
    {
        &self.kept
    }

    /// Gives away the log of what it has kept. It keeps none from now on.
    pub(crate) fn give_kept(&mut self, alloc: Global) -> Log<O, R>
        ensures given { result.entries ≡ kept_by self.old.keep self.old.view.taker.mine }
        ensures few { length result.entries ≤ PASS_ENTRIES }
        ensures stays { self.new ≡ with_none self.old }
    {
        self.keep = Keep::Nothing;
        replace(&mut self.kept, Log::new(alloc, self.number, self.home, 0))
    }

    /// Gives away what it has drawn since the last section. The next has what it draws from now on.
    pub(crate) fn give_rest(&mut self, alloc: Global) -> Log<O, R>
        requires { self.old.keep.what ≡ keeps.Sections }
        ensures given { result.entries ≡ drop self.old.keep.given self.old.view.taker.mine }
        ensures few { length result.entries ≤ PASS_ENTRIES }
        ensures parts { HasParts self.old }
        ensures stays { self.new ≡ given_all self.old }
    {
        let log = Log::new(alloc, self.number, self.home, self.drawn);
        let kept = replace(&mut self.kept, log);
        self.given = self.drawn;
        self.since = self.clock;
        kept
    }

    /// How many graces it has begun.
    pub fn graces(&self) -> u32
        ensures { result ≡ self.now.view.graces }
    {
        self.graces
    }

    /// The object of its last Begin, and the word that this found.
    pub fn last_begin(&self) -> Option<LastBegin>
        ensures is { result ≡ self.now.view.last }
        ensures object { object_begun self.now.view.last < 16 }
        ensures incarnation { incarnation_in (word_begun self.now.view.last) ≤ LAST_INCARNATION }
        ensures settled { IsSettled self.now.view }
    {
        self.last
    }

    /// The rows that it holds, the oldest first.
    pub fn rows(&self) -> &[Row]
        ensures { result.now ≡ self.now.view.rows }
    {
        self.rows.as_slice()
    }

    /// For how many more rows there is room.
    pub fn row_room(&self) -> usize
        ensures { result ≡ self.now.row_room }
    {
        self.rows.capacity() - self.rows.len()
    }

    /// What its grace noted of the object.
    pub fn noted(&self, object: u32) -> Option<u32>
        requires { object < length self.now.view.visitor.noted }
        ensures { result ≡ note_at self.now.view.visitor.noted object }
    {
        self.noted[object as usize]
    }

    /// How far its swap is.
    pub fn swap(&self) -> SwapAt
        ensures is { result ≡ self.now.view.visitor.swap }
        ensures object { object_named self.now.view.visitor.swap < 16 }
        ensures settled { IsSettled self.now.view }
        ensures linked { FitsSwap self.now.view.shapes self.now.view.visitor.swap self.now.view.turned self.now.view.handed self.now.view.last }
    {
        self.swap
    }

    /// Whether it has turned over the object that it swaps.
    pub fn has_turned(&self) -> bool
        ensures { result ≡ self.now.view.turned }
    {
        self.turned
    }

    /// Whether it has no activity, no grace and no swap under way.
    pub fn is_idle(&self) -> bool
        ensures { result ≡ is_at_rest self.now.view }
    {
        self.active.is_none() && self.grace == GraceAt::Idle && self.swap == SwapAt::Idle
    }

    /// The row that its call is inside.
    pub fn inside(&self) -> Inside
        requires { is_served self.now.view.visitor.place ≡ true }
        ensures is { result ≡ inside_in self.now.view }
        ensures bounds { (result.object < 16) × (result.incarnation ≤ LAST_INCARNATION) × (result.layout < 16) }
        ensures known { IsKnownTag (shapes_at self.now.view result.object) result.layout }
    {
        let layout = self.layout.unwrap_or(0);
        match self.place {
            Place::Direct(object, incarnation) => Inside {
                object,
                incarnation,
                layout,
                tracked: false,
            },
            Place::Tracked(object, incarnation) => Inside {
                object,
                incarnation,
                layout,
                tracked: true,
            },
            _ => unreachable!(),
        }
    }

    /// The tag of the layout with which it has handed on a row, until it turns over.
    pub fn handed_layout(&self) -> u32
        requires { is_some self.now.view.handed ≡ true }
        ensures is { self.now.view.handed ≡ Some result }
        ensures known { IsKnownTag (shapes_at self.now.view (object_named self.now.view.visitor.swap)) result }
    {
        let Some(tag) = self.handed else {
            unreachable!()
        };
        tag
    }

    /// The tag of the layout that its last Begin found.
    pub fn begun_layout(&self) -> u32
        requires { is_some (named_by self.now.view.visitor.swap) ≡ true }
        ensures is { result ≡ layout_in (word_begun self.now.view.last) }
        ensures bound { result < 16 }
    {
        layout_in(self.last.map_or(0, |begin| begin.word))
    }

    /// Makes room for one more entry, for which who keeps none needs no memory. Where there is no memory it knows the
    /// same.
    #[inline(always)]
    pub fn reserve_entry(&mut self) -> Result<(), Memory>
        ensures same { IsRoomier self.old self.new }
        ensures rows { self.new.row_room ≡ self.old.row_room }
        ensures ok { OnOk result (HasRoom self.new) }
        ensures none { self.old.keep.what ≡ keeps.Nothing → IsOk result × (self.new ≡ self.old) }
    {
        if self.keep != Keep::Nothing {
            self.kept.reserve()?;
        }
        Ok(())
    }

    /// Makes room for one more entry and one more row. Where there is no memory it knows the same.
    pub fn reserve(&mut self) -> Result<(), Memory>
        ensures same { IsRoomier self.old self.new }
        ensures ok { OnOk result (HasRoom self.new × (1 ≤ self.new.row_room)) }
        ensures none { self.old.keep.what ≡ keeps.Nothing → self.new.room ≡ self.old.room }
    {
        self.reserve_entry()?;
        self.rows.reserve(1)?;
        Ok(())
    }
}
