//! A layout with a layer round it that counts the calls of its object.
ghost use Rattle.std.specs.Prelude.{◌≡◌, IsTrue, refl};
ghost use Rattle.k42_kinds.specs.LayoutLaws.{IsTagged};
ghost use Rattle.k42_kinds.specs.Watched.{watched};
ghost use Rattle.k42_shapes.specs.Shapes.{is_dead_tag};
ghost use Rattle.k42_watch.specs.WatchedRows as rows;
ghost use Rattle.k42_watch.specs.WatchedRows.{inners, watched_ways, IsWatchedRow, LeadsWatched, ServesWatched, admitted_watched, watched_act};
ghost use Rattle.k42_watch.specs.WatchLaws as laws;
ghost use Rattle.k42_watch.specs.declared.watch.Layer.TheVariants.{Keep};

use crate::bare::Bare;
use crate::rows::{count_made, count_of, put_together, shared_out, take_apart};
use k42_clustered::Clustered;
use k42_kinds::{Act, Kind, Layout, Reach, To, WatchState, counted};
use k42_memory::Memory;
use k42_shapes::Shape;
use std::alloc::Global;
use std::mem::replace;

/// What a layout does with the layer of an object that comes to it alive.
#[derive(Clone, Copy, Debug, PartialEq, Eq)]
pub enum Layer {
    Keep,
    /// The count starts at 0, whatever it was.
    Place,
    Take,
}

/// A layout, and what it does with the layer.
#[derive(Clone, Copy, Debug, PartialEq, Eq)]
pub struct Watch<L> {
    pub inner: L,
    pub layer: Layer,
}

/// A part of the layout, and how many calls it has counted.
#[derive(Debug, Drop)]
pub struct WatchPart<P> {
    pub inner: P,
    pub seen: Option<u64>,
}

impl<L: Bare> Kind for Watch<L> {
    type State = WatchState<L::State>;

    type Op = L::Op;

    type Reply = L::Reply;

    ghost object = { λ watch. watched L.asking (L.object watch.inner) };

    fn empty(&self, alloc: Global) -> WatchState<L::State> {
        WatchState {
            inner: self.inner.empty(alloc),
            seen: None,
        }
    }

    fn takes(&self, op: &L::Op) -> bool {
        L::asks_count(op) || self.inner.takes(op)
    }

    fn step(
        &self,
        alloc: Global,
        state: &mut WatchState<L::State>,
        op: &L::Op,
    ) -> Result<L::Reply, Memory> {
        if L::asks_count(op) {
            return Ok(L::tell_count(self.inner.has_ended(&state.inner), state.seen));
        }
        let reply = self.inner.step(alloc, &mut state.inner, op)?;
        state.seen = counted(state.seen);
        Ok(reply)
    }
}

impl<L: Bare> Layout for Watch<L> {
    type Part = WatchPart<L::Part>;

    ghost shapes = { λ watch. L.shapes watch.inner };

    ghost tag_of = { λ watch. L.tag_of watch.inner };

    ghost has_tag = { λ watch tag. L.has_tag watch.inner tag };

    ghost ways = { λ watch. watched_ways L.asking (rows.within (L.shapes watch.inner) (L.tag_of watch.inner)) (L.ways watch.inner) };

    ghost whole = { λ watch procs. IsWatchedRow (rows.within (L.shapes watch.inner) (L.tag_of watch.inner)) (L.whole watch.inner procs) };

    ghost serves = { λ watch. ServesWatched (rows.within (L.shapes watch.inner) (L.tag_of watch.inner)) (L.serves watch.inner) };

    ghost admitted = { λ watch. admitted_watched (is_dead_tag (L.shapes watch.inner) (L.tag_of watch.inner)) watch.layer (L.admitted watch.inner) };

    ghost act_of = { λ watch. watched_act (is_dead_tag (L.shapes watch.inner) (L.tag_of watch.inner)) watch.layer (L.act_of watch.inner) };

    ghost leads = { λ watch. LeadsWatched (L.leads watch.inner) };

    fn tag(&self) -> u32 {
        self.inner.tag()
    }

    fn live(&self) -> u32 {
        self.inner.live()
    }

    fn shape(&self) -> Shape {
        self.inner.shape()
    }

    fn with_tag(&self, tag: u32) -> Self
        requires { IsTrue (L.has_tag self.now.inner tag) }
        ensures tagged { IsTagged (watched L.asking (L.object result.inner)) (watched L.asking (L.object self.now.inner)) (L.tag_of result.inner) tag }
        ensures keeps { result.layer ≡ Keep }
    {
        Watch {
            inner: self.inner.with_tag(tag),
            layer: Layer::Keep,
        }
    }

    fn target(&self, to: To, present: u32) -> Self {
        let (inner, layer) = match to {
            To::Layout(_) | To::Dead => (self.inner.target(to, present), Layer::Keep),
            To::Watch => (self.inner.with_tag(present), Layer::Place),
            To::Unwatch => (self.inner.with_tag(present), Layer::Take),
        };
        Watch { inner, layer }
    }

    fn reach(&self, op: &L::Op, proc: u32, procs: u32) -> Reach {
        if !L::asks_count(op) {
            return self.inner.reach(op, proc, procs);
        }
        match self.inner.shape() {
            Shape::One => Reach::One(0),
            Shape::Each | Shape::Groups(_) => Reach::All,
        }
    }

    fn empty_part(
        &self,
        alloc: Global,
        cell: u32,
        procs: u32,
    ) -> Result<WatchPart<L::Part>, Memory> {
        Ok(WatchPart {
            inner: self.inner.empty_part(alloc, cell, procs)?,
            seen: None,
        })
    }

    #[inline(always)]
    fn step_one(
        &self,
        alloc: Global,
        part: &mut WatchPart<L::Part>,
        op: &L::Op,
    ) -> Result<L::Reply, Memory> {
        if L::asks_count(op) {
            return Ok(L::tell_count(self.inner.tag() == self.inner.live(), part.seen));
        }
        let reply = self.inner.step_one(alloc, &mut part.inner, op)?;
        part.seen = counted(part.seen);
        Ok(reply)
    }

    fn step_all(
        &self,
        alloc: Global,
        parts: &mut Vec<WatchPart<L::Part>>,
        op: &L::Op,
    ) -> Result<L::Reply, Memory> {
        if L::asks_count(op) {
            return Ok(L::tell_count(self.inner.tag() == self.inner.live(), count_of(parts)));
        }
        let mut inners = Vec::with_capacity(alloc, parts.len())?;
        let mut seens = Vec::with_capacity(alloc, parts.len())?;
        let room = Vec::with_capacity(alloc, parts.len())?;
        take_apart(replace(parts, room), &mut inners, &mut seens);
        let replied = self.inner.step_all(alloc, &mut inners, op);
        count_made(replied.is_ok(), &mut seens);
        put_together(inners, &seens, parts);
        replied
    }

    fn export(
        &self,
        alloc: Global,
        parts: &mut Vec<WatchPart<L::Part>>,
    ) -> Result<WatchState<L::State>, Memory> {
        let seen = count_of(parts);
        let mut inners = Vec::with_capacity(alloc, parts.len())?;
        let mut seens = Vec::with_capacity(alloc, parts.len())?;
        let room = Vec::with_capacity(alloc, parts.len())?;
        take_apart(replace(parts, room), &mut inners, &mut seens);
        let inner = self.inner.export(alloc, &mut inners);
        put_together(inners, &seens, parts);
        Ok(WatchState {
            inner: inner?,
            seen,
        })
    }

    fn import(
        &self,
        alloc: Global,
        state: &WatchState<L::State>,
        procs: u32,
    ) -> Result<Vec<WatchPart<L::Part>>, Memory> {
        let inners = self.inner.import(alloc, &state.inner, procs)?;
        shared_out(alloc, state.seen, inners)
    }

    fn admit(&self, state: WatchState<L::State>) -> WatchState<L::State> {
        let seen = match self.layer {
            _ if self.inner.tag() == self.inner.live() => None,
            Layer::Keep => state.seen,
            Layer::Place => Some(0),
            Layer::Take => None,
        };
        WatchState {
            inner: self.inner.admit(state.inner),
            seen,
        }
    }

    fn act(&self) -> Act<L::Op> {
        match self.layer {
            _ if self.inner.tag() == self.inner.live() => Act::Swap(To::Dead),
            Layer::Keep => self.inner.act(),
            Layer::Place => Act::Swap(To::Watch),
            Layer::Take => Act::Swap(To::Unwatch),
        }
    }

    ghost steps = { λ watch procs proc row op known there takes kept.
        laws.reached_steps L.asking (L.object watch.inner) (L.ways watch.inner) (L.whole watch.inner procs) (L.serves
        watch.inner) (rows.within (L.shapes watch.inner) (L.tag_of watch.inner)) procs (laws.some_of there)
        (λ parts whole. L.stands watch.inner procs parts known (laws.some_of there) whole) (λ state served. L.ends watch.inner state known served) row op kept proc (L.asking.asks op) refl takes
        (λ own. L.steps watch.inner procs proc (inners row) op known there own kept.inner) (λ own. L.reaches watch.inner procs proc op known there own) };

    ghost steps_all = { λ watch procs row op known some takes kept.
        laws.all_steps L.asking (L.object watch.inner) (L.ways watch.inner) (L.whole watch.inner procs) (L.serves
        watch.inner) (rows.within (L.shapes watch.inner) (L.tag_of watch.inner)) procs some
        (λ parts whole. L.stands watch.inner procs parts known some whole) (λ state served. L.ends watch.inner state known served) row op kept (L.asking.asks op) refl takes
        (λ own. L.steps_all watch.inner procs (inners row) op known some own kept.inner) };

    ghost reaches = { λ watch procs proc op known there takes.
        laws.reaches_watched L.asking (L.object watch.inner) (L.ways watch.inner) (rows.within (L.shapes watch.inner) (L.tag_of watch.inner)) procs proc op
        (L.asking.asks op) refl (laws.some_of there)
        (λ own. L.reaches watch.inner procs proc op known there own) takes };

    ghost stands = { λ watch procs row known some kept.
        laws.stands_watched L.asking (L.ways watch.inner) (L.whole watch.inner procs) (L.serves watch.inner) (rows.within (L.shapes watch.inner) (L.tag_of watch.inner)) procs row kept
        (L.stands watch.inner procs (inners row) known some kept.inner) };

    ghost begins = { λ watch procs known some.
        laws.begins_watched L.asking (L.object watch.inner) (L.ways watch.inner) (L.whole watch.inner procs) (L.shapes watch.inner) (L.tag_of watch.inner) procs
        (L.begins watch.inner procs known some) };

    ghost imports = { λ watch procs state known some kept.
        laws.imports_watched L.asking (L.ways watch.inner) (L.whole watch.inner procs) (L.serves watch.inner) (rows.within (L.shapes watch.inner) (L.tag_of watch.inner)) procs state some kept
        (L.imports watch.inner procs state.inner known some kept.inner) (λ parts whole. L.stands watch.inner procs parts known some whole) };

    ghost ends = { λ watch state known served. L.ends watch.inner state.inner known served.inner };

    ghost admits = { λ watch before state known live same kept. laws.admits_watched (L.serves watch.inner) (L.admitted watch.inner) (rows.within (L.shapes watch.inner)
        (L.tag_of watch.inner)) watch.layer state kept.small
        (L.admits watch.inner before.inner state.inner known live (laws.inner_same L.asking (L.object before.inner)
        (L.object watch.inner) (L.takes_no_seen before.inner) (L.takes_no_seen watch.inner) same) kept.inner) };

    ghost swaps = { λ watch state known.
        laws.swaps_watched L.asking (L.object watch.inner) (L.admitted watch.inner) (rows.within (L.shapes watch.inner) (L.tag_of watch.inner)) watch.layer
        (L.act_of watch.inner) state (L.keeps_state watch.inner) (L.asks_by_tag watch.inner known) (L.swaps
        watch.inner state.inner known) };

    ghost asks = { λ watch. laws.asks_watched (is_dead_tag (L.shapes watch.inner) (L.tag_of watch.inner)) watch.layer (L.act_of watch.inner) (L.asks watch.inner) };

    ghost alike = { λ watch other same. L.alike watch.inner other.inner (laws.inner_same L.asking (L.object watch.inner) (L.object other.inner) (L.takes_no_seen watch.inner)
        (L.takes_no_seen other.inner) same) };

    ghost few = { λ watch. L.few watch.inner };

    ghost agrees = { λ watch other same tags.
        laws.agree_watched L.asking (L.ways watch.inner) (L.ways other.inner) (L.whole watch.inner) (L.whole
        other.inner) (L.serves watch.inner) (L.serves other.inner) (rows.within (L.shapes watch.inner) (L.tag_of watch.inner)) (rows.within (L.shapes other.inner) (L.tag_of other.inner))
        (λ i. rows.within (L.alike watch.inner other.inner (laws.inner_same L.asking (L.object watch.inner) (L.object other.inner) (L.takes_no_seen watch.inner)
        (L.takes_no_seen other.inner) same) i) (tags i))
        (L.agrees watch.inner other.inner (laws.inner_same L.asking (L.object watch.inner) (L.object other.inner) (L.takes_no_seen watch.inner) (L.takes_no_seen other.inner) same) tags) };
}

impl<L: Bare + Clustered> Clustered for Watch<L> {
    fn blank_reply() -> L::Reply {
        L::blank_reply()
    }

    ghost has_all = { λ watch tag known. L.has_all watch.inner tag known };
}
