//! The live layouts of an object, and the dead one behind them.
ghost use Rattle.std.specs.Prelude.{◌≡◌, [], ◌∷◌, length, nat_le, refl, IfOk};
ghost use Rattle.k42_choice.specs.Mortals as mortals;
ghost use Rattle.k42_choice.specs.MortalLaws as laws;
ghost use Rattle.k42_choice.specs.declared.mortal.MortalPart.TheVariants.{Dead};

use crate::living::Living;
use crate::within::{Within, among, put_back, taken};
use k42_clustered::Clustered;
use k42_kinds::{Act, Kind, Layout, Reach, To};
use k42_memory::Memory;
use k42_shapes::Shape;
use std::alloc::Global;
use std::marker::PhantomData;

/// A live layout, or the dead one of its object.
#[derive(Clone, Copy, Debug, PartialEq, Eq)]
pub struct Mortal<L> {
    pub layout: L,
    pub dead: bool,
}

/// The state of an object, while it lives.
#[derive(Debug, Drop)]
pub enum MortalState<S> {
    Alive(S),
    Dead,
}

/// A part of a live object, or the one of a dead one.
#[derive(Debug, Drop)]
pub enum MortalPart<P> {
    Alive(P),
    Dead,
}

/// Live parts, among those that may be dead.
struct AliveParts<P> {
    of: PhantomData<P>,
}

impl<P: Drop> Within for AliveParts<P> {
    type Own = P;

    type Among = MortalPart<P>;

    ghost side = { mortals.alive_parts };

    fn stand(own: P) -> MortalPart<P> {
        MortalPart::Alive(own)
    }

    fn own(part: MortalPart<P>) -> Option<P> {
        match part {
            MortalPart::Alive(own) => Some(own),
            MortalPart::Dead => None,
        }
    }

    ghost back = { λ part. refl };
}

/// The one part of a dead object.
fn dead_row<P: Drop>(alloc: Global) -> Result<Vec<MortalPart<P>>, Memory>
    ensures { IfOk result (λ parts. parts.items ≡ Dead ∷ []) }
{
    let mut parts = Vec::new(alloc);
    parts.push(MortalPart::Dead)?;
    Ok(parts)
}

impl<L: Living> Kind for Mortal<L> {
    type State = MortalState<L::State>;

    type Op = L::Op;

    type Reply = L::Reply;

    ghost object = { λ mortal. mortals.mortal_object L.gone (L.object mortal.layout) };

    fn empty(&self, alloc: Global) -> MortalState<L::State> {
        MortalState::Alive(self.layout.empty(alloc))
    }

    fn takes(&self, op: &L::Op) -> bool {
        self.layout.takes(op)
    }

    fn step(
        &self,
        alloc: Global,
        state: &mut MortalState<L::State>,
        op: &L::Op,
    ) -> Result<L::Reply, Memory> {
        match state {
            MortalState::Alive(state) => self.layout.step(alloc, state, op),
            MortalState::Dead => Ok(L::gone()),
        }
    }
}

impl<L: Living> Layout for Mortal<L> {
    type Part = MortalPart<L::Part>;

    ghost shapes = { λ mortal. L.shapes mortal.layout };

    ghost tag_of = { λ mortal. mortals.mortal_tag mortal.dead (L.shapes mortal.layout) (L.tag_of mortal.layout) };

    ghost has_tag = { λ mortal tag. nat_le tag (length (L.shapes mortal.layout)) };

    ghost ways = { λ mortal. mortals.mortal_ways mortal.dead L.gone (L.ways mortal.layout) };

    ghost whole = { λ mortal. mortals.MortalRow mortal.dead (L.whole mortal.layout) };

    ghost serves = { λ mortal. mortals.ServesMortal mortal.dead (L.serves mortal.layout) };

    ghost admitted = { λ mortal. mortals.admitted_mortal mortal.dead };

    ghost act_of = { λ mortal. mortals.mortal_act mortal.dead (L.tag_of mortal.layout) };

    ghost leads = { λ mortal. mortals.LeadsMortal (L.shapes mortal.layout) };

    fn tag(&self) -> u32 {
        if self.dead {
            self.layout.live()
        } else {
            self.layout.tag()
        }
    }

    fn live(&self) -> u32 {
        self.layout.live()
    }

    fn shape(&self) -> Shape {
        if self.dead {
            Shape::One
        } else {
            self.layout.shape()
        }
    }

    fn with_tag(&self, tag: u32) -> Self {
        if tag == self.layout.live() {
            Mortal {
                layout: self.layout,
                dead: true,
            }
        } else {
            Mortal {
                layout: self.layout.with_tag(tag),
                dead: false,
            }
        }
    }

    fn target(&self, to: To, _present: u32) -> Self {
        match to {
            To::Layout(number) => Mortal {
                layout: self.layout.with_tag(u32::from(number)),
                dead: false,
            },
            To::Dead | To::Watch | To::Unwatch => Mortal {
                layout: self.layout,
                dead: true,
            },
        }
    }

    fn reach(&self, op: &L::Op, proc: u32, procs: u32) -> Reach {
        if self.dead {
            Reach::One(0)
        } else {
            self.layout.reach(op, proc, procs)
        }
    }

    fn empty_part(
        &self,
        alloc: Global,
        cell: u32,
        procs: u32,
    ) -> Result<MortalPart<L::Part>, Memory> {
        if self.dead {
            return Ok(MortalPart::Dead);
        }
        Ok(MortalPart::Alive(self.layout.empty_part(alloc, cell, procs)?))
    }

    #[inline(always)]
    fn step_one(
        &self,
        alloc: Global,
        part: &mut MortalPart<L::Part>,
        op: &L::Op,
    ) -> Result<L::Reply, Memory> {
        match part {
            MortalPart::Alive(part) => self.layout.step_one(alloc, part, op),
            MortalPart::Dead => Ok(L::gone()),
        }
    }

    fn step_all(
        &self,
        alloc: Global,
        parts: &mut Vec<MortalPart<L::Part>>,
        op: &L::Op,
    ) -> Result<L::Reply, Memory> {
        if self.dead {
            return Ok(L::gone());
        }
        let mut own = taken::<AliveParts<L::Part>>(alloc, parts)?;
        let replied = self.layout.step_all(alloc, &mut own, op);
        put_back::<AliveParts<L::Part>>(own, parts);
        replied
    }

    fn export(
        &self,
        alloc: Global,
        parts: &mut Vec<MortalPart<L::Part>>,
    ) -> Result<MortalState<L::State>, Memory> {
        if self.dead {
            return Ok(MortalState::Dead);
        }
        let mut own = taken::<AliveParts<L::Part>>(alloc, parts)?;
        let state = self.layout.export(alloc, &mut own);
        put_back::<AliveParts<L::Part>>(own, parts);
        Ok(MortalState::Alive(state?))
    }

    fn import(
        &self,
        alloc: Global,
        state: &MortalState<L::State>,
        procs: u32,
    ) -> Result<Vec<MortalPart<L::Part>>, Memory> {
        match state {
            MortalState::Alive(state) => {
                among::<AliveParts<L::Part>>(alloc, self.layout.import(alloc, state, procs)?)
            }
            MortalState::Dead => dead_row(alloc),
        }
    }

    fn admit(&self, state: MortalState<L::State>) -> MortalState<L::State> {
        if self.dead { MortalState::Dead } else { state }
    }

    fn act(&self) -> Act<L::Op> {
        if self.dead {
            Act::Swap(To::Dead)
        } else {
            Act::Swap(To::Layout(self.layout.tag() as u8))
        }
    }

    ghost steps = { λ mortal procs proc row op known there takes kept. laws.mortal_steps L.gone (L.object mortal.layout) (L.ways mortal.layout)
        (L.whole mortal.layout) mortal.dead procs proc row op kept
        (λ whole. L.steps mortal.layout procs proc _ op there takes whole) };

    ghost steps_all = { λ mortal procs row op known some takes kept. laws.mortal_steps_all L.gone (L.object mortal.layout) (L.ways mortal.layout) (L.whole mortal.layout) mortal.dead procs row op kept
        (λ whole. L.steps_all mortal.layout procs _ op some takes whole) };

    ghost reaches = { λ mortal procs proc op known there takes. laws.mortal_reaches L.gone (L.object mortal.layout) (L.ways mortal.layout) (L.whole mortal.layout) (L.shapes mortal.layout)
        (L.tag_of mortal.layout)
        mortal.dead procs proc op (L.reaches mortal.layout procs proc op there takes) };

    ghost stands = { λ mortal procs row known some kept. laws.mortal_stands L.gone (L.object mortal.layout) (L.ways mortal.layout) (L.whole mortal.layout) (L.shapes mortal.layout)
        (L.tag_of mortal.layout)
        (L.serves mortal.layout) mortal.dead procs row kept (λ whole. L.stands mortal.layout procs _ some whole) };

    ghost begins = { λ mortal procs known some. laws.mortal_begins L.gone (L.object mortal.layout) (L.ways mortal.layout) (L.whole mortal.layout) (L.shapes mortal.layout) (L.tag_of mortal.layout)
        mortal.dead procs (L.begins mortal.layout procs some) };

    ghost imports = { λ mortal procs state known some served. laws.mortal_imports L.gone (L.object mortal.layout) (L.ways mortal.layout) (L.whole mortal.layout)
        (L.serves mortal.layout) mortal.dead procs state served
        (λ own kept. L.imports mortal.layout procs own some kept) };

    ghost ends = { λ mortal state known served. laws.mortal_ends L.gone (L.object mortal.layout) (L.ways mortal.layout) (L.whole mortal.layout) (L.shapes mortal.layout) (L.tag_of mortal.layout)
        (L.serves mortal.layout) mortal.dead state (L.numbered mortal.layout) served };

    ghost admits = { λ mortal before state known live same served. laws.mortal_admits L.gone (L.object mortal.layout) (L.ways mortal.layout) (L.whole mortal.layout) (L.shapes before.layout)
        (L.tag_of before.layout)
        (L.serves mortal.layout) (L.serves before.layout) mortal.dead before.dead state live
        (λ own kept. L.keeps before.layout mortal.layout own (laws.same_alive L.gone (L.object before.layout) (L.object mortal.layout) (L.endless before.layout) (L.stays before.layout)
        (L.endless mortal.layout) (L.stays mortal.layout) same) kept) served };

    ghost swaps = { λ mortal state known. laws.mortal_swaps L.gone (L.object mortal.layout) (L.ways mortal.layout) (L.whole mortal.layout) mortal.dead (L.tag_of mortal.layout) state };

    ghost asks = { λ mortal. laws.mortal_asks _ mortal.dead (L.tag_of mortal.layout) };

    ghost alike = { λ mortal other same. L.alike mortal.layout other.layout (laws.same_alive L.gone (L.object mortal.layout) (L.object other.layout) (L.endless mortal.layout) (L.stays mortal.layout)
        (L.endless other.layout) (L.stays other.layout) same) };

    ghost few = { λ mortal. L.few mortal.layout };

    ghost agrees = { λ mortal other same tags.
        laws.mortal_agree L.gone (L.ways mortal.layout) (L.ways other.layout) (L.whole mortal.layout) (L.whole other.layout) (L.serves mortal.layout) (L.serves other.layout)
        mortal.dead other.dead (L.shapes mortal.layout) (L.shapes other.layout) (L.tag_of mortal.layout) (L.tag_of other.layout) (L.numbered mortal.layout) (L.numbered other.layout)
        (L.alike mortal.layout other.layout (laws.same_alive L.gone (L.object mortal.layout) (L.object other.layout) (L.endless mortal.layout) (L.stays mortal.layout)
        (L.endless other.layout) (L.stays other.layout) same))
        (λ one_tag. L.agrees mortal.layout other.layout (laws.same_alive L.gone (L.object mortal.layout) (L.object other.layout) (L.endless mortal.layout) (L.stays mortal.layout)
        (L.endless other.layout) (L.stays other.layout) same) one_tag) tags };
}

impl<L: Living> Clustered for Mortal<L> {
    fn blank_reply() -> L::Reply {
        L::gone()
    }

    ghost has_all = { λ mortal. laws.has_all_tags (L.shapes mortal.layout) };
}
