//! Layouts of one object, side by side.
ghost use Rattle.std.specs.Prelude.{◌≡◌, ◌≤◌, ◌+◌, ◌++◌, false, length};
ghost use Rattle.std.proofs.Common.{sym, ◌∙◌};
ghost use Rattle.std.proofs.Props.{props};
ghost use Rattle.k42_limits.specs.declared.TheConstants.{LIVE_LAYOUTS};
ghost use Rattle.k42_shapes.specs.Shapes.{shape_at};
ghost use Rattle.k42_choice.specs.Living.{AreOneObject};
ghost use Rattle.k42_choice.specs.Choices as choices;
ghost use Rattle.k42_choice.specs.ChoiceLaws as laws;

use crate::choice_part::{ChoicePart, FirstParts, SecondParts};
use crate::living::Living;
use crate::within::{among, put_back, taken};
use k42_kinds::{Kind, Reach};
use k42_memory::Memory;
use k42_shapes::Shape;
use std::alloc::{AllocError, Global};
use std::marker::PhantomData;

/// A layout of the first, or of the second: the numbers of the second's come behind those of the first's. Both keep one
/// object, and have not too many layouts together: `one` and `together` are to be proved where a choice is made.
pub struct Choice<A: Living, B: Living<State = A::State, Op = A::Op, Reply = A::Reply>> {
    pub first: A,
    pub second: B,
    pub at_second: bool,
    pub of: PhantomData<(A::State, A::Reply)>,
    pub ghost one: { AreOneObject (A.object first) (B.object second) } by { Prim.hlevel props },
    pub ghost together: { length (A.shapes first) + length (B.shapes second) ≤ LIVE_LAYOUTS },
}

impl<A: Living, B: Living<State = A::State, Op = A::Op, Reply = A::Reply>> Choice<A, B> {
    /// The first and the second, in the layout of the first.
    pub fn new(first: A, second: B) -> Self
        requires one { AreOneObject (A.object first) (B.object second) }
        requires together { length (A.shapes first) + length (B.shapes second) ≤ LIVE_LAYOUTS }
        ensures first { result.first ≡ first }
        ensures second { result.second ≡ second }
        ensures at { result.at_second ≡ false }
    {
        Choice {
            first,
            second,
            at_second: false,
            of: PhantomData,
        }
    }
}

impl<A: Living, B: Living<State = A::State, Op = A::Op, Reply = A::Reply>> Clone for Choice<A, B> {
    fn clone(&self) -> Result<Choice<A, B>, AllocError> {
        Ok(Choice {
            first: self.first,
            second: self.second,
            at_second: self.at_second,
            of: PhantomData,
        })
    }
}

impl<A: Living, B: Living<State = A::State, Op = A::Op, Reply = A::Reply>> Copy for Choice<A, B> {}

impl<A: Living, B: Living<State = A::State, Op = A::Op, Reply = A::Reply>> Kind for Choice<A, B> {
    type State = A::State;

    type Op = A::Op;

    type Reply = A::Reply;

    ghost object = { λ choice. A.object choice.first };

    fn empty(&self, alloc: Global) -> A::State {
        self.first.empty(alloc)
    }

    fn takes(&self, op: &A::Op) -> bool {
        self.first.takes(op)
    }

    fn step(&self, alloc: Global, state: &mut A::State, op: &A::Op) -> Result<A::Reply, Memory> {
        self.first.step(alloc, state, op)
    }
}

impl<A: Living, B: Living<State = A::State, Op = A::Op, Reply = A::Reply>> Living for Choice<A, B>
where
    A::State: Send + Sync,
{
    type Part = ChoicePart<A::Part, B::Part>;

    ghost shapes = { λ choice. A.shapes choice.first ++ B.shapes choice.second };

    ghost tag_of = { λ choice. choices.choice_tag choice.at_second (A.shapes choice.first) (A.tag_of choice.first) (B.tag_of choice.second) };

    ghost ways = { λ choice. choices.choice_ways choice.at_second A.gone (A.ways choice.first) (B.ways choice.second) };

    ghost whole = { λ choice. choices.ChoiceRow choice.at_second (A.ways choice.first) (A.whole choice.first) (A.serves choice.first)
        (B.ways choice.second) (B.whole choice.second) (B.serves choice.second) };

    ghost serves = { λ choice. choices.ServesBoth (A.serves choice.first) (B.serves choice.second) };

    ghost gone = { A.gone };

    fn gone() -> A::Reply {
        A::gone()
    }

    fn tag(&self) -> u32 {
        if self.at_second {
            self.first.live() + self.second.tag()
        } else {
            self.first.tag()
        }
    }

    fn live(&self) -> u32 {
        self.first.live() + self.second.live()
    }

    fn shape(&self) -> Shape {
        if self.at_second {
            self.second.shape()
        } else {
            self.first.shape()
        }
    }

    fn with_tag(&self, tag: u32) -> Self {
        let before = self.first.live();
        if tag < before {
            return Choice {
                first: self.first.with_tag(tag),
                second: self.second,
                at_second: false,
                of: PhantomData,
            };
        }
        Choice {
            first: self.first,
            second: self.second.with_tag(tag - before),
            at_second: true,
            of: PhantomData,
        }
    }

    fn reach(&self, op: &A::Op, proc: u32, procs: u32) -> Reach {
        if self.at_second {
            self.second.reach(op, proc, procs)
        } else {
            self.first.reach(op, proc, procs)
        }
    }

    fn empty_part(
        &self,
        alloc: Global,
        cell: u32,
        procs: u32,
    ) -> Result<ChoicePart<A::Part, B::Part>, Memory> {
        if self.at_second {
            return Ok(ChoicePart::Second(self.second.empty_part(alloc, cell, procs)?));
        }
        Ok(ChoicePart::First(self.first.empty_part(alloc, cell, procs)?))
    }

    #[inline(always)]
    fn step_one(
        &self,
        alloc: Global,
        part: &mut ChoicePart<A::Part, B::Part>,
        op: &A::Op,
    ) -> Result<A::Reply, Memory> {
        match part {
            ChoicePart::First(part) => self.first.step_one(alloc, part, op),
            ChoicePart::Second(part) => self.second.step_one(alloc, part, op),
        }
    }

    fn step_all(
        &self,
        alloc: Global,
        parts: &mut Vec<ChoicePart<A::Part, B::Part>>,
        op: &A::Op,
    ) -> Result<A::Reply, Memory> {
        if self.at_second {
            let mut own = taken::<SecondParts<A::Part, B::Part>>(alloc, parts)?;
            let replied = self.second.step_all(alloc, &mut own, op);
            put_back::<SecondParts<A::Part, B::Part>>(own, parts);
            return replied;
        }
        let mut own = taken::<FirstParts<A::Part, B::Part>>(alloc, parts)?;
        let replied = self.first.step_all(alloc, &mut own, op);
        put_back::<FirstParts<A::Part, B::Part>>(own, parts);
        replied
    }

    fn export(
        &self,
        alloc: Global,
        parts: &mut Vec<ChoicePart<A::Part, B::Part>>,
    ) -> Result<A::State, Memory> {
        if self.at_second {
            let mut own = taken::<SecondParts<A::Part, B::Part>>(alloc, parts)?;
            let state = self.second.export(alloc, &mut own);
            put_back::<SecondParts<A::Part, B::Part>>(own, parts);
            return state;
        }
        let mut own = taken::<FirstParts<A::Part, B::Part>>(alloc, parts)?;
        let state = self.first.export(alloc, &mut own);
        put_back::<FirstParts<A::Part, B::Part>>(own, parts);
        state
    }

    fn import(
        &self,
        alloc: Global,
        state: &A::State,
        procs: u32,
    ) -> Result<Vec<ChoicePart<A::Part, B::Part>>, Memory> {
        if self.at_second {
            let own = self.second.import(alloc, state, procs)?;
            return among::<SecondParts<A::Part, B::Part>>(alloc, own);
        }
        let own = self.first.import(alloc, state, procs)?;
        among::<FirstParts<A::Part, B::Part>>(alloc, own)
    }

    ghost steps = { λ choice procs proc row op there takes kept.
        let same = (laws.one_object (A.object choice.first) (B.object choice.second) choice.one (A.endless choice.first) (A.stays choice.first) (B.endless choice.second) (B.stays choice.second)) in
        let taken = laws.takes_too (A.object choice.first) (B.object choice.second) same op takes in
        laws.choice_steps (A.object choice.first) (B.object choice.second) same A.gone (A.ways choice.first) (A.whole choice.first) (A.serves choice.first)
        (B.ways choice.second) (B.whole choice.second) (B.serves choice.second) choice.at_second procs proc row op
        (laws.served_after (A.object choice.first) (A.ways choice.first) (A.whole choice.first) (A.serves choice.first) (shape_at (A.shapes choice.first) (A.tag_of choice.first))
        (A.stands choice.first) (A.steps_all choice.first) (A.imports choice.first) op takes)
        (laws.served_after (B.object choice.second) (B.ways choice.second) (B.whole choice.second) (B.serves choice.second) (shape_at (B.shapes choice.second) (B.tag_of choice.second))
        (B.stands choice.second) (B.steps_all choice.second) (B.imports choice.second) op taken)
        kept (λ own whole. A.steps choice.first procs proc own op there takes whole) (λ own whole. B.steps choice.second procs proc own op there taken whole) };

    ghost steps_all = { λ choice procs row op some takes kept.
        let same = (laws.one_object (A.object choice.first) (B.object choice.second) choice.one (A.endless choice.first) (A.stays choice.first) (B.endless choice.second) (B.stays choice.second)) in
        let taken = laws.takes_too (A.object choice.first) (B.object choice.second) same op takes in
        laws.choice_steps_all (A.object choice.first) (B.object choice.second) same A.gone (A.ways choice.first) (A.whole choice.first) (A.serves choice.first)
        (B.ways choice.second) (B.whole choice.second) (B.serves choice.second) choice.at_second procs row op
        (laws.served_after (A.object choice.first) (A.ways choice.first) (A.whole choice.first) (A.serves choice.first) (shape_at (A.shapes choice.first) (A.tag_of choice.first))
        (A.stands choice.first) (A.steps_all choice.first) (A.imports choice.first) op takes)
        (laws.served_after (B.object choice.second) (B.ways choice.second) (B.whole choice.second) (B.serves choice.second) (shape_at (B.shapes choice.second) (B.tag_of choice.second))
        (B.stands choice.second) (B.steps_all choice.second) (B.imports choice.second) op taken)
        kept (λ own whole. A.steps_all choice.first procs own op some takes whole) (λ own whole. B.steps_all choice.second procs own op some taken whole) };

    ghost reaches = { λ choice procs proc op there takes.
        let same = (laws.one_object (A.object choice.first) (B.object choice.second) choice.one (A.endless choice.first) (A.stays choice.first) (B.endless choice.second) (B.stays choice.second)) in
        let taken = laws.takes_too (A.object choice.first) (B.object choice.second) same op takes in
        laws.choice_reaches (A.object choice.first) (B.object choice.second) same A.gone (A.ways choice.first) (A.whole choice.first) (A.serves choice.first)
        (B.ways choice.second) (B.whole choice.second) (B.serves choice.second) (A.shapes choice.first) (B.shapes choice.second)
        (A.tag_of choice.first) (B.tag_of choice.second) (A.numbered choice.first) choice.at_second procs proc op
        (A.reaches choice.first procs proc op there takes) (B.reaches choice.second procs proc op there taken) };

    ghost stands = { λ choice procs row some kept.
        let same = (laws.one_object (A.object choice.first) (B.object choice.second) choice.one (A.endless choice.first) (A.stays choice.first) (B.endless choice.second) (B.stays choice.second)) in
        laws.choice_stands (A.object choice.first) (B.object choice.second) same A.gone (A.ways choice.first) (A.whole choice.first) (A.serves choice.first)
        (B.ways choice.second) (B.whole choice.second) (B.serves choice.second) (A.shapes choice.first) (B.shapes choice.second)
        (A.tag_of choice.first) (B.tag_of choice.second) (A.numbered choice.first) choice.at_second procs row kept
        (λ own whole. A.stands choice.first procs own some whole) (λ own whole. B.stands choice.second procs own some whole) };

    ghost begins = { λ choice procs some.
        let same = (laws.one_object (A.object choice.first) (B.object choice.second) choice.one (A.endless choice.first) (A.stays choice.first) (B.endless choice.second) (B.stays choice.second)) in
        laws.choice_begins (A.object choice.first) (B.object choice.second) same A.gone (A.ways choice.first) (A.whole choice.first) (A.serves choice.first)
        (B.ways choice.second) (B.whole choice.second) (B.serves choice.second) (A.shapes choice.first) (B.shapes choice.second)
        (A.tag_of choice.first) (B.tag_of choice.second) (A.numbered choice.first) choice.at_second procs
        (laws.served_start (A.object choice.first) (A.ways choice.first) (A.whole choice.first) (A.serves choice.first) (shape_at (A.shapes choice.first) (A.tag_of choice.first))
        (A.stands choice.first) (A.begins choice.first))
        (laws.served_start (B.object choice.second) (B.ways choice.second) (B.whole choice.second) (B.serves choice.second) (shape_at (B.shapes choice.second) (B.tag_of choice.second))
        (B.stands choice.second) (B.begins choice.second))
        (A.begins choice.first procs some) (B.begins choice.second procs some) };

    ghost imports = { λ choice procs state some served.
        let same = (laws.one_object (A.object choice.first) (B.object choice.second) choice.one (A.endless choice.first) (A.stays choice.first) (B.endless choice.second) (B.stays choice.second)) in
        laws.choice_imports (A.object choice.first) (B.object choice.second) same A.gone (A.ways choice.first) (A.whole choice.first) (A.serves choice.first)
        (B.ways choice.second) (B.whole choice.second) (B.serves choice.second) choice.at_second procs state served
        (λ kept. A.imports choice.first procs state some kept) (λ kept. B.imports choice.second procs state some kept) };

    ghost endless = { λ choice. A.endless choice.first };

    ghost stays = { λ choice. A.stays choice.first };

    ghost numbered = { λ choice. laws.choice_numbered choice.at_second (A.shapes choice.first) (B.shapes choice.second)
        (A.tag_of choice.first) (B.tag_of choice.second) (A.numbered choice.first) (B.numbered choice.second) };

    ghost few = { λ choice. laws.choice_few (A.shapes choice.first) (B.shapes choice.second) choice.together };

    ghost alike = { λ choice other is.
        let second = (sym (laws.one_object (A.object choice.first) (B.object choice.second) choice.one (A.endless choice.first) (A.stays choice.first) (B.endless choice.second)
        (B.stays choice.second))
        ∙ (is ∙ (laws.one_object (A.object other.first) (B.object other.second) other.one (A.endless other.first) (A.stays other.first) (B.endless other.second) (B.stays other.second)))) in
        λ i. A.alike choice.first other.first is i ++ B.alike choice.second other.second second i };

    ghost keeps = { λ choice other state is.
        let second = (sym (laws.one_object (A.object choice.first) (B.object choice.second) choice.one (A.endless choice.first) (A.stays choice.first) (B.endless choice.second)
        (B.stays choice.second))
        ∙ (is ∙ (laws.one_object (A.object other.first) (B.object other.second) other.one (A.endless other.first) (A.stays other.first) (B.endless other.second) (B.stays other.second)))) in
        laws.both_keep (A.serves choice.first) (B.serves choice.second) (A.serves other.first) (B.serves other.second) state
        (A.keeps choice.first other.first state is) (B.keeps choice.second other.second state second) };

    ghost agrees = { λ choice other is tags.
        let second = (sym (laws.one_object (A.object choice.first) (B.object choice.second) choice.one (A.endless choice.first) (A.stays choice.first) (B.endless choice.second)
        (B.stays choice.second))
        ∙ (is ∙ (laws.one_object (A.object other.first) (B.object other.second) other.one (A.endless other.first) (A.stays other.first) (B.endless other.second) (B.stays other.second)))) in
        laws.choice_agree A.gone (A.ways choice.first) (A.whole choice.first) (A.serves choice.first)
        (B.ways choice.second) (B.whole choice.second) (B.serves choice.second)
        (A.ways other.first) (A.whole other.first) (A.serves other.first)
        (B.ways other.second) (B.whole other.second) (B.serves other.second)
        (λ state. A.keeps choice.first other.first state is) (λ state. B.keeps choice.second other.second state second)
        choice.at_second other.at_second (A.shapes choice.first) (B.shapes choice.second) (A.shapes other.first)
        (A.tag_of choice.first) (B.tag_of choice.second) (A.tag_of other.first) (B.tag_of other.second) (A.numbered choice.first) (A.numbered other.first)
        (A.alike choice.first other.first is)
        (λ one. A.agrees choice.first other.first is one) (λ one. B.agrees choice.second other.second second one) tags };
}
