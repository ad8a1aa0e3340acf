//! A layout of the one kind or of the other.
ghost use Rattle.std.proofs.Common.{ap, sym, ◌∙◌};
ghost use Rattle.k42_either.specs.Eithers.{by_kind, own_first, own_second};
ghost use Rattle.k42_either.specs.EitherRows.{either_ways, EitherRow, ServesEither, admitted_either, either_act, LeadsEither};
ghost use Rattle.k42_either.specs.EitherLaws as laws;
ghost use Rattle.k42_either.specs.declared.either.Either.TheVariants.{First, Second};

use crate::either::Either;
use crate::few_tags::FewTags;
use crate::gone::Gone;
use crate::sides::{FirstParts, SecondParts};
use k42_choice::{among, put_back, taken};
use k42_clustered::Clustered;
use k42_kinds::{Act, Layout, Reach, To};
use k42_memory::Memory;
use k42_shapes::Shape;
use std::alloc::Global;

impl<A: Layout, B: Layout> Layout for Either<A, B>
where
    A::Op: FewTags,
    A::Reply: FewTags + Gone,
    B::Op: FewTags,
    B::Reply: FewTags,
{
    type Part = Either<A::Part, B::Part>;

    ghost shapes = { by_kind A.shapes B.shapes };

    ghost tag_of = { by_kind A.tag_of B.tag_of };

    ghost has_tag = { by_kind A.has_tag B.has_tag };

    ghost ways = { either_ways (First A.Reply.gone) A.ways B.ways };

    ghost whole = { EitherRow A.whole B.whole };

    ghost serves = { ServesEither A.serves B.serves };

    ghost admitted = { admitted_either A.admitted B.admitted };

    ghost act_of = { either_act A.act_of B.act_of };

    ghost leads = { LeadsEither A.leads B.leads };

    fn tag(&self) -> u32 {
        match self {
            Either::First(layout) => layout.tag(),
            Either::Second(layout) => layout.tag(),
        }
    }

    fn live(&self) -> u32 {
        match self {
            Either::First(layout) => layout.live(),
            Either::Second(layout) => layout.live(),
        }
    }

    fn shape(&self) -> Shape {
        match self {
            Either::First(layout) => layout.shape(),
            Either::Second(layout) => layout.shape(),
        }
    }

    fn with_tag(&self, tag: u32) -> Self {
        match self {
            Either::First(layout) => Either::First(layout.with_tag(tag)),
            Either::Second(layout) => Either::Second(layout.with_tag(tag)),
        }
    }

    fn target(&self, to: To, present: u32) -> Self {
        match self {
            Either::First(layout) => Either::First(layout.target(to, present)),
            Either::Second(layout) => Either::Second(layout.target(to, present)),
        }
    }

    fn reach(&self, op: &Either<A::Op, B::Op>, proc: u32, procs: u32) -> Reach {
        match (self, op) {
            (Either::First(layout), Either::First(op)) => layout.reach(op, proc, procs),
            (Either::Second(layout), Either::Second(op)) => layout.reach(op, proc, procs),
            _ => Reach::One(0),
        }
    }

    fn empty_part(
        &self,
        alloc: Global,
        cell: u32,
        procs: u32,
    ) -> Result<Either<A::Part, B::Part>, Memory> {
        match self {
            Either::First(layout) => Ok(Either::First(layout.empty_part(alloc, cell, procs)?)),
            Either::Second(layout) => Ok(Either::Second(layout.empty_part(alloc, cell, procs)?)),
        }
    }

    #[inline(always)]
    fn step_one(
        &self,
        alloc: Global,
        part: &mut Either<A::Part, B::Part>,
        op: &Either<A::Op, B::Op>,
    ) -> Result<Either<A::Reply, B::Reply>, Memory> {
        match (self, part, op) {
            (Either::First(layout), Either::First(part), Either::First(op)) => {
                Ok(Either::First(layout.step_one(alloc, part, op)?))
            }
            (Either::Second(layout), Either::Second(part), Either::Second(op)) => {
                Ok(Either::Second(layout.step_one(alloc, part, op)?))
            }
            _ => Ok(Either::First(A::Reply::gone())),
        }
    }

    fn step_all(
        &self,
        alloc: Global,
        parts: &mut Vec<Either<A::Part, B::Part>>,
        op: &Either<A::Op, B::Op>,
    ) -> Result<Either<A::Reply, B::Reply>, Memory> {
        match (self, op) {
            (Either::First(layout), Either::First(op)) => {
                let mut own = taken::<FirstParts<A::Part, B::Part>>(alloc, parts)?;
                let replied = layout.step_all(alloc, &mut own, op);
                put_back::<FirstParts<A::Part, B::Part>>(own, parts);
                Ok(Either::First(replied?))
            }
            (Either::Second(layout), Either::Second(op)) => {
                let mut own = taken::<SecondParts<A::Part, B::Part>>(alloc, parts)?;
                let replied = layout.step_all(alloc, &mut own, op);
                put_back::<SecondParts<A::Part, B::Part>>(own, parts);
                Ok(Either::Second(replied?))
            }
            _ => Ok(Either::First(A::Reply::gone())),
        }
    }

    fn export(
        &self,
        alloc: Global,
        parts: &mut Vec<Either<A::Part, B::Part>>,
    ) -> Result<Either<A::State, B::State>, Memory> {
        match self {
            Either::First(layout) => {
                let mut own = taken::<FirstParts<A::Part, B::Part>>(alloc, parts)?;
                let state = layout.export(alloc, &mut own);
                put_back::<FirstParts<A::Part, B::Part>>(own, parts);
                Ok(Either::First(state?))
            }
            Either::Second(layout) => {
                let mut own = taken::<SecondParts<A::Part, B::Part>>(alloc, parts)?;
                let state = layout.export(alloc, &mut own);
                put_back::<SecondParts<A::Part, B::Part>>(own, parts);
                Ok(Either::Second(state?))
            }
        }
    }

    fn import(
        &self,
        alloc: Global,
        state: &Either<A::State, B::State>,
        procs: u32,
    ) -> Result<Vec<Either<A::Part, B::Part>>, Memory> {
        match (self, state) {
            (Either::First(layout), Either::First(state)) => {
                let own = layout.import(alloc, state, procs)?;
                among::<FirstParts<A::Part, B::Part>>(alloc, own)
            }
            (Either::Second(layout), Either::Second(state)) => {
                let own = layout.import(alloc, state, procs)?;
                among::<SecondParts<A::Part, B::Part>>(alloc, own)
            }
            _ => Ok(Vec::new(alloc)),
        }
    }

    fn admit(&self, state: Either<A::State, B::State>) -> Either<A::State, B::State> {
        match (self, state) {
            (Either::First(layout), Either::First(state)) => Either::First(layout.admit(state)),
            (Either::Second(layout), Either::Second(state)) => Either::Second(layout.admit(state)),
            (_, state) => state,
        }
    }

    fn act(&self) -> Act<Either<A::Op, B::Op>> {
        match self {
            Either::First(layout) => match layout.act() {
                Act::Call(op) => Act::Call(Either::First(op)),
                Act::Swap(to) => Act::Swap(to),
            },
            Either::Second(layout) => match layout.act() {
                Act::Call(op) => Act::Call(Either::Second(op)),
                Act::Swap(to) => Act::Swap(to),
            },
        }
    }

    ghost steps = { elim [
      | First layout ↦ λ procs proc row op known there takes kept. laws.among_steps laws.the_first (First A.Reply.gone) (A.object layout) (A.ways layout) (A.whole layout) procs proc row op takes kept
          (λ own taken. A.steps layout procs proc _ own known there taken kept.whole)
      | Second layout ↦ λ procs proc row op known there takes kept. laws.among_steps laws.the_second (First A.Reply.gone) (B.object layout) (B.ways layout) (B.whole layout)
          procs proc row op takes kept
          (λ own taken. B.steps layout procs proc _ own known there taken kept.whole)
    ] };

    ghost steps_all = { elim [
      | First layout ↦ λ procs row op known some takes kept. laws.among_steps_all laws.the_first (First A.Reply.gone) (A.object layout) (A.ways layout) (A.whole layout) procs row op takes kept
          (λ own taken. A.steps_all layout procs _ own known some taken kept.whole)
      | Second layout ↦ λ procs row op known some takes kept. laws.among_steps_all laws.the_second (First A.Reply.gone) (B.object layout) (B.ways layout) (B.whole layout) procs row op takes kept
          (λ own taken. B.steps_all layout procs _ own known some taken kept.whole)
    ] };

    ghost reaches = { elim [
      | First layout ↦ λ procs proc op known there takes. laws.within_where_needed (A.object layout).takes (λ own. (A.ways layout).reach procs own proc) _ (own_first op) takes
          (λ own taken. A.reaches layout procs proc own known there taken)
      | Second layout ↦ λ procs proc op known there takes. laws.within_where_needed (B.object layout).takes (λ own. (B.ways layout).reach procs own proc) _ (own_second op) takes
          (λ own taken. B.reaches layout procs proc own known there taken)
    ] };

    ghost stands = { elim [
      | First layout ↦ λ procs row known some kept. laws.among_stands laws.the_first (First A.Reply.gone) (A.object layout) (A.ways layout) (A.whole layout) (A.serves layout) _ procs row kept
          (A.stands layout procs _ known some kept.whole)
      | Second layout ↦ λ procs row known some kept. laws.among_stands laws.the_second (First A.Reply.gone) (B.object layout) (B.ways layout) (B.whole layout) (B.serves layout) _ procs row kept
          (B.stands layout procs _ known some kept.whole)
    ] };

    ghost begins = { elim [
      | First layout ↦ λ procs known some. laws.among_begins laws.the_first (First A.Reply.gone) (A.object layout) (A.ways layout) (A.whole layout) (A.shapes layout) (A.tag_of layout) procs
          (A.begins layout procs known some)
      | Second layout ↦ λ procs known some. laws.among_begins laws.the_second (First A.Reply.gone) (B.object layout) (B.ways layout) (B.whole layout) (B.shapes layout) (B.tag_of layout) procs
          (B.begins layout procs known some)
    ] };

    ghost imports = { elim [
      | First layout ↦ λ procs. elim [
        | First state ↦ λ known some served. laws.among_imports laws.the_first (First A.Reply.gone) (A.object layout) (A.ways layout) (A.whole layout) procs state
            (A.imports layout procs state known some served)
        | Second state ↦ λ known some served. absurd served
      ]
      | Second layout ↦ λ procs. elim [
        | First state ↦ λ known some served. absurd served
        | Second state ↦ λ known some served. laws.among_imports laws.the_second (First A.Reply.gone) (B.object layout) (B.ways layout) (B.whole layout) procs state
            (B.imports layout procs state known some served)
      ]
    ] };

    ghost ends = { elim [
      | First layout ↦ λ state known served. laws.ended_where_served (A.serves layout) (A.object layout).is_ended _ (own_first state) served (λ own kept. A.ends layout own known kept)
      | Second layout ↦ λ state known served. laws.ended_where_served (B.serves layout) (B.object layout).is_ended _ (own_second state) served (λ own kept. B.ends layout own known kept)
    ] };

    ghost admits = { elim [
      | First layout ↦ elim [
        | First before ↦ elim [
          | First state ↦ λ known live same served. A.admits layout before state known live (laws.same_first _ _ _ _ (First A.Reply.gone) (A.object before) (A.object layout) same) served
          | Second state ↦ λ known live same served. absurd served
        ]
        | Second before ↦ λ state known live same served. absurd (laws.apart _ _ _ _ (First A.Reply.gone) (A.object layout) (B.object before) (sym same))
      ]
      | Second layout ↦ elim [
        | First before ↦ λ state known live same served. absurd (laws.apart _ _ _ _ (First A.Reply.gone) (A.object before) (B.object layout) same)
        | Second before ↦ elim [
          | First state ↦ λ known live same served. absurd served
          | Second state ↦ λ known live same served. B.admits layout before state known live (laws.same_second _ _ _ _ (First A.Reply.gone) (B.object before) (B.object layout) same) served
        ]
      ]
    ] };

    ghost swaps = { elim [
      | First layout ↦ elim [
        | First state ↦ λ known number. laws.first_moved _ _ _ _ (First A.Reply.gone) (A.object layout) (A.act_of layout) state number ∙ ap First (A.swaps layout state known number)
        | Second state ↦ λ known number. laws.second_stays _ _ _ _ (First A.Reply.gone) (A.object layout) (A.act_of layout) state number
      ]
      | Second layout ↦ elim [
        | First state ↦ λ known number. laws.first_stays _ _ _ _ (First A.Reply.gone) (B.object layout) (B.act_of layout) state number
        | Second state ↦ λ known number. laws.second_moved _ _ _ _ (First A.Reply.gone) (B.object layout) (B.act_of layout) state number ∙ ap Second (B.swaps layout state known number)
      ]
    ] };

    ghost asks = { elim [
      | First layout ↦ laws.call-own_act First (A.act_of layout) ∙ A.asks layout
      | Second layout ↦ laws.call-own_act Second (B.act_of layout) ∙ B.asks layout
    ] };

    ghost alike = { elim [
      | First layout ↦ elim [
        | First other ↦ λ same. A.alike layout other (laws.same_first _ _ _ _ (First A.Reply.gone) (A.object layout) (A.object other) same)
        | Second other ↦ λ same. absurd (laws.apart _ _ _ _ (First A.Reply.gone) (A.object layout) (B.object other) same)
      ]
      | Second layout ↦ elim [
        | First other ↦ λ same. absurd (laws.apart _ _ _ _ (First A.Reply.gone) (A.object other) (B.object layout) (sym same))
        | Second other ↦ λ same. B.alike layout other (laws.same_second _ _ _ _ (First A.Reply.gone) (B.object layout) (B.object other) same)
      ]
    ] };

    ghost few = { elim [ First layout ↦ A.few layout | Second layout ↦ B.few layout ] };

    ghost agrees = { elim [
      | First layout ↦ elim [
        | First other ↦ λ same tags. laws.among_agree laws.the_first (First A.Reply.gone) (A.ways layout) (A.ways other) (A.whole layout) (A.whole other) (A.serves layout) (A.serves other)
            (A.agrees layout other (laws.same_first _ _ _ _ (First A.Reply.gone) (A.object layout) (A.object other) same) tags)
        | Second other ↦ λ same tags. absurd (laws.apart _ _ _ _ (First A.Reply.gone) (A.object layout) (B.object other) same)
      ]
      | Second layout ↦ elim [
        | First other ↦ λ same tags. absurd (laws.apart _ _ _ _ (First A.Reply.gone) (A.object other) (B.object layout) (sym same))
        | Second other ↦ λ same tags. laws.among_agree laws.the_second (First A.Reply.gone) (B.ways layout) (B.ways other) (B.whole layout) (B.whole other) (B.serves layout) (B.serves other)
            (B.agrees layout other (laws.same_second _ _ _ _ (First A.Reply.gone) (B.object layout) (B.object other) same) tags)
      ]
    ] };
}

impl<A: Clustered, B: Clustered> Clustered for Either<A, B>
where
    A::Op: FewTags,
    A::Reply: FewTags + Gone,
    B::Op: FewTags,
    B::Reply: FewTags,
{
    fn blank_reply() -> Either<A::Reply, B::Reply> {
        Either::First(A::blank_reply())
    }

    ghost has_all = { elim [ First layout ↦ A.has_all layout | Second layout ↦ B.has_all layout ] };
}
