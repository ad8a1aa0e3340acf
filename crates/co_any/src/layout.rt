//! All layouts as one type, with the dead one, so that one table can keep objects of every kind.
ghost use Rattle.std.specs.Prelude.{◌≡◌, ◌≤◌, nat_le, IsTrue, IfOk, refl};
ghost use Rattle.std.proofs.Common.{arith};
ghost use Rattle.k42_shapes.specs.Shapes.{shared_and_spread};
ghost use Rattle.k42_kinds.specs.LayoutLaws.{IsTarget};
ghost use Rattle.k42_kinds.specs.Objects.{plain_object};
ghost use Rattle.co_any.specs.Layouts.{ways_of, whole_of, serves_of, admitted_of, act_of, tag_to, LeadsAny};
ghost use Rattle.k42_kinds.specs.Operations.{layout_number};
ghost use Rattle.co_any.specs.AnyLaws.{any_steps, any_steps_all, any_reaches, any_stands, any_begins, any_imports, any_ends, any_admits, any_swaps, any_asks, any_agrees, any_has_all};
ghost use Rattle.k42_kinds.specs.Watched.{seen_asking};
ghost use Rattle.co_any.specs.BareLaws.{any_takes_no_seen, any_keeps_state, any_asks_by_tag};

use crate::exports::{collected, total};
use crate::part::AnyPart;
use crate::rows::{in_parts, step_own};
use co_counter::{SharedCounter, SpreadCounter};
use co_directory::{SharedDirectory, SpreadDirectory};
use co_pages::{SharedPages, SpreadPages};
use k42_clustered::Clustered;
use k42_kinds::{
    Act, AnyState, Kind, KindName, Layout, LayoutName, Op, Plain, Reach, Reply, To, belongs_to,
    is_seen, step_counter, step_directory, step_pages, told,
};
use k42_memory::Memory;
use k42_shapes::Shape;
use k42_watch::Bare;
use std::alloc::Global;

/// A layout of any kind: the shared one with the tag 0, the spread one with 1, the dead one with 2.
#[derive(Clone, Copy, Debug, PartialEq, Eq)]
pub struct AnyLayout {
    pub kind: KindName,
    pub tag: u32,
}

impl AnyLayout {
    /// The live layout of that name.
    pub fn of(kind: KindName, layout: LayoutName) -> AnyLayout
        ensures kind { result.kind ≡ kind }
        ensures tag { result.tag ≡ layout_number layout }
    {
        AnyLayout {
            kind,
            tag: u32::from(layout.number()),
        }
    }
}

impl Kind for AnyLayout {
    type State = AnyState;

    type Op = Op;

    type Reply = Reply;

    ghost object = { λ layout. plain_object layout.kind };

    fn empty(&self, alloc: Global) -> AnyState {
        Plain { kind: self.kind }.empty(alloc)
    }

    fn takes(&self, op: &Op) -> bool {
        belongs_to(op, self.kind)
    }

    fn step(&self, alloc: Global, state: &mut AnyState, op: &Op) -> Result<Reply, Memory> {
        Plain { kind: self.kind }.step(alloc, state, op)
    }
}

impl Layout for AnyLayout {
    type Part = AnyPart;

    ghost shapes = { λ _. shared_and_spread };

    ghost tag_of = { λ layout. layout.tag };

    ghost has_tag = { λ _ tag. nat_le tag 2 };

    ghost ways = { λ layout. ways_of layout.kind layout.tag };

    ghost whole = { λ layout. whole_of layout.kind layout.tag };

    ghost serves = { λ layout. serves_of layout.kind layout.tag };

    ghost admitted = { λ layout. admitted_of layout.tag };

    ghost act_of = { λ layout. act_of layout.tag };

    ghost leads = { λ _. LeadsAny };

    fn tag(&self) -> u32 {
        self.tag
    }

    fn live(&self) -> u32 {
        2
    }

    fn shape(&self) -> Shape {
        match self.tag {
            1 => Shape::Each,
            _ => Shape::One,
        }
    }

    fn with_tag(&self, tag: u32) -> Self {
        AnyLayout {
            kind: self.kind,
            tag,
        }
    }

    fn target(&self, to: To, _present: u32) -> Self
        requires { LeadsAny to }
        ensures led { IsTarget (plain_object result.kind) (plain_object self.now.kind) shared_and_spread result.tag (act_of result.tag) to }
        ensures kind { result.kind ≡ self.now.kind }
        ensures tag { result.tag ≡ tag_to to }
    {
        let kind = self.kind;
        let tag = match to {
            To::Layout(number) => u32::from(number),
            To::Dead | To::Watch | To::Unwatch => 2,
        };
        AnyLayout { kind, tag }
    }

    fn reach(&self, op: &Op, proc: u32, procs: u32) -> Reach {
        match (self.tag, self.kind) {
            (1, KindName::Counter) => SpreadCounter.reach(op, proc, procs),
            (1, KindName::Directory) => SpreadDirectory.reach(op, proc, procs),
            (1, KindName::Pages) => SpreadPages.reach(op, proc, procs),
            _ => Reach::One(0),
        }
    }

    fn empty_part(&self, alloc: Global, cell: u32, procs: u32) -> Result<AnyPart, Memory> {
        let part = match (self.tag, self.kind) {
            (0, KindName::Counter) => {
                AnyPart::Amount(SharedCounter.empty_part(alloc, cell, procs)?)
            }
            (0, KindName::Directory) => {
                AnyPart::Indexed(SharedDirectory.empty_part(alloc, cell, procs)?)
            }
            (0, KindName::Pages) => AnyPart::Pages(SharedPages.empty_part(alloc, cell, procs)?),
            (1, KindName::Counter) => {
                AnyPart::Amount(SpreadCounter.empty_part(alloc, cell, procs)?)
            }
            (1, KindName::Directory) => {
                AnyPart::Copy(SpreadDirectory.empty_part(alloc, cell, procs)?)
            }
            (1, KindName::Pages) => AnyPart::Places(SpreadPages.empty_part(alloc, cell, procs)?),
            _ => AnyPart::Dead,
        };
        Ok(part)
    }

    #[inline(always)]
    fn step_one(&self, alloc: Global, part: &mut AnyPart, op: &Op) -> Result<Reply, Memory> {
        match part {
            AnyPart::Amount(amount) => Ok(step_counter(amount, op)),
            AnyPart::Indexed(names) => SharedDirectory.step_one(alloc, names, op),
            AnyPart::Copy(names) => step_directory(names, op),
            AnyPart::Pages(pages) => step_pages(pages, op),
            AnyPart::Places(places) => SpreadPages.step_one(alloc, places, op),
            AnyPart::Dead => Ok(Reply::Gone),
        }
    }

    fn step_all(&self, alloc: Global, parts: &mut Vec<AnyPart>, op: &Op) -> Result<Reply, Memory> {
        match (self.tag, self.kind) {
            (0, KindName::Counter) => step_own(&SharedCounter, alloc, parts, op),
            (0, KindName::Directory) => step_own(&SharedDirectory, alloc, parts, op),
            (0, KindName::Pages) => step_own(&SharedPages, alloc, parts, op),
            (1, KindName::Counter) => step_own(&SpreadCounter, alloc, parts, op),
            (1, KindName::Directory) => step_own(&SpreadDirectory, alloc, parts, op),
            (1, KindName::Pages) => step_own(&SpreadPages, alloc, parts, op),
            _ => Ok(Reply::Gone),
        }
    }

    fn export(&self, alloc: Global, parts: &mut Vec<AnyPart>) -> Result<AnyState, Memory> {
        match &parts[0] {
            AnyPart::Amount(_) => Ok(AnyState::Counter(total(parts))),
            AnyPart::Indexed(names) => Ok(AnyState::Directory(names.state(alloc)?)),
            AnyPart::Copy(names) => Ok(AnyState::Directory(co_directory::copied(alloc, names)?)),
            AnyPart::Pages(pages) => Ok(AnyState::Pages(co_pages::copied(alloc, pages)?)),
            AnyPart::Places(_) => Ok(AnyState::Pages(collected(alloc, parts)?)),
            AnyPart::Dead => Ok(AnyState::Dead),
        }
    }

    fn import(&self, alloc: Global, state: &AnyState, procs: u32) -> Result<Vec<AnyPart>, Memory> {
        match (self.tag, state) {
            (0, AnyState::Counter(value)) => {
                in_parts(alloc, SharedCounter.import(alloc, value, procs)?)
            }
            (0, AnyState::Directory(names)) => {
                in_parts(alloc, SharedDirectory.import(alloc, names, procs)?)
            }
            (0, AnyState::Pages(pages)) => {
                in_parts(alloc, SharedPages.import(alloc, pages, procs)?)
            }
            (1, AnyState::Counter(value)) => {
                in_parts(alloc, SpreadCounter.import(alloc, value, procs)?)
            }
            (1, AnyState::Directory(names)) => {
                in_parts(alloc, SpreadDirectory.import(alloc, names, procs)?)
            }
            (1, AnyState::Pages(pages)) => {
                in_parts(alloc, SpreadPages.import(alloc, pages, procs)?)
            }
            _ => {
                let mut parts = Vec::new(alloc);
                parts.push(AnyPart::Dead)?;
                Ok(parts)
            }
        }
    }

    fn admit(&self, state: AnyState) -> AnyState {
        if self.tag == 2 { AnyState::Dead } else { state }
    }

    fn act(&self) -> Act<Op> {
        match self.tag {
            0 => Act::Swap(To::Layout(0)),
            1 => Act::Swap(To::Layout(1)),
            _ => Act::Swap(To::Dead),
        }
    }

    ghost steps = { λ layout procs proc row op known there takes whole. any_steps layout.kind layout.tag procs proc row op known there takes whole };

    ghost steps_all = { λ layout procs row op known some takes whole. any_steps_all layout.kind layout.tag procs row op known some takes whole };

    ghost reaches = { λ layout procs proc op known there takes. any_reaches layout.kind layout.tag procs proc op known there takes };

    ghost stands = { λ layout procs row known some whole. any_stands layout.kind layout.tag procs row known some whole };

    ghost begins = { λ layout procs known some. any_begins layout.kind layout.tag procs known some };

    ghost imports = { λ layout procs state known some served. any_imports layout.kind layout.tag procs state known some served };

    ghost ends = { λ layout state known served. any_ends layout.kind layout.tag state known served };

    ghost admits = { λ layout before state known live same served. any_admits layout.kind before.kind layout.tag before.tag state live same served };

    ghost swaps = { λ layout state known. any_swaps layout.kind layout.tag state };

    ghost asks = { λ layout. any_asks layout.tag };

    ghost alike = { λ layout other same. refl };

    ghost few = { λ _. omega arith };

    ghost agrees = { λ layout other same tags. any_agrees layout.kind other.kind layout.tag other.tag same tags };
}

impl Bare for AnyLayout {
    ghost asking = { seen_asking };

    fn asks_count(op: &Op) -> bool {
        is_seen(op)
    }

    fn tell_count(dead: bool, seen: Option<u64>) -> Reply {
        told(dead, seen)
    }

    fn has_ended(&self, state: &AnyState) -> bool {
        matches!(state, AnyState::Dead)
    }

    ghost takes_no_seen = { λ layout. any_takes_no_seen layout.kind };

    ghost keeps_state = { λ layout. any_keeps_state layout.kind };

    ghost asks_by_tag = { λ layout known. any_asks_by_tag layout.tag known };
}

impl Clustered for AnyLayout {
    fn blank_reply() -> Reply {
        Reply::Done
    }

    ghost has_all = { λ _ tag known. any_has_all tag known };
}
