//! The layout of pages that keeps each page in the cell of its number.
ghost use Rattle.std.specs.Prelude.{◌≡◌, ◌==◌, IfOk, OnOk, OnErr, refl, map};
ghost use Rattle.std.proofs.Common.{arith};
ghost use Rattle.k42_shapes.specs.Shapes.{shared_and_spread};
ghost use Rattle.k42_kinds.specs.declared.entry.Act.TheVariants.{Swap};
ghost use Rattle.k42_kinds.specs.declared.entry.To.TheVariants as tos;
ghost use Rattle.k42_kinds.specs.Pages as kinds;
ghost use Rattle.k42_kinds.specs.Objects.{pages_object, found_text};
ghost use Rattle.k42_kinds.specs.LayoutLaws.{IsWholeRow};
ghost use Rattle.co_pages.specs.OneMap.{IsAny};
ghost use Rattle.co_pages.specs.Places.{all_clean};
ghost use Rattle.co_pages.specs.SpreadRows as rows;
ghost use Rattle.co_pages.specs.SpreadRows.{IsSpread, spread};
ghost use Rattle.co_pages.specs.SpreadLaws.{spread_steps, spread_steps_all, spread_reaches, spread_stands, spread_begins, spread_imports};

use crate::places::Places;
use k42_kinds::{
    Act, Kind, KindName, Layout, Op, Page, PagesState, Reach, Reply, Text, To, belongs_to,
    step_pages,
};
use k42_memory::Memory;
use k42_shapes::Shape;
use std::alloc::Global;

/// Pages that are spread over a cell for each processor, by their numbers.
#[derive(Clone, Copy, Debug, PartialEq, Eq)]
pub struct SpreadPages;

impl Kind for SpreadPages {
    type State = PagesState;

    type Op = Op;

    type Reply = Reply;

    ghost object = { λ _. pages_object };

    fn empty(&self, alloc: Global) -> PagesState {
        PagesState::new(alloc)
    }

    fn takes(&self, op: &Op) -> bool {
        belongs_to(op, KindName::Pages)
    }

    fn step(&self, _alloc: Global, state: &mut PagesState, op: &Op) -> Result<Reply, Memory> {
        step_pages(state, op)
    }
}

/// A page as it is after a write.
fn written(text: &Text) -> Page
    ensures { result ≡ kinds.written text.now }
{
    Page {
        text: *text,
        dirty: true,
    }
}

fn reply_with(found: Option<Page>) -> Reply
    ensures { result ≡ found_text found }
{
    match found {
        Some(page) => Reply::Text(page.text),
        None => Reply::Zero,
    }
}

/// As many cells, in which no page was written.
#[tactic(auto, using(k42_kinds::proofs::RowSteps::made_from_push))]
fn no_pages(alloc: Global, procs: u32) -> Result<Vec<Places>, Memory>
    ensures { IfOk result (λ parts. parts.items ≡ rows.no_pages procs) }
{
    let mut parts = Vec::new(alloc);
    for cell in 0..procs {
        parts.push(Places::new(alloc, cell, procs))?;
    }
    Ok(parts)
}

/// Puts the page into the cell where it lives.
fn put(parts: &mut Vec<Places>, number: u16, page: &Page) -> Result<(), Memory>
    requires { IsWholeRow IsSpread parts.old.items }
    ensures ok { OnOk result
        (parts.new.items ≡ rows.placed parts.old.items (number, page.now)) }
    ensures memory { OnErr result (parts.new.items ≡ parts.old.items) }
{
    let cell = usize::from(number) % parts.len();
    parts[cell].insert(number, page)
}

/// The page in the cell where it lives.
fn get(parts: &[Places], number: u16) -> Option<Page>
    requires { IsWholeRow IsSpread parts.now }
    ensures { result ≡ rows.page_of parts.now number }
{
    let cell = usize::from(number) % parts.len();
    parts[cell].get(number)
}

/// How many pages of all cells are dirty.
fn dirty(parts: &[Places]) -> u64
    requires { IsWholeRow IsSpread parts.now }
    ensures { result ≡ rows.dirty_of parts.now }
{
    let procs = parts[0].procs();
    let mut dirty = 0u64;
    for cell in 0..procs {
        dirty += parts[cell as usize].dirty() as u64;
    }
    dirty
}

/// Takes the marks off the pages of all cells.
fn clean(parts: &mut [Places])
    ensures { parts.new ≡ map all_clean parts.old }
{
    for part in parts.iter_mut() {
        part.clean();
    }
}

impl Layout for SpreadPages {
    type Part = Places;

    ghost shapes = { λ _. shared_and_spread };

    ghost tag_of = { λ _. 1 };

    ghost has_tag = { λ _ tag. tag == 1 };

    ghost ways = { λ _. spread };

    ghost whole = { λ _. IsSpread };

    ghost serves = { λ _. IsAny };

    ghost admitted = { λ _ state. state };

    ghost act_of = { λ _. Swap (tos.Layout 1) };

    ghost leads = { λ _ to. to ≡ tos.Layout 1 };

    fn tag(&self) -> u32 {
        1
    }

    fn live(&self) -> u32 {
        2
    }

    fn shape(&self) -> Shape {
        Shape::Each
    }

    fn with_tag(&self, _tag: u32) -> Self {
        SpreadPages
    }

    fn target(&self, _to: To, _present: u32) -> Self {
        SpreadPages
    }

    fn reach(&self, op: &Op, _proc: u32, procs: u32) -> Reach {
        match op {
            Op::Write(number, _) => Reach::One(u32::from(*number) % procs),
            Op::Read(number) => Reach::One(u32::from(*number) % procs),
            _ => Reach::All,
        }
    }

    fn empty_part(&self, alloc: Global, cell: u32, procs: u32) -> Result<Places, Memory> {
        Ok(Places::new(alloc, cell, procs))
    }

    fn step_one(&self, _alloc: Global, part: &mut Places, op: &Op) -> Result<Reply, Memory> {
        match op {
            Op::Write(number, text) => {
                part.insert(*number, &written(text))?;
                Ok(Reply::Done)
            }
            Op::Read(number) => Ok(reply_with(part.get(*number))),
            _ => Ok(Reply::Gone),
        }
    }

    fn step_all(&self, _alloc: Global, parts: &mut Vec<Places>, op: &Op) -> Result<Reply, Memory> {
        match op {
            Op::Write(number, text) => {
                put(parts, *number, &written(text))?;
                Ok(Reply::Done)
            }
            Op::Read(number) => Ok(reply_with(get(parts, *number))),
            Op::Dirty => Ok(Reply::Number(dirty(parts))),
            Op::Clean => {
                let dirty = dirty(parts);
                clean(parts);
                Ok(Reply::Number(dirty))
            }
            _ => Ok(Reply::Gone),
        }
    }

    fn export(&self, alloc: Global, parts: &mut Vec<Places>) -> Result<PagesState, Memory> {
        let mut pages = PagesState::new(alloc);
        for part in parts.iter() {
            pages = part.put_into(pages)?;
        }
        Ok(pages)
    }

    fn import(&self, alloc: Global, state: &PagesState, procs: u32) -> Result<Vec<Places>, Memory> {
        let mut parts = no_pages(alloc, procs)?;
        for (number, page) in state.iter() {
            put(&mut parts, *number, page)?;
        }
        Ok(parts)
    }

    fn admit(&self, state: PagesState) -> PagesState {
        state
    }

    fn act(&self) -> Act<Op> {
        Act::Swap(To::Layout(1))
    }

    ghost steps = { λ _ procs proc row op known there takes whole. spread_steps procs proc row op there takes whole };

    ghost steps_all = { λ _ procs row op known some takes whole. spread_steps_all procs row op some takes whole };

    ghost reaches = { λ _ procs proc op known there takes. spread_reaches procs proc op there takes };

    ghost stands = { λ _ procs row known some whole. spread_stands procs row whole };

    ghost begins = { λ _ procs known some. spread_begins procs };

    ghost imports = { λ _ procs pages known some served. spread_imports procs pages some };

    ghost ends = { λ _ pages known served. refl };

    ghost admits = { λ _ before pages known live same served. tt };

    ghost swaps = { λ _ pages known number. refl };

    ghost asks = { λ _. refl };

    ghost alike = { λ _ other same. refl };

    ghost few = { λ _. omega arith };

    ghost agrees = { λ _ other same tags. record {
      ways = refl;
      whole = λ procs row whole. whole;
      served = λ pages served. served;
    } };
}
