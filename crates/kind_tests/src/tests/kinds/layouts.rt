//! A layout made for this test keeps the laws of layouts, and its row is handed on.
ghost use Rattle.std.specs.Prelude.{◌≡◌, ◌==◌, ◌<◌, ◌≤◌, [], ◌∷◌, refl, IfOk};
ghost use Rattle.k42_limits.specs.declared.TheConstants.{PROCESSORS};
ghost use Rattle.std.proofs.Common.{arith};
ghost use Rattle.k42_shapes.specs.declared.shape.Shape.TheVariants.{One};
ghost use Rattle.k42_shapes.specs.Shapes.{IsKnownTag};
ghost use Rattle.k42_kinds.specs.declared.entry.Act.TheVariants.{Swap};
ghost use Rattle.k42_kinds.specs.declared.entry.To.TheVariants.{Layout as Kept};
ghost use Rattle.k42_kinds.specs.LayoutLaws.{IsWholeRow};
ghost use Rattle.k42_kinds.specs.LastAmount.{last_amount, one_part, IsOnePart, steps_one, steps_all};

use k42_kinds::{Act, Kind, Layout, Op, Reach, Reply, To};
use k42_memory::Memory;
use k42_shapes::Shape;
use std::alloc::Global;
use std::test::Fail;

/// The last amount that was added, kept in one part.
#[derive(Clone, Copy)]
struct LastAmount;

impl Kind for LastAmount {
    type State = u64;

    type Op = Op;

    type Reply = Reply;

    ghost object = { λ _. last_amount };

    fn empty(&self, _alloc: Global) -> u64 {
        0
    }

    fn takes(&self, _op: &Op) -> bool {
        true
    }

    fn step(&self, _alloc: Global, state: &mut u64, op: &Op) -> Result<Reply, Memory> {
        match op {
            Op::Add(amount) => {
                *state = u64::from(*amount);
                Ok(Reply::Done)
            }
            Op::Get => Ok(Reply::Number(*state)),
            _ => Ok(Reply::Gone),
        }
    }
}

impl Layout for LastAmount {
    type Part = u64;

    ghost shapes = { λ _. One ∷ [] };

    ghost tag_of = { λ _. 0 };

    ghost has_tag = { λ _ tag. tag == 0 };

    ghost ways = { λ _. one_part };

    ghost whole = { λ _. IsOnePart };

    ghost serves = { λ _ _. Unit {0} };

    ghost admitted = { λ _ state. state };

    ghost act_of = { λ _. Swap (Kept 0) };

    ghost leads = { λ _ to. to ≡ Kept 0 };

    fn tag(&self) -> u32 {
        0
    }

    fn live(&self) -> u32 {
        1
    }

    fn shape(&self) -> Shape {
        Shape::One
    }

    fn with_tag(&self, _tag: u32) -> Self {
        LastAmount
    }

    fn target(&self, _to: To, _present: u32) -> Self {
        LastAmount
    }

    fn reach(&self, _op: &Op, _proc: u32, _procs: u32) -> Reach {
        Reach::One(0)
    }

    fn empty_part(&self, _alloc: Global, _cell: u32, _procs: u32) -> Result<u64, Memory> {
        Ok(0)
    }

    fn step_one(&self, alloc: Global, part: &mut u64, op: &Op) -> Result<Reply, Memory> {
        self.step(alloc, part, op)
    }

    fn step_all(&self, alloc: Global, parts: &mut Vec<u64>, op: &Op) -> Result<Reply, Memory> {
        self.step(alloc, &mut parts[0], op)
    }

    fn export(&self, _alloc: Global, parts: &mut Vec<u64>) -> Result<u64, Memory> {
        Ok(parts[0])
    }

    fn import(&self, alloc: Global, state: &u64, _procs: u32) -> Result<Vec<u64>, Memory> {
        let mut parts = Vec::new(alloc);
        parts.push(*state)?;
        Ok(parts)
    }

    fn admit(&self, state: u64) -> u64 {
        state
    }

    fn act(&self) -> Act<Op> {
        Act::Swap(To::Layout(0))
    }

    ghost steps = { λ _ procs proc parts op known in_range takes whole. steps_one procs parts op whole };

    ghost steps_all = { λ _ procs parts op known some takes whole. steps_all procs parts op whole };

    ghost reaches = { λ _ procs proc op known in_range takes. omega arith };

    ghost stands = { λ _ procs parts known some whole. record { sized = whole; served = tt } };

    ghost begins = { λ _ procs known some. record { whole = refl; empty = λ live. refl } };

    ghost imports = { λ _ procs state known some served. record { whole = refl; back = refl } };

    ghost ends = { λ _ state known served. refl };

    ghost admits = { λ _ before state known live same served. tt };

    ghost swaps = { λ _ state known number. refl };

    ghost asks = { λ _. refl };

    ghost alike = { λ _ other same. refl };

    ghost few = { λ _. omega arith };

    ghost agrees = { λ _ _ same tags. record { ways = refl; whole = λ procs parts whole. whole; served = λ state served. served } };
}

/// Exports the parts, and imports what they stand for.
fn handed_on<L: Layout>(
    layout: &L,
    alloc: Global,
    parts: &mut Vec<L::Part>,
    procs: u32,
) -> Result<Vec<L::Part>, Memory>
    requires known { IsKnownTag (L.shapes layout.now) (L.tag_of layout.now) × (0 < procs) × (procs ≤ PROCESSORS) }
    requires whole { L.whole layout.now procs parts.old.items }
    ensures row { IfOk result (λ moved. IsWholeRow (L.whole layout.now) moved.items) }
    ensures same { IfOk result (λ moved.
        (L.ways layout.now).combine moved.items ≡ (L.ways layout.now).combine parts.old.items) }
    ensures kept { parts.new.items ≡ parts.old.items }
{
    let state = layout.export(alloc, parts)?;
    layout.import(alloc, &state, procs)
}

#[test]
fn what_a_row_stands_for_is_handed_on(rt: HostRuntime) -> Result<(), Fail> {
    let mut parts = Vec::new(rt.alloc());
    parts.push(LastAmount.empty_part(rt.alloc(), 0, 8)?)?;
    assert_eq!(rt;
        LastAmount.step_one(rt.alloc(), &mut parts[0], &Op::Add(7))?,
        Reply::Done
    );
    let mut moved = handed_on(&LastAmount, rt.alloc(), &mut parts, 8)?;
    assert_eq!(rt;
        LastAmount.step_all(rt.alloc(), &mut moved, &Op::Get)?,
        Reply::Number(7)
    );
    Ok(())
}
