//! A plan of swaps that passes carry out side by side, one swap in flight for each.
ghost use Rattle.std.specs.Prelude.{◌≡◌, ◌<◌, ◌≤◌, ◌-◌, ◌+◌, true, false, [], length, replicate, set, slice_get, None, Some, Ok, Err, IfOk, IfErr, IsSomeAnd, IfSome, option_and_then};
ghost use Rattle.co_system.specs.Systems.{MayLead};
ghost use Rattle.futures.specs.Poll.{IfReady, OnPending};
ghost use Rattle.futures.specs.Task.{Covers, Keeps};
ghost use Rattle.k42_places.specs.Places.{EachPlace};
ghost use Rattle.k42_runtime.specs.declared.swaps.NoSwap.TheVariants as NoSwap;
ghost use Rattle.swap_future.specs.declared.rolling.Rolled.{Rolled};
ghost use Rattle.swap_future.specs.Rolling.{IsRolling, HasGotOn, HasRolled, IsAtHand, MayRoll, seen, new_roll, cause_at};
ghost use Rattle.swap_future.specs.Rounds.{HasEndedNone, HasFinished, HasGoneRound, HasTurned, IsHeldUp};

use co_system::{Cause, NoSwap, Pass, Step, Swap, Swapped, System, To};
use futures::Future;
use futures::task::{Context, Poll};
use k42_memory::Memory;
use std::alloc::Global;
use std::mem;

/// A swap that a pass of a roll has in flight.
#[derive(Drop)]
pub struct Flight {
    pub swap: Swap,
    /// The place of its item in the plan.
    pub item: usize,
    /// What held it up at its last step.
    pub cause: Option<Cause>,
}

/// How far a roll is.
#[derive(Drop)]
pub struct Rolling {
    pub plan: Vec<(u32, To)>,
    /// How many items are taken, in the plan's order.
    pub taken: usize,
    /// How many are not finished.
    pub left: usize,
    pub passes: Vec<Pass>,
    /// The swap that each pass has in flight.
    pub flights: Vec<Option<Flight>>,
    /// The answer of each item that is finished.
    pub answers: Vec<Result<Swapped, NoSwap>>,
}

/// The answers of a plan's items in their order, and the passes in theirs.
#[derive(Drop)]
pub struct Rolled {
    pub answers: Vec<Result<Swapped, NoSwap>>,
    pub passes: Vec<Pass>,
}

/// There was no memory for the roll. The passes are as they were.
#[derive(Drop)]
pub struct Unrolled {
    pub passes: Vec<Pass>,
}

/// A plan of swaps under way: each pass has one swap in flight, and takes the plan's next item once it has ended. If it is
/// let go before it is ready, the objects of the swaps in flight stay under them, and the system can't be closed.
#[derive(Drop)]
pub struct Roll<'a> {
    alloc: Global,
    pub system: &'a System,
    /// None once it was ready.
    pub rolling: Option<Rolling>,
}

/// So many passes with no swap in flight.
fn no_flights(alloc: Global, count: usize) -> Result<Vec<Option<Flight>>, Memory>
    ensures { IfOk result (λ flights. flights.items ≡ replicate count None) }
{
    let mut flights = Vec::with_capacity(alloc, count)?;
    for _ in 0..count {
        flights.push(None)?;
    }
    Ok(flights)
}

/// Places for the answers of so many items, none of which is finished.
fn no_answers(alloc: Global, count: usize) -> Result<Vec<Result<Swapped, NoSwap>>, Memory>
    ensures { IfOk result (λ answers. answers.items ≡ replicate count (Err NoSwap.Memory)) }
{
    let mut answers = Vec::with_capacity(alloc, count)?;
    for _ in 0..count {
        answers.push(Err(NoSwap::Memory))?;
    }
    Ok(answers)
}

/// The places of a roll that has not begun.
fn start_rolling(
    alloc: Global,
    passes: Vec<Pass>,
    plan: Vec<(u32, To)>,
) -> Result<Rolling, Unrolled>
    ensures new { IfOk result (λ rolling. seen rolling ≡ new_roll plan.items passes.items) }
    ensures back { IfErr result (λ back. back.passes.items ≡ passes.items) }
{
    let Ok(flights) = no_flights(alloc, passes.len()) else {
        return Err(Unrolled { passes });
    };
    let Ok(answers) = no_answers(alloc, plan.len()) else {
        return Err(Unrolled { passes });
    };
    Ok(Rolling {
        taken: 0,
        left: plan.len(),
        plan,
        passes,
        flights,
        answers,
    })
}

/// Takes out the swap that the pass at this place has in flight, or that of the next item.
fn take_flight(rolling: &mut Rolling, place: usize) -> Option<Flight>
    requires there { place < length rolling.old.flights.items }
    ensures none { result ≡ None → (seen rolling.new ≡ seen rolling.old)
        × (slice_get rolling.old.flights.items place ≡ Some None) × (length rolling.old.plan.items ≤ rolling.old.taken) }
    ensures some { IfSome result (λ flight. IsAtHand place (seen rolling.old) flight (seen rolling.new)) }
{
    if let Some(flight) = mem::replace(&mut rolling.flights[place], None) {
        return Some(flight);
    }
    if rolling.taken >= rolling.plan.len() {
        return None;
    }
    let (object, to) = rolling.plan[rolling.taken];
    let item = rolling.taken;
    rolling.taken += 1;
    Some(Flight {
        swap: Swap::new(object, to),
        item,
        cause: None,
    })
}

/// Writes down the answer of an item.
fn finish(rolling: &mut Rolling, item: usize, answer: Result<Swapped, NoSwap>)
    requires there { item < length rolling.old.answers.items }
    requires some { 0 < rolling.old.left }
    ensures { seen rolling.new ≡ record (seen rolling.old) {
      left = rolling.old.left - 1;
      answers = set rolling.old.answers.items item answer;
    } }
{
    rolling.answers[item] = answer;
    rolling.left -= 1;
}

/// Makes a step of the swap that the pass at this place has in flight, or of the next item's.
fn turn(alloc: Global, system: &System, rolling: &mut Rolling, place: usize)
    requires rolls { IsRolling system.now (seen rolling.old) }
    requires there { place < length rolling.old.passes.items }
    ensures { HasTurned system.now place (seen rolling.old) (seen rolling.new) }
{
    let Some(mut flight) = take_flight(rolling, place) else {
        return;
    };
    match flight.swap.step(alloc, system, &mut rolling.passes[place]) {
        Step::Again(cause) => {
            flight.cause = Some(cause);
            rolling.flights[place] = Some(flight);
        }
        Step::Ended(end) => finish(rolling, flight.item, Ok(end)),
        Step::Memory => finish(rolling, flight.item, Err(NoSwap::Memory)),
        Step::Worn => finish(rolling, flight.item, Err(NoSwap::Worn)),
    }
}

/// Gives each pass a turn, and answers whether a swap has ended.
fn round(alloc: Global, system: &System, rolling: &mut Rolling) -> bool
    requires rolls { IsRolling system.now (seen rolling.old) }
    requires some { 0 < rolling.old.left }
    ensures round { HasGoneRound system.now (seen rolling.old) (seen rolling.new) }
    ensures ended { result ≡ true → rolling.new.left < rolling.old.left }
    ensures none { result ≡ false → HasEndedNone (seen rolling.old) (seen rolling.new) }
{
    let left = rolling.left;
    for place in 0..rolling.passes.len() {
        turn(alloc, system, rolling, place);
    }
    rolling.left < left
}

/// Goes round until a round has ended no swap, and answers whether all items are finished.
fn go_round(alloc: Global, system: &System, rolling: &mut Rolling) -> bool
    requires { IsRolling system.now (seen rolling.old) }
    ensures rolls { IsRolling system.now (seen rolling.new) }
    ensures got_on { HasGotOn system.now (seen rolling.old) (seen rolling.new) }
    ensures none { result ≡ true → rolling.new.left ≡ 0 }
    ensures finished { result ≡ true → HasFinished system.now (seen rolling.old) rolling.new.answers.items rolling.new.passes.items }
    ensures held_up { result ≡ false → IsHeldUp system.now (seen rolling.old) (seen rolling.new) }
{
    while rolling.left > 0 {
        if !round(alloc, system, rolling) {
            return false;
        }
    }
    true
}

impl<'a> Roll<'a> {
    /// A plan that has not begun. All memory that a poll needs of its own is asked for here.
    pub fn new(
        alloc: Global,
        system: &'a System,
        passes: Vec<Pass>,
        plan: Vec<(u32, To)>,
    ) -> Result<Roll<'a>, Unrolled>
        requires some { 0 < length passes.items }
        requires passes { EachPlace (λ i. MayRoll system.now) passes.items }
        requires objects { EachPlace (λ i asked. asked.0 < length system.now.plan.objects) plan.items }
        requires leads { EachPlace (λ i asked. MayLead system.now.plan asked.0 asked.1) plan.items }
        ensures system { IfOk result (λ roll. roll.system.now ≡ system.now) }
        ensures new { IfOk result (λ roll. IsSomeAnd roll.rolling (λ rolling. seen rolling ≡ new_roll plan.items passes.items)) }
        ensures rolls { IfOk result (λ roll. IsSomeAnd roll.rolling (λ rolling. IsRolling system.now (seen rolling))) }
        ensures back { IfErr result (λ back. back.passes.items ≡ passes.items) }
    {
        // The table has as many.
        let _objects = system.objects();
        let rolling = start_rolling(alloc, passes, plan)?;
        Ok(Roll {
            alloc,
            system,
            rolling: Some(rolling),
        })
    }

    /// What held up the swap that the pass at this place has in flight, at its last step. None where it has none, where there
    /// is no such place, and once the roll was ready.
    pub fn cause(&self, place: u32) -> Option<Cause>
        ensures { result ≡ cause_at self.now.rolling place }
    {
        self.rolling
            .as_ref()?
            .flights
            .get(place as usize)?
            .as_ref()?
            .cause
    }
}

impl Future for Roll<'_> {
    type Output = Rolled;

    ghost can_poll = { λ r. IsSomeAnd r.rolling (λ rolling. IsRolling r.system.now (seen rolling)) };

    ghost gives = { λ r end. IsSomeAnd r.rolling (λ rolling. HasRolled r.system.now (seen rolling) end.answers.items end.passes.items) };

    fn poll(&mut self, cx: &mut Context<'_>) -> Poll<Rolled>
        requires { IsSomeAnd self.old.rolling (λ rolling. IsRolling self.old.system.now (seen rolling)) }
        ensures value { IfReady result (λ end. IsSomeAnd self.old.rolling (λ rolling.
            HasRolled self.old.system.now (seen rolling) end.answers.items end.passes.items)) }
        ensures again { OnPending result (IsSomeAnd self.new.rolling (λ rolling. IsRolling self.new.system.now (seen rolling))) }
        ensures same { OnPending result ((end : Rolled)
            → IsSomeAnd self.new.rolling (λ rolling. HasRolled self.new.system.now (seen rolling) end.answers.items end.passes.items)
            → IsSomeAnd self.old.rolling (λ rolling. HasRolled self.old.system.now (seen rolling) end.answers.items end.passes.items)) }
        ensures registered { OnPending result (Covers cx.new (λ _. ⊥)) }
        ensures kept { Keeps cx.old cx.new }
        ensures system { self.new.system.now ≡ self.old.system.now }
        ensures held_up { OnPending result (IsSomeAnd self.old.rolling (λ old. IsSomeAnd self.new.rolling (λ new.
            HasGotOn self.old.system.now (seen old) (seen new) × IsHeldUp self.old.system.now (seen old) (seen new)))) }
        ensures finished { IfReady result (λ end. IsSomeAnd self.old.rolling (λ rolling.
            HasFinished self.old.system.now (seen rolling) end.answers.items end.passes.items)) }
        ensures over { IfReady result (λ end. self.new.rolling ≡ None) }
    {
        let Some(mut rolling) = self.rolling.take() else {
            unreachable!()
        };
        if go_round(self.alloc, self.system, &mut rolling) {
            return Poll::Ready(Rolled {
                answers: rolling.answers,
                passes: rolling.passes,
            });
        }
        self.rolling = Some(rolling);
        cx.yield_now()
    }
}
