//! Each line is replayed on the watched object of one thread.
ghost use Rattle.std.specs.Prelude.{◌≡◌, IsTrue, true, IfOk, if◌then◌else◌};
ghost use Rattle.std.specs.Bool.{Decides};
ghost use Rattle.k42_kinds.specs.Objects.{is_dead};
ghost use Rattle.k42_kinds.specs.Steps.{Steps};
ghost use Rattle.k42_kinds.specs.Watched.{watched_object};
ghost use Rattle.record_text.specs.Referee.Judged.{IsReply, IsNextSwap, EndsAs, CanTake, object_after, one_thread};
ghost use Rattle.record_text.specs.Referee.Judged as judged;

use crate::record::RecordLine;
use k42_kinds::{
    Act, Answer, AnyState, Kind, Op, Plain, Reply, To, WatchState, counted, is_seen, told,
};
use k42_limits::LAST_INCARNATION;
use k42_memory::Memory;
use std::alloc::Global;

/// An object of one thread, after the lines so far.
#[derive(Drop)]
pub struct Object {
    pub plain: Plain,
    /// Its state, and what the layer round it has counted.
    pub state: WatchState<AnyState>,
    /// How many swaps of it were carried out.
    pub number: u32,
}

fn is_ended(state: &AnyState) -> bool
    ensures { result ≡ is_dead state.now }
{
    matches!(state, AnyState::Dead)
}

/// One operation, which the layer counts or answers by itself.
fn step(
    alloc: Global,
    plain: &Plain,
    state: &mut WatchState<AnyState>,
    op: &Op,
) -> Result<Reply, Memory>
    requires { IsTrue ((watched_object plain.now.kind).takes op.now) }
    ensures { IfOk result (λ replied. Steps (watched_object plain.now.kind).after
        (watched_object plain.now.kind).reply state.old op.now replied state.new) }
{
    if is_seen(op) {
        return Ok(told(is_ended(&state.inner), state.seen));
    }
    let reply = plain.step(alloc, &mut state.inner, op)?;
    state.seen = counted(state.seen);
    Ok(reply)
}

impl Object {
    pub fn new(alloc: Global, plain: Plain) -> Object
        ensures { result ≡ judged.fresh plain }
    {
        Object {
            plain,
            state: WatchState {
                inner: plain.empty(alloc),
                seen: None,
            },
            number: 0,
        }
    }

    fn is_dead(&self) -> bool
        ensures { result ≡ judged.is_over self.now }
    {
        is_ended(&self.state.inner)
    }

    /// Whether the line tells what the object does next, which it then has done. Whether another's
    /// swap may refuse the line is known to the caller.
    pub fn judge(
        &mut self,
        alloc: Global,
        line: &RecordLine,
        refusable: bool,
    ) -> Result<bool, Memory>
        requires { CanTake self.old line.now.act }
        ensures legal { IfOk result (λ legal.
            Decides legal (judged.Tells self.old refusable line.now line.now.act)) }
        ensures moved { IfOk result (λ legal. legal ≡ true →
            self.new ≡ object_after self.old line.now.act line.now.answer) }
    {
        match &line.act {
            Act::Call(op) => self.call(alloc, line, op),
            Act::Swap(to) => Ok(self.swap(line, to, refusable)),
        }
    }

    fn call(&mut self, alloc: Global, line: &RecordLine, op: &Op) -> Result<bool, Memory>
        requires { IsTrue ((one_thread self.old).takes op.now) }
        ensures legal { IfOk result (λ legal. Decides legal (IsReply self.old line.now op.now)) }
        ensures moved { IfOk result (λ legal. legal ≡ true →
            self.new ≡ object_after self.old (Act.Call op.now) line.now.answer) }
    {
        let reply = step(alloc, &self.plain, &mut self.state, op)?;
        Ok(line.answer == Answer::Replied(reply) && line.incarnation == self.number)
    }

    fn swap(&mut self, line: &RecordLine, to: &To, refusable: bool) -> bool
        ensures legal { Decides result
            (EndsAs self.old refusable line.now.incarnation line.now.answer) }
        ensures moved { result ≡ true →
            self.new ≡ object_after self.old (Act.Swap to.now) line.now.answer }
    {
        match line.answer {
            Answer::Swapped(number) => self.carry_out(line.incarnation, number, to),
            Answer::Busy(_) => refusable,
            Answer::Spent => {
                !self.is_dead()
                    && self.number == LAST_INCARNATION
                    && line.incarnation == self.number
            }
            Answer::Gone => self.is_dead() && line.incarnation == self.number,
            _ => false,
        }
    }

    /// What a swap leaves that is carried out: a watch counts from 0, whatever was counted.
    fn keep_as(&mut self, to: &To)
        ensures { self.new ≡
            record self.old { state = (one_thread self.old).swapped self.old.state to.now } }
    {
        match to {
            To::Layout(_) => {}
            To::Dead => {
                self.state.inner = AnyState::Dead;
                self.state.seen = None;
            }
            To::Watch => self.state.seen = Some(0),
            To::Unwatch => self.state.seen = None,
        }
    }

    fn carry_out(&mut self, incarnation: u32, number: u32, to: &To) -> bool
        ensures legal { Decides result (IsNextSwap self.old incarnation number) }
        ensures moved { result ≡ true →
            self.new ≡ object_after self.old (Act.Swap to.now) (Answer.Swapped number) }
    {
        let legal = !self.is_dead()
            && self.number < LAST_INCARNATION
            && number == self.number + 1
            && incarnation == self.number;
        if legal {
            self.number = number;
            self.keep_as(to);
        }
        legal
    }
}
