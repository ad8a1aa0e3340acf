//! A worker as a task.
ghost use Rattle.std.specs.Prelude.{◌≡◌, ◌↔◌, ◌+◌, ◌<◌, true, false, length, Some, slice_get};
ghost use Rattle.script_text.specs.declared.script.Item.TheVariants as Item;
ghost use Rattle.co_system.specs.Systems.{SystemSeen};
ghost use Rattle.k42_runtime.specs.Systems.{IsPassHere, IsAtRest};
ghost use Rattle.task_workers.specs.Steps.{HasStepped, behind_item, step_behind};
ghost use Rattle.task_workers.specs.Tasks.{IsTask, MayBegin, has_ended};
ghost use Rattle.task_workers.specs.Tries.{begun_at};
ghost use Rattle.task_workers.specs.declared.tasks.TaskAt.TheVariants as TaskAt;
ghost use Rattle.task_workers.specs.declared.tasks.TaskStep.TheVariants as TaskStep;

use crate::lines::{start, try_line};
use co_system::{Call, CallCause, Cause, Pass, Swap, System};
use k42_memory::Memory;
use k42_workers::{Gate, leave_open};
use script_text::{CallLine, Item};
use std::alloc::Global;

/// What holds a task up: what its call or its swap was held up by.
#[derive(Clone, Copy, Debug, PartialEq, Eq)]
pub enum TaskCause {
    Call(CallCause),
    Swap(Cause),
}

/// How far a step has brought a task.
#[derive(Clone, Copy, Debug, PartialEq, Eq)]
pub enum TaskStep {
    /// Its next line was held up.
    Again(TaskCause),
    /// An item was done, and others are left.
    Going,
    /// All items are done.
    Ended,
    /// The pass has left its activity, and the task has ended.
    Memory,
}

/// Where a task is: between two of its items, in the call or the swap of a line, or at its end.
#[derive(Drop)]
pub enum TaskAt {
    Between,
    Calling(Call),
    Swapping(Swap),
    Over,
}

/// A worker that goes through its items, a step at a time. It may be let go at any moment; with a swap under way the
/// object stays under that swap, and the system can't be closed.
#[derive(Drop)]
pub struct WorkerTask<'a> {
    pub pass: Pass,
    pub items: &'a [Item],
    /// How many of them are done.
    pub done: usize,
    /// Whether a block is open.
    pub inside: bool,
    pub at: TaskAt,
}

impl<'a> WorkerTask<'a> {
    /// A task that has not begun. It takes no memory.
    pub fn new(pass: Pass, items: &'a [Item]) -> WorkerTask<'a>
        ensures pass { result.pass ≡ pass }
        ensures items { result.items.now ≡ items.now }
        ensures first { (result.done ≡ 0) × (result.inside ≡ false) × (result.at ≡ TaskAt.Between) }
        ensures may { (system : SystemSeen) → MayBegin system pass items.now → IsTask system result }
    {
        WorkerTask {
            pass,
            items,
            done: 0,
            inside: false,
            at: TaskAt::Between,
        }
    }

    /// Whether it has answered `Ended` or `Memory`.
    pub fn ended(&self) -> bool
        ensures { result ≡ has_ended self.now.at }
    {
        matches!(self.at, TaskAt::Over)
    }

    /// Carries out its next item, as far as it can without waiting. The gate is told of a line once before its first try,
    /// and once after it was done. For want of memory the task leaves its activity and has ended.
    pub fn step<G: Gate>(&mut self, alloc: Global, system: &System, gate: &G) -> TaskStep
        requires task { IsTask system.now self.old }
        requires going { has_ended self.old.at ≡ false }
        ensures stepped { HasStepped system.now result self.old self.new }
        ensures all { (result ≡ TaskStep.Ended) ↔ (self.new.done ≡ length self.new.items.now) }
    {
        let items = self.items;
        let Some(item) = items.get(self.done) else {
            self.at = TaskAt::Over;
            return TaskStep::Ended;
        };
        match item {
            Item::Begin => self.go_on(true),
            Item::End => {
                leave_open(system, &mut self.pass);
                self.go_on(false)
            }
            Item::Line(line) => self.answer(alloc, system, line, gate),
        }
    }

    /// The pass, idle, with all its entries.
    pub fn finish(self) -> Pass
        requires ended { has_ended self.at ≡ true }
        ensures pass { result ≡ self.entry.pass }
        ensures rests { (system : SystemSeen) → IsTask system self.entry → IsPassHere system result × IsAtRest result.view }
    {
        let WorkerTask { pass, .. } = self;
        pass
    }

    /// Carries out the line that is next, as far as it goes without waiting.
    fn answer<G: Gate>(
        &mut self,
        alloc: Global,
        system: &System,
        line: &CallLine,
        gate: &G,
    ) -> TaskStep
        requires task { IsTask system.now self.old }
        requires going { has_ended self.old.at ≡ false }
        requires next { slice_get self.old.items.now self.old.done ≡ Some (Item.Line line.now) }
        ensures { HasStepped system.now result self.old self.new }
    {
        // So that the table has each object of the plan.
        let _objects = system.objects();
        self.begin(line, gate);
        match try_line(alloc, system, &mut self.pass, &mut self.at, self.inside) {
            Ok(None) => {
                gate.at(self.pass.caller(), line.line, false);
                self.go_on(self.inside)
            }
            Ok(Some(cause)) => TaskStep::Again(cause),
            Err(Memory) => {
                self.at = TaskAt::Over;
                TaskStep::Memory
            }
        }
    }

    /// Begins the line, unless it is under way.
    fn begin<G: Gate>(&mut self, line: &CallLine, gate: &G)
        ensures { self.new ≡ record self.old { at = begun_at line.now self.old.at } }
    {
        if let TaskAt::Between = self.at {
            gate.at(self.pass.caller(), line.line, true);
            self.at = start(line);
        }
    }

    /// The next item is done, and a block is open behind it or not.
    fn go_on(&mut self, inside: bool) -> TaskStep
        requires { self.old.done < length self.old.items.now }
        ensures task { self.new ≡ behind_item inside self.old }
        ensures step { result ≡ step_behind (self.old.done + 1) (length self.old.items.now) }
    {
        self.done += 1;
        self.inside = inside;
        if self.done < self.items.len() {
            self.at = TaskAt::Between;
            TaskStep::Going
        } else {
            self.at = TaskAt::Over;
            TaskStep::Ended
        }
    }
}
