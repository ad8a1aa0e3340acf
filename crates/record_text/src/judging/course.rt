//! One worker's way through its lines, in their order and in step with its generations.
ghost use Rattle.std.specs.Prelude.{◌≡◌, ◌<◌, ◌+◌, ◌^◌, [], ◌∷◌, ◌++◌, ℕ, List, Option, Some, true, slice_get, length};
ghost use Rattle.std.specs.Bool.{Decides};
ghost use Rattle.script_text.specs.Lawful.{call_lines};
ghost use Rattle.script_text.specs.declared.script.Item.{Item as Said};
ghost use Rattle.record_text.specs.Told.{answered};
ghost use Rattle.record_text.specs.Referee.Courses.{IsWalked, IsAtLine, StandsAtLine, IsInStepWith, IsNoneOrInStep};

use crate::record::RecordLine;
use script_text::{CallLine, Item};

/// How far a worker has come among its items, and in which generations.
#[derive(Clone, Copy, Drop)]
pub struct Course {
    /// The item that comes next.
    pub at: usize,
    /// Whether a block is open there.
    pub in_block: bool,
    /// The last generation of the worker, and 0 before the first.
    pub last: u32,
    /// The generation of the last block, if a line of it told one.
    pub of_block: Option<u32>,
}

fn answers(call: &CallLine, line: &RecordLine) -> bool
    ensures { Decides result (call.now ≡ answered line.now) }
{
    call.line == line.line && call.object == line.object && call.act == line.act
}

impl Course {
    pub fn new() -> Course
        ensures { (items : List Said) → IsWalked items [] result }
    {
        Course {
            at: 0,
            in_block: false,
            last: 0,
            of_block: None,
        }
    }

    /// Goes on to the next line, or to the end.
    pub fn walk(&mut self, items: &[Item])
        ensures kept { (told : List (Option ℕ)) → IsWalked items.now told self.old →
            IsWalked items.now told self.new }
        ensures at_line { IsAtLine items.now self.new }
    {
        while self.at < items.len() {
            match items[self.at] {
                Item::Begin => self.begin_block(),
                Item::End => self.end_block(),
                Item::Line(_) => return,
            }
        }
    }

    fn begin_block(&mut self)
        requires { self.old.at < 2 ^ 63 }
        ensures kept { (items : List Said) (told : List (Option ℕ)) → IsWalked items told self.old →
            slice_get items self.old.at ≡ Some Item.Begin → IsWalked items told self.new }
        ensures at { self.new.at ≡ self.old.at + 1 }
    {
        self.at += 1;
        self.in_block = true;
        self.of_block = None;
    }

    fn end_block(&mut self)
        requires { self.old.at < 2 ^ 63 }
        ensures kept { (items : List Said) (told : List (Option ℕ)) → IsWalked items told self.old →
            slice_get items self.old.at ≡ Some Item.End → IsWalked items told self.new }
        ensures at { self.new.at ≡ self.old.at + 1 }
    {
        self.at += 1;
        self.in_block = false;
    }

    /// Whether the line answers the next one.
    pub fn is_next(&self, items: &[Item], line: &RecordLine) -> bool
        ensures next { (told : List (Option ℕ)) → IsWalked items.now told self.now →
            IsAtLine items.now self.now →
            Decides result
            (slice_get (call_lines items.now) (length told) ≡ Some (answered line.now)) }
        ensures here { result ≡ true → StandsAtLine items.now self.now }
    {
        if self.at >= items.len() {
            return false;
        }
        match &items[self.at] {
            Item::Line(call) => answers(call, line),
            _ => false,
        }
    }

    /// Whether the next line may have this generation.
    pub fn allows(&self, generation: u32) -> bool
        ensures { (items : List Said) (told : List (Option ℕ)) → IsWalked items told self.now →
            StandsAtLine items self.now → Decides result (IsInStepWith items told generation) }
    {
        if generation < self.last {
            return false;
        }
        match self.of_block {
            Some(former) => !self.in_block || former == generation,
            None => true,
        }
    }

    /// Passes the next line, which had this generation.
    pub fn pass(&mut self, generation: Option<u32>)
        requires { self.old.at < 2 ^ 63 }
        ensures { (items : List Said) (told : List (Option ℕ)) → IsWalked items told self.old →
            StandsAtLine items self.old → IsNoneOrInStep items told generation →
            IsWalked items (told ++ generation ∷ []) self.new }
    {
        self.at += 1;
        if let Some(generation) = generation {
            self.last = generation;
            if self.in_block {
                self.of_block = Some(generation);
            }
        }
    }
}
