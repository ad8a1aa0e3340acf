//! What the machine keeps of one object, and the entries of the processors.
ghost use Rattle.std.specs.Prelude.{◌≡◌};
ghost use Rattle.k42_shapes.specs.Shapes.{shape_at};
ghost use Rattle.phase_core.specs.State.{empty_entry, mediator_entry};
ghost use Rattle.phase_core.specs.Effects.{direct_entry};
ghost use Rattle.phase_core.specs.Notes.{fits_note};
ghost use Rattle.phase_core.specs.Words.{word_of, with_word};

use k42_shapes::Shape;
use std::marker::Model;

/// What the table of a processor has for one object.
#[derive(Clone, Copy, Debug, PartialEq, Eq)]
pub struct LocalEntry {
    /// 0 where it is empty, 1 where it leads to a cell, 2 where it leads to the mediator.
    pub tag: u32,
    /// The layout and the cell are 0 unless it leads to a cell.
    pub layout: u32,
    pub cell: u32,
    pub incarnation: u32,
}

impl LocalEntry {
    pub(crate) fn empty(incarnation: u32) -> LocalEntry
        ensures { result ≡ empty_entry incarnation }
    {
        LocalEntry {
            tag: 0,
            layout: 0,
            cell: 0,
            incarnation,
        }
    }

    pub(crate) fn mediator(incarnation: u32) -> LocalEntry
        ensures { result ≡ mediator_entry incarnation }
    {
        LocalEntry {
            tag: 2,
            layout: 0,
            cell: 0,
            incarnation,
        }
    }

    pub(crate) fn direct(shapes: &[Shape], layout: u32, proc: u32, incarnation: u32) -> LocalEntry
        ensures { result ≡ direct_entry shapes.now layout proc incarnation }
    {
        LocalEntry {
            tag: 1,
            layout,
            cell: shape_named(shapes, layout).cell_called(proc),
            incarnation,
        }
    }
}

/// The shape of the layout of that number. A dead object has one cell.
fn shape_named(shapes: &[Shape], layout: u32) -> Shape
    ensures { result ≡ shape_at shapes.now layout }
{
    match shapes.get(layout as usize) {
        Some(shape) => *shape,
        None => Shape::One,
    }
}

/// What an object starts with.
#[derive(Debug, Drop)]
pub struct ObjectPlan {
    /// The shapes of its live layouts, by their numbers.
    pub shapes: Vec<Shape>,
    /// The number of one of them, or the next one, of an object that is dead.
    pub layout: u32,
}

impl Model for ObjectPlan {
    ghost use Rattle.phase_core.specs.Plain as plain;

    ghost Value = { plain.ObjectPlan };

    ghost view = { λ p. record { shapes = p.shapes.items; layout = p.layout } };
}

/// One object: its bits, its present row, and what the processors have for it.
#[derive(Debug, Drop)]
pub struct PhaseObject {
    /// Those of its live layouts, by their numbers.
    pub shapes: Vec<Shape>,
    /// How many callers are counted at the mediator.
    pub count: u32,
    /// A swap is under way.
    pub swap: bool,
    /// The mediator lets nobody in.
    pub block: bool,
    /// The state is moved.
    pub moving: bool,
    /// The next implementation is there.
    pub complete: bool,
    /// The number of its present layout, or the one behind those of the live ones where it is dead.
    pub layout: u32,
    pub incarnation: u32,
    /// One for each processor.
    pub entries: Vec<LocalEntry>,
    /// The rows below this number are freed.
    pub freed: u32,
}

impl Model for PhaseObject {
    ghost use Rattle.phase_core.specs.Plain.{Object};

    ghost Value = { Object };

    ghost view = { λ k. record {
      shapes = k.shapes.items;
      count = k.count;
      swap = k.swap;
      block = k.block;
      moving = k.moving;
      complete = k.complete;
      layout = k.layout;
      incarnation = k.incarnation;
      entries = k.entries.items;
      freed = k.freed;
    } };
}

/// What the word of an object tells, and how many of its rows are freed.
#[derive(Clone, Copy, Debug)]
pub(crate) struct Word {
    pub count: u32,
    pub swap: bool,
    pub block: bool,
    pub moving: bool,
    pub complete: bool,
    pub layout: u32,
    pub incarnation: u32,
    pub freed: u32,
}

impl PhaseObject {
    pub(crate) fn word(&self) -> Word
        ensures { result ≡ word_of self.now }
    {
        Word {
            count: self.count,
            swap: self.swap,
            block: self.block,
            moving: self.moving,
            complete: self.complete,
            layout: self.layout,
            incarnation: self.incarnation,
            freed: self.freed,
        }
    }

    pub(crate) fn set_word(&mut self, word: &Word)
        ensures { self.new ≡ with_word self.old word.now }
    {
        self.count = word.count;
        self.swap = word.swap;
        self.block = word.block;
        self.moving = word.moving;
        self.complete = word.complete;
        self.layout = word.layout;
        self.incarnation = word.incarnation;
        self.freed = word.freed;
    }

    /// Whether the number is not above the incarnation, and below it where COMPLETE is set.
    pub(crate) fn fits_note(&self, number: u32) -> bool
        ensures { result ≡ fits_note self.now number }
    {
        if self.complete {
            number < self.incarnation
        } else {
            number <= self.incarnation
        }
    }
}
