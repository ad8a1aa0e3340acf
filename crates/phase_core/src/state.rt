//! The state of the machine, and the steps from which its events are made.
ghost use Rattle.std.specs.Prelude.{◌≡◌, ℕ, ◌<◌, ◌≤◌, ◌*◌, length, slice_set, replicate, [], is_none};
ghost use Rattle.k42_shapes.specs.Shapes.{is_dead_tag};
ghost use Rattle.gen_core.specs.State.{caller_at};
ghost use Rattle.phase_core.specs.Turns.{AreTurnsSound, turning, can_turn, turns_happened, put_turns};
ghost use Rattle.phase_core.specs.Room.{HasRoomToTurn};
ghost use Rattle.phase_core.specs.State.{object_at, visitor_at, note_at, entry_at, put_object, put_visitor, put_entry, with_row};
ghost use Rattle.phase_core.specs.Words.{word_of, with_word};
ghost use Rattle.phase_core.specs.Effects.{at_place, at_row, at_stage, direct_entry};
ghost use Rattle.phase_core.specs.Notes.{numbers_of};

use crate::caller::{PhaseCaller, Place, SwapAt};
use crate::object::{LocalEntry, PhaseObject, Word};
use crate::taking::note_all;
use gen_core::{GenCaller, GenEvent, GenState, apply};
use std::marker::Model;

/// The generations, the objects and the callers, each named by its place.
#[derive(Debug, Drop)]
pub struct PhaseState {
    pub turns: GenState,
    pub objects: Vec<PhaseObject>,
    pub callers: Vec<PhaseCaller>,
}

impl Model for PhaseState {
    ghost use Rattle.phase_core.specs.Plain.{Phases};

    ghost Value = { Phases };

    ghost view = { λ s. record { turns = s.turns; objects = s.objects.items; callers = s.callers.items } };
}

impl PhaseState {
    pub(crate) fn turn(&self, c: usize) -> &GenCaller
        requires { c < length self.now.turns.callers }
        ensures { result.now ≡ caller_at self.now.turns c }
    {
        &self.turns.callers[c]
    }

    pub(crate) fn caller(&self, c: usize) -> &PhaseCaller
        requires { c < length self.now.callers }
        ensures { result.now ≡ visitor_at self.now c }
    {
        &self.callers[c]
    }

    pub(crate) fn object(&self, o: usize) -> &PhaseObject
        requires { o < length self.now.objects }
        ensures { result.now ≡ object_at self.now o }
    {
        &self.objects[o]
    }

    pub(crate) fn processors(&self) -> usize
        ensures { result ≡ length self.now.turns.procs }
    {
        self.turns.procs.len()
    }

    pub(crate) fn incarnation(&self, o: usize) -> u32
        requires { o < length self.now.objects }
        ensures { result ≡ (object_at self.now o).incarnation }
    {
        self.objects[o].incarnation
    }

    pub(crate) fn live_layouts(&self, o: usize) -> usize
        requires { o < length self.now.objects }
        ensures { result ≡ length (object_at self.now o).shapes }
    {
        self.objects[o].shapes.len()
    }

    pub(crate) fn is_dead(&self, o: usize) -> bool
        requires { o < length self.now.objects }
        ensures { result ≡ is_dead_tag (object_at self.now o).shapes (object_at self.now o).layout }
    {
        let object = &self.objects[o];
        object.layout as usize == object.shapes.len()
    }

    /// The entry that leads to where the object's root does.
    pub(crate) fn direct(&self, o: usize, proc: u32, incarnation: u32) -> LocalEntry
        requires { o < length self.now.objects }
        ensures { result ≡ direct_entry (object_at self.now o).shapes (object_at self.now o).layout proc incarnation }
    {
        let object = &self.objects[o];
        LocalEntry::direct(object.shapes.as_slice(), object.layout, proc, incarnation)
    }

    pub(crate) fn entry(&self, o: usize, p: usize) -> LocalEntry
        requires there { o < length self.now.objects }
        requires in_range { p < length (object_at self.now o).entries }
        ensures { result ≡ entry_at (object_at self.now o) p }
    {
        self.objects[o].entries[p]
    }

    pub(crate) fn set_place(&mut self, c: usize, place: Place)
        requires { c < length self.old.callers }
        ensures { self.new ≡ put_visitor self.old c (at_place (visitor_at self.old c) place) }
    {
        self.callers[c].set_place(place);
    }

    pub(crate) fn read_row(&mut self, c: usize, object: u32, incarnation: u32, place: Place)
        requires there { c < length self.old.callers }
        requires room { length (with_row (visitor_at self.old c).read object incarnation)
            ≤ 2 * length (visitor_at self.old c).noted }
        ensures { self.new ≡ put_visitor self.old c (at_row (visitor_at self.old c) object incarnation place) }
    {
        self.callers[c].read_row(object, incarnation, place);
    }

    pub(crate) fn set_swap(&mut self, c: usize, swap: SwapAt)
        requires { c < length self.old.callers }
        ensures { self.new ≡ put_visitor self.old c (at_stage (visitor_at self.old c) swap) }
    {
        self.callers[c].set_swap(swap);
    }

    pub(crate) fn set_count(&mut self, o: usize, count: u32)
        requires { o < length self.old.objects }
        ensures { self.new ≡ put_object self.old o (record (object_at self.old o) { count = count }) }
    {
        let object = &mut self.objects[o];
        object.count = count;
    }

    pub(crate) fn set_entry(&mut self, o: usize, p: usize, entry: LocalEntry)
        requires there { o < length self.old.objects }
        requires in_range { p < length (object_at self.old o).entries }
        ensures { self.new ≡ put_object self.old o (put_entry (object_at self.old o) p entry) }
    {
        let object = &mut self.objects[o];
        object.entries[p] = entry;
    }

    /// The bits and the numbers of an object, without its entries.
    pub(crate) fn word(&self, o: usize) -> Word
        requires { o < length self.now.objects }
        ensures { result ≡ word_of (object_at self.now o) }
    {
        self.objects[o].word()
    }

    pub(crate) fn set_word(&mut self, o: usize, word: &Word)
        requires { o < length self.old.objects }
        ensures { self.new ≡ put_object self.old o (with_word (object_at self.old o) word.now) }
    {
        self.objects[o].set_word(word);
    }

    pub(crate) fn note(&self, c: usize, o: usize) -> Option<u32>
        requires there { c < length self.now.callers }
        requires room { o < length (visitor_at self.now c).noted }
        ensures { result ≡ note_at (visitor_at self.now c).noted o }
    {
        let caller = &self.callers[c];
        caller.noted[o]
    }

    pub(crate) fn set_freeing(&mut self, c: usize, o: usize, from: u32, to: u32)
        requires there { c < length self.old.callers }
        requires room { o < length (visitor_at self.old c).freeing }
        ensures { self.new ≡ put_visitor self.old c
            (record (visitor_at self.old c) { freeing = slice_set (visitor_at self.old c).freeing o (from, to) }) }
    {
        let caller = &mut self.callers[c];
        caller.freeing[o] = (from, to);
    }

    /// An event of the generations alone.
    pub(crate) fn pass_on(&mut self, event: &GenEvent) -> bool
        requires sound { AreTurnsSound self.old }
        requires in_range { turning event.now < length self.old.turns.callers }
        requires room { HasRoomToTurn self.old event.now }
        ensures answer { result ≡ can_turn self.old event.now }
        ensures state { self.new ≡ put_turns self.old (turns_happened self.old event.now) }
    {
        apply(&mut self.turns, event)
    }

    /// Whether nobody holds the role.
    pub(crate) fn is_free(&self) -> bool
        ensures { result ≡ is_none self.now.turns.role }
    {
        self.turns.role.is_none()
    }

    pub(crate) fn clear_read(&mut self, c: usize)
        requires { c < length self.old.callers }
        ensures { self.new ≡ put_visitor self.old c (record (visitor_at self.old c) { read = [] }) }
    {
        let caller = &mut self.callers[c];
        caller.read.clear();
    }

    /// The numbers that the notes of a caller give each object, as it takes the role.
    pub(crate) fn set_noted(&mut self, c: usize, notes: &[(u32, u32)], swap: SwapAt)
        requires { c < length self.old.callers }
        ensures { self.new ≡ put_visitor self.old c (record (visitor_at self.old c)
            { noted = numbers_of notes.now (length (visitor_at self.old c).noted); swap = swap }) }
    {
        let caller = &mut self.callers[c];
        note_all(caller.noted.as_mut_slice(), notes);
        caller.swap = swap;
    }

    pub(crate) fn clear_freeing(&mut self, c: usize)
        requires { c < length self.old.callers }
        ensures { self.new ≡ put_visitor self.old c (record (visitor_at self.old c)
            { freeing = replicate (length (visitor_at self.old c).freeing) (0, 0) }) }
    {
        let caller = &mut self.callers[c];
        caller.freeing.as_mut_slice().fill((0, 0));
    }
}
