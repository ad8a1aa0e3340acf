//! What the lines of a script have said so far, and what one more line adds to it or offends by.
ghost use Rattle.std.specs.Prelude.{◌≡◌, ◌+◌, ◌<◌, ◌≤◌, [], ◌∷◌, ◌++◌, length, OnOk, IfSome, true, false, if◌then◌else◌, Ok, Some, None, Option, is_some, nat_le, slice_get};
ghost use Rattle.std.specs.Option.{option_and_then};
ghost use Rattle.script_text.specs.Tokens.{tokens_of};
ghost use Rattle.script_text.specs.Forms as forms;
ghost use Rattle.script_text.specs.Lawful.{call_lines, kinds_of};
ghost use Rattle.script_text.specs.Offences as offences;
ghost use Rattle.script_text.specs.Reading.{last_worker};

use crate::fault::ScriptCause;
use crate::form::{Form, Request};
use crate::forms::{begins_procs, form_of};
use crate::names::Names;
use crate::offences::{act_of, has_bad_name, has_bad_number, is_another_kind, is_swap, kind_asked};
use crate::script::{CallLine, Item, ObjectLine, Script, WorkerHead, WorkerLines};
use crate::tokens::is_skipped;
use k42_items::Items;
use k42_kinds::{KindName, Name};
use k42_limits::{CALL_LINES, CALLERS, OBJECTS};
use k42_memory::Memory;
use std::alloc::Global;
use std::mem;

/// What the lines so far said. There are no processors until a line names their number.
#[derive(Debug, Drop)]
pub struct Reading {
    pub procs: u32,
    pub objects: Items<ObjectLine>,
    pub object_names: Names,
    /// The workers before the last one.
    pub workers: Items<WorkerLines>,
    pub worker_names: Names,
    /// The last worker, and its items.
    pub worker: Option<WorkerHead>,
    pub items: Items<Item>,
    /// Whether the last worker has an activity open.
    pub in_block: bool,
    /// How many lines asked something of an object.
    pub asked: usize,
}

/// Puts the last worker, if there is one, with its items behind the others.
fn push_last(
    workers: &mut Items<WorkerLines>,
    worker: Option<WorkerHead>,
    items: Items<Item>,
) -> Result<(), Memory>
    ensures { OnOk result (workers.new ≡ workers.old ++ last_worker worker items) }
{
    if let Some(WorkerHead { name, proc }) = worker {
        workers.push(WorkerLines { name, proc, items })?;
    }
    Ok(())
}

impl Reading {
    ghost use Rattle.std.specs.Prelude.{ℕ, List, IsTrue, IfOk};
    ghost use Rattle.script_text.specs.Lines.{is_printable_text};
    ghost use Rattle.script_text.specs.Language.{no_script, with_object, with_worker, with_last_item, with_call, with_form, act_of};
    ghost use Rattle.script_text.specs.Reading.{IsKept, Shows, Takes, TakesSaid, script_so_far, place_asked, refusal_of_form};

    /// No line was read.
    pub fn new(alloc: Global) -> Reading
        ensures { Shows no_script result }
    {
        Reading {
            procs: 0,
            objects: Items::new(alloc),
            object_names: Names::new(alloc),
            workers: Items::new(alloc),
            worker_names: Names::new(alloc),
            worker: None,
            items: Items::new(alloc),
            in_block: false,
            asked: 0,
        }
    }

    /// The script that the lines are.
    pub fn into_script(self) -> Result<Script, Memory>
        ensures { IfOk result (λ script. script ≡ script_so_far self) }
    {
        let Reading {
            procs,
            objects,
            mut workers,
            worker,
            items,
            ..
        } = self;
        push_last(&mut workers, worker, items)?;
        Ok(Script {
            procs,
            objects,
            workers,
        })
    }

    fn knows_object(&self, name: &Option<Name>) -> bool
        ensures { result ≡ offences.is_among self.now.object_names name.now }
    {
        match name {
            Some(name) => self.object_names.contains(name),
            None => false,
        }
    }

    fn knows_worker(&self, name: &Option<Name>) -> bool
        ensures { result ≡ offences.is_among self.now.worker_names name.now }
    {
        match name {
            Some(name) => self.worker_names.contains(name),
            None => false,
        }
    }

    fn place_of(&self, name: &Option<Name>) -> Option<usize>
        ensures place { result ≡ offences.place_among self.now.object_names name.now }
        ensures within { IfSome result (λ place. place < length self.now.object_names) }
    {
        match name {
            Some(name) => self.object_names.place_of(name),
            None => None,
        }
    }

    /// Whether it is a second line of processors.
    fn is_unknown(&self, form: &Form) -> bool
        ensures { result ≡ offences.is_unknown (script_so_far self.now) (Some form.now) }
    {
        match form {
            Form::Procs(_) => self.procs != 0,
            _ => false,
        }
    }

    /// Whether it declares a name that is declared already.
    fn declares_again(&self, form: &Form) -> bool
        requires { IsKept self.now }
        ensures { result ≡ offences.declares_again (script_so_far self.now) form.now }
    {
        match form {
            Form::Object(name, _, _) => self.knows_object(name),
            Form::Worker(name, _) => self.knows_worker(name),
            _ => false,
        }
    }

    /// The place of the object that it asks, looked up once for all tests of the line.
    fn place_asked(&self, form: &Form) -> Option<usize>
        requires { IsKept self.now }
        ensures place { result ≡ place_asked (script_so_far self.now) form.now }
        ensures within { IfSome result (λ place. place < length self.now.object_names) }
    {
        match form {
            Form::Asks(object, _) => self.place_of(object),
            _ => None,
        }
    }

    /// Whether it asks an object that is not declared.
    fn asks_unknown_object(&self, form: &Form, place: Option<usize>) -> bool
        requires place { place ≡ place_asked (script_so_far self.now) form.now }
        ensures { result ≡ offences.asks_unknown_object (script_so_far self.now) form.now }
    {
        match form {
            Form::Asks(_, _) => place.is_none(),
            _ => false,
        }
    }

    /// The kind of the object of this place.
    fn kind_at(&self, place: Option<usize>) -> Option<KindName>
        ensures { result ≡ option_and_then (slice_get (kinds_of (script_so_far self.now))) place }
    {
        Some(self.objects.as_slice().get(place?)?.kind)
    }

    /// Whether it asks for an operation of another kind.
    fn asks_other_kind(&self, form: &Form, place: Option<usize>) -> bool
        requires place { place ≡ place_asked (script_so_far self.now) form.now }
        ensures { result ≡ offences.asks_other_kind (script_so_far self.now) form.now }
    {
        match form {
            Form::Asks(_, request) => is_another_kind(kind_asked(request), self.kind_at(place)),
            _ => false,
        }
    }

    /// Whether no worker is declared whose line it could be.
    fn wants_worker(&self, form: &Form) -> bool
        requires { IsKept self.now }
        ensures { result ≡ offences.wants_worker (script_so_far self.now) form.now }
    {
        match form {
            Form::Begin | Form::End | Form::Asks(_, _) => self.worker.is_none(),
            _ => false,
        }
    }

    /// Whether there may be no more of its kind.
    fn is_too_many(&self, form: &Form) -> bool
        requires { IsKept self.now }
        ensures { result ≡ offences.is_too_many (script_so_far self.now) form.now }
    {
        match form {
            Form::Object(_, _, _) => self.objects.len() >= OBJECTS,
            Form::Worker(_, _) => self.worker_names.len() >= CALLERS,
            Form::Asks(_, _) => self.asked >= CALL_LINES,
            _ => false,
        }
    }

    /// Whether it may not stand in an activity and does, or ends one that has not begun.
    fn breaks_block(&self, form: &Form) -> bool
        requires { IsKept self.now }
        ensures { result ≡ offences.breaks_block (script_so_far self.now) form.now }
    {
        match form {
            Form::Worker(_, _) | Form::Begin => self.in_block,
            Form::End => !self.in_block,
            Form::Asks(_, request) => self.in_block && is_swap(request),
            _ => false,
        }
    }

    /// Why a line of this form is refused, if it is.
    fn cause_of(&self, form: &Form, place: Option<usize>) -> Option<ScriptCause>
        requires kept { IsKept self.now }
        requires place { place ≡ place_asked (script_so_far self.now) form.now }
        ensures { result ≡ refusal_of_form (script_so_far self.now) form.now }
    {
        if self.is_unknown(form) {
            return Some(ScriptCause::UnknownWord);
        }
        if has_bad_number(form) {
            return Some(ScriptCause::BadNumber);
        }
        if has_bad_name(form) {
            return Some(ScriptCause::BadName);
        }
        if self.declares_again(form) {
            return Some(ScriptCause::NameTwice);
        }
        if self.asks_unknown_object(form, place) {
            return Some(ScriptCause::UnknownObject);
        }
        if self.asks_other_kind(form, place) {
            return Some(ScriptCause::WrongKind);
        }
        if self.wants_worker(form) {
            return Some(ScriptCause::WorkerExpected);
        }
        if self.is_too_many(form) {
            return Some(ScriptCause::TooMany);
        }
        if self.breaks_block(form) {
            return Some(ScriptCause::BlockFault);
        }
        None
    }

    fn add_object(&mut self, object: ObjectLine) -> Result<(), Memory>
        requires kept { IsKept self.old }
        requires new { offences.is_among self.old.object_names (Some object.name) ≡ false }
        requires few { length self.old.object_names < OBJECTS }
        ensures { OnOk result (Shows (with_object (script_so_far self.old) object) self.new) }
    {
        self.object_names.declare(&object.name)?;
        self.objects.push(object)
    }

    fn add_worker(&mut self, alloc: Global, worker: WorkerHead) -> Result<(), Memory>
        requires kept { IsKept self.old }
        requires new { offences.is_among self.old.worker_names (Some worker.name) ≡ false }
        requires closed { self.old.in_block ≡ false }
        ensures { OnOk result (Shows (with_worker (script_so_far self.old) worker) self.new) }
    {
        self.worker_names.declare(&worker.name)?;
        let items = mem::replace(&mut self.items, Items::new(alloc));
        push_last(&mut self.workers, self.worker, items)?;
        self.worker = Some(worker);
        Ok(())
    }

    /// Adds an item to the last worker.
    fn add_item(&mut self, item: &Item) -> Result<(), Memory>
        requires kept { IsKept self.old }
        requires worker { is_some self.old.worker ≡ true }
        requires few { self.old.asked + length (call_lines (item.now ∷ [])) ≤ CALL_LINES }
        ensures { OnOk result (Shows (with_last_item (script_so_far self.old) item.now) self.new) }
    {
        match item {
            Item::Begin => {
                self.in_block = true;
                self.items.push(Item::Begin)
            }
            Item::End => {
                self.in_block = false;
                self.items.push(Item::End)
            }
            Item::Line(line) => {
                self.asked += 1;
                self.items.push(Item::Line(*line))
            }
        }
    }

    fn add_request(
        &mut self,
        number: u32,
        place: Option<usize>,
        request: &Request,
    ) -> Result<(), Memory>
        requires kept { IsKept self.old }
        requires worker { is_some self.old.worker ≡ true }
        requires few { self.old.asked < CALL_LINES }
        requires within { IfSome place (λ place. place < length self.old.object_names) }
        ensures { OnOk result
            (Shows (with_call (script_so_far self.old) number place (act_of request.now)) self.new) }
    {
        let Some(place) = place else {
            return Ok(());
        };
        let Some(act) = act_of(request) else {
            return Ok(());
        };
        self.add_item(&Item::Line(CallLine {
            line: number,
            object: place as u32,
            act,
        }))
    }

    /// Adds a line that is not refused.
    fn add(
        &mut self,
        alloc: Global,
        number: u32,
        form: &Form,
        place: Option<usize>,
    ) -> Result<(), Memory>
        requires kept { IsKept self.old }
        requires taken { refusal_of_form (script_so_far self.old) form.now ≡ None }
        requires place { place ≡ place_asked (script_so_far self.old) form.now }
        requires within { IfSome place (λ place. place < length self.old.object_names) }
        ensures { OnOk result
            (Shows (with_form (script_so_far self.old) number form.now) self.new) }
    {
        match form {
            Form::Procs(Some(procs)) => {
                self.procs = *procs;
                Ok(())
            }
            Form::Object(Some(name), kind, layout) => self.add_object(ObjectLine {
                name: *name,
                kind: *kind,
                layout: *layout,
            }),
            Form::Worker(Some(name), Some(proc)) => self.add_worker(
                alloc,
                WorkerHead {
                    name: *name,
                    proc: *proc,
                },
            ),
            Form::Begin => self.add_item(&Item::Begin),
            Form::End => self.add_item(&Item::End),
            Form::Asks(_, request) => self.add_request(number, place, request),
            _ => Ok(()),
        }
    }

    /// Reads a line, or answers why it is refused.
    pub fn take(
        &mut self,
        alloc: Global,
        number: u32,
        text: &[u8],
        is_printable: bool,
    ) -> Result<Option<ScriptCause>, Memory>
        requires kept { IsKept self.old }
        requires printable { is_printable ≡ is_printable_text text.now }
        ensures { Takes (script_so_far self.old) number text.now result self.new }
    {
        if !is_printable {
            return Ok(Some(ScriptCause::BadByte));
        }
        if is_skipped(text) {
            return Ok(None);
        }
        self.take_said(alloc, number, text)
    }

    /// Reads a line that says something, or answers why it is refused.
    fn take_said(
        &mut self,
        alloc: Global,
        number: u32,
        text: &[u8],
    ) -> Result<Option<ScriptCause>, Memory>
        requires { IsKept self.old }
        ensures { TakesSaid (script_so_far self.old) number (tokens_of text.now) result self.new }
    {
        if self.procs == 0 && !begins_procs(text) {
            return Ok(Some(ScriptCause::ProcsExpected));
        }
        let Some(form) = form_of(self.procs, text) else {
            return Ok(Some(ScriptCause::UnknownWord));
        };
        let place = self.place_asked(&form);
        if let Some(cause) = self.cause_of(&form, place) {
            return Ok(Some(cause));
        }
        self.add(alloc, number, &form, place)?;
        Ok(None)
    }
}
