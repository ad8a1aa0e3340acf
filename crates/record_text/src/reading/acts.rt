//! What a line asks of an object.
ghost use Rattle.std.specs.Prelude.{◌≡◌, ◌<◌, ◌≤◌, length, IfSome, slice_get};
ghost use Rattle.k42_limits.specs.declared.TheConstants.{CALLERS, OBJECTS};
ghost use Rattle.script_text.specs.Lawful.{kinds_of};
ghost use Rattle.record_text.specs.Reader.ActParts as parts;
ghost use Rattle.record_text.specs.Reader.Parts.{spelled_at, number_at, name_at, most_32};
ghost use Rattle.record_text.specs.Reader.Cursor.{Takes, left_tokens};

use crate::reading::cursor::{Left, take_token};
use crate::reading::parts::{
    is_word, take_name, take_number, take_page, take_small_number, take_text,
};
use k42_kinds::{Act, KindName, Op, To};
use script_text::Script;

/// An act, and the place of its object in the script.
#[derive(Clone, Copy)]
pub struct Asked {
    pub object: u32,
    pub act: Act<Op>,
}

fn place_of_worker(script: &Script, name: &[u8]) -> Option<usize>
    ensures { result ≡ parts.worker_of script.now name.now }
{
    script
        .workers
        .as_slice()
        .iter()
        .position(|worker| name == worker.name.bytes())
}

/// The place, in the script, of the worker of this name.
fn worker_of(script: &Script, name: &[u8]) -> Option<u32>
    requires { length script.now.workers ≤ CALLERS }
    ensures { result ≡ parts.worker_of script.now name.now }
{
    let place = place_of_worker(script, name)?;
    Some(place as u32)
}

/// Takes the name of a worker.
#[tactic(auto, unfolding(crate::specs::Reader::Parts::spelled_at))]
pub fn take_worker(left: &mut Left<'_>, script: &Script) -> Option<u32>
    requires { length script.now.workers ≤ CALLERS }
    ensures { Takes result left.new
        (spelled_at (parts.worker_of script.now) (left_tokens left.old)) }
{
    let token = take_token(left)?;
    worker_of(script, token)
}

fn place_of_object(script: &Script, name: &[u8]) -> Option<usize>
    ensures { result ≡ parts.object_of script.now name.now }
{
    script
        .objects
        .as_slice()
        .iter()
        .position(|object| name == object.name.bytes())
}

/// The place, in the script, of the object of this name.
fn object_of(script: &Script, name: &[u8]) -> Option<u32>
    requires { length script.now.objects ≤ OBJECTS }
    ensures { result ≡ parts.object_of script.now name.now }
{
    let place = place_of_object(script, name)?;
    Some(place as u32)
}

/// Takes the name of an object.
#[tactic(auto, unfolding(crate::specs::Reader::Parts::spelled_at))]
fn take_object(left: &mut Left<'_>, script: &Script) -> Option<u32>
    requires { length script.now.objects ≤ OBJECTS }
    ensures { Takes result left.new
        (spelled_at (parts.object_of script.now) (left_tokens left.old)) }
{
    let token = take_token(left)?;
    object_of(script, token)
}

fn kind_of_object(script: &Script, object: u32) -> Option<KindName>
    ensures { result ≡ slice_get (kinds_of script.now) object }
{
    let objects = script.objects.as_slice();
    if (object as usize) < objects.len() {
        Some(objects[object as usize].kind)
    } else {
        None
    }
}

fn layout_of(word: &[u8]) -> Option<To>
    ensures { result ≡ parts.layout_of word.now }
{
    if is_word(word, "shared") {
        return Some(To::Layout(0));
    }
    if is_word(word, "spread") {
        return Some(To::Layout(1));
    }
    None
}

/// Takes the word of a layout.
#[tactic(auto, unfolding(crate::specs::Reader::Parts::spelled_at))]
fn take_layout(left: &mut Left<'_>) -> Option<To>
    ensures { Takes result left.new (parts.layout_at (left_tokens left.old)) }
{
    let token = take_token(left)?;
    layout_of(token)
}

#[tactic(auto, unfolding(crate::specs::Reader::ActParts::given))]
fn take_addition(left: &mut Left<'_>) -> Option<Op>
    ensures { Takes result left.new (parts.given Op.Add
        (number_at 0 most_32 (left_tokens left.old))) }
{
    let amount = take_small_number(left, 0)?;
    Some(Op::Add(amount))
}

#[tactic(auto, unfolding(crate::specs::Reader::ActParts::given))]
fn take_counter_operation(left: &mut Left<'_>, word: &[u8]) -> Option<Op>
    ensures { Takes result left.new
        (parts.counter_operation word.now (left_tokens left.old)) }
{
    if is_word(word, "add") {
        return take_addition(left);
    }
    if is_word(word, "get") {
        return Some(Op::Get);
    }
    if is_word(word, "drain") {
        return Some(Op::Drain);
    }
    None
}

#[tactic(auto, unfolding(crate::specs::Reader::ActParts::binding_at))]
fn take_binding(left: &mut Left<'_>) -> Option<Op>
    ensures { Takes result left.new (parts.binding_at (left_tokens left.old)) }
{
    let key = take_name(left)?;
    let number = take_number(left, 0, u64::MAX)?;
    Some(Op::Bind(key, number))
}

#[tactic(auto, unfolding(crate::specs::Reader::ActParts::given))]
fn take_finding(left: &mut Left<'_>) -> Option<Op>
    ensures { Takes result left.new (parts.given Op.Find (name_at (left_tokens left.old))) }
{
    let key = take_name(left)?;
    Some(Op::Find(key))
}

#[tactic(auto, unfolding(crate::specs::Reader::ActParts::given))]
fn take_unbinding(left: &mut Left<'_>) -> Option<Op>
    ensures { Takes result left.new (parts.given Op.Unbind (name_at (left_tokens left.old))) }
{
    let key = take_name(left)?;
    Some(Op::Unbind(key))
}

fn take_directory_operation(left: &mut Left<'_>, word: &[u8]) -> Option<Op>
    ensures { Takes result left.new
        (parts.directory_operation word.now (left_tokens left.old)) }
{
    if is_word(word, "bind") {
        return take_binding(left);
    }
    if is_word(word, "find") {
        return take_finding(left);
    }
    if is_word(word, "unbind") {
        return take_unbinding(left);
    }
    if is_word(word, "size") {
        return Some(Op::Size);
    }
    None
}

#[tactic(auto, unfolding(crate::specs::Reader::ActParts::writing_at))]
fn take_writing(left: &mut Left<'_>) -> Option<Op>
    ensures { Takes result left.new (parts.writing_at (left_tokens left.old)) }
{
    let page = take_page(left)?;
    let text = take_text(left)?;
    Some(Op::Write(page, text))
}

#[tactic(auto, unfolding(crate::specs::Reader::ActParts::given))]
fn take_page_reading(left: &mut Left<'_>) -> Option<Op>
    ensures { Takes result left.new (parts.given Op.Read (parts.page_at (left_tokens left.old))) }
{
    let page = take_page(left)?;
    Some(Op::Read(page))
}

fn take_pages_operation(left: &mut Left<'_>, word: &[u8]) -> Option<Op>
    ensures { Takes result left.new (parts.pages_operation word.now (left_tokens left.old)) }
{
    if is_word(word, "write") {
        return take_writing(left);
    }
    if is_word(word, "read") {
        return take_page_reading(left);
    }
    if is_word(word, "dirty") {
        return Some(Op::Dirty);
    }
    if is_word(word, "clean") {
        return Some(Op::Clean);
    }
    None
}

/// Takes what is left of the operation that begins with this word and belongs to this kind.
fn take_own_operation(left: &mut Left<'_>, word: &[u8], kind: KindName) -> Option<Op>
    ensures { Takes result left.new (parts.own_operation kind word.now (left_tokens left.old)) }
{
    match kind {
        KindName::Counter => take_counter_operation(left, word),
        KindName::Directory => take_directory_operation(left, word),
        KindName::Pages => take_pages_operation(left, word),
    }
}

/// Takes an operation on an object of this kind.
#[tactic(auto, unfolding(crate::specs::Reader::ActParts::operation_at))]
fn take_operation(left: &mut Left<'_>, kind: KindName) -> Option<Op>
    ensures { Takes result left.new (parts.operation_at kind (left_tokens left.old)) }
{
    let word = take_token(left)?;
    if is_word(word, "seen") {
        return Some(Op::Seen);
    }
    take_own_operation(left, word, kind)
}

#[tactic(auto, unfolding(crate::specs::Reader::ActParts::swap_at))]
fn take_swap(left: &mut Left<'_>, script: &Script) -> Option<Asked>
    requires { length script.now.objects ≤ OBJECTS }
    ensures { Takes result left.new (parts.swap_at script.now parts.layout_at (left_tokens left.old)) }
{
    let object = take_object(left, script)?;
    let to = take_layout(left)?;
    Some(Asked {
        object,
        act: Act::Swap(to),
    })
}

/// Takes the object of a destroy, a watch or an unwatch.
#[tactic(auto, unfolding(crate::specs::Reader::ActParts::swap_at))]
fn take_swap_to(left: &mut Left<'_>, script: &Script, to: To) -> Option<Asked>
    requires { length script.now.objects ≤ OBJECTS }
    ensures { Takes result left.new
        (parts.swap_at script.now (parts.said_before to) (left_tokens left.old)) }
{
    let object = take_object(left, script)?;
    Some(Asked {
        object,
        act: Act::Swap(to),
    })
}

#[tactic(auto, unfolding(crate::specs::Reader::ActParts::call_at))]
fn take_call(left: &mut Left<'_>, script: &Script, name: &[u8]) -> Option<Asked>
    requires { length script.now.objects ≤ OBJECTS }
    ensures { Takes result left.new (parts.call_at script.now name.now (left_tokens left.old)) }
{
    let object = object_of(script, name)?;
    let kind = kind_of_object(script, object)?;
    let op = take_operation(left, kind)?;
    Some(Asked {
        object,
        act: Act::Call(op),
    })
}

/// Takes a swap or a call.
#[tactic(auto, unfolding(crate::specs::Reader::ActParts::act_at))]
pub fn take_act(left: &mut Left<'_>, script: &Script) -> Option<Asked>
    requires { length script.now.objects ≤ OBJECTS }
    ensures { Takes result left.new (parts.act_at script.now (left_tokens left.old)) }
{
    let word = take_token(left)?;
    if is_word(word, "swap") {
        return take_swap(left, script);
    }
    if is_word(word, "destroy") {
        return take_swap_to(left, script, To::Dead);
    }
    if is_word(word, "watch") {
        return take_swap_to(left, script, To::Watch);
    }
    if is_word(word, "unwatch") {
        return take_swap_to(left, script, To::Unwatch);
    }
    take_call(left, script, word)
}
