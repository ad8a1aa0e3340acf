//! From the tokens of a line to the form that it has.
ghost use Rattle.std.specs.Prelude.{◌≡◌, ◌<◌, ◌^◌, [], ◌∷◌};
ghost use Rattle.script_text.specs.Numbers.{number_within, number_below};
ghost use Rattle.script_text.specs.Tokens.{tokens_of};
ghost use Rattle.script_text.specs.Forms as spelling;

use crate::form::{Form, Head, Request};
use crate::numbers::number_up_to;
use crate::tokens::{Words, first_token, is_word, words_of};
use k42_kinds::{KindName, LayoutName, Name, Text, To};
use k42_limits::{AMOUNTS, PAGES, PROCESSORS};

/// Whether the word is no name of an object or a worker.
fn is_reserved(word: &[u8]) -> bool
    ensures { result ≡ spelling.is_reserved word.now }
{
    is_word(word, "procs")
        || is_word(word, "object")
        || is_word(word, "worker")
        || is_word(word, "begin")
        || is_word(word, "end")
        || is_word(word, "swap")
        || is_word(word, "destroy")
        || is_word(word, "watch")
        || is_word(word, "unwatch")
}

fn name_of(word: &[u8]) -> Option<Name>
    ensures { result ≡ spelling.name_of word.now }
{
    Name::of(word)
}

/// The name that the word declares, if it may.
fn free_name(word: &[u8]) -> Option<Name>
    ensures { result ≡ spelling.free_name word.now }
{
    if is_reserved(word) {
        return None;
    }
    Name::of(word)
}

fn page_text_of(word: &[u8]) -> Option<Text>
    ensures { result ≡ spelling.page_text_of word.now }
{
    Text::of(word)
}

fn page_of(word: &[u8]) -> Option<u16>
    ensures { result ≡ spelling.page_of word.now }
{
    let page = number_up_to(word, u64::from(PAGES - 1))?;
    Some(page as u16)
}

fn amount_of(word: &[u8]) -> Option<u32>
    ensures { result ≡ number_below AMOUNTS word.now }
{
    let amount = number_up_to(word, AMOUNTS - 1)?;
    Some(amount as u32)
}

fn value_of(word: &[u8]) -> Option<u64>
    ensures { result ≡ number_below (2 ^ 64) word.now }
{
    number_up_to(word, u64::MAX)
}

/// A number from 1 to 8.
fn procs_of(word: &[u8]) -> Option<u32>
    ensures { result ≡ number_within 1 PROCESSORS word.now }
{
    match number_up_to(word, u64::from(PROCESSORS)) {
        Some(procs) if procs >= 1 => Some(procs as u32),
        _ => None,
    }
}

/// A processor, of which there are so many.
fn proc_of(procs: u32, word: &[u8]) -> Option<u32>
    ensures { result ≡ number_below procs word.now }
{
    let most = procs.checked_sub(1)?;
    let proc = number_up_to(word, u64::from(most))?;
    Some(proc as u32)
}

fn kind_named(word: &[u8]) -> Option<KindName>
    ensures { result ≡ spelling.kind_named word.now }
{
    if is_word(word, "counter") {
        return Some(KindName::Counter);
    }
    if is_word(word, "directory") {
        return Some(KindName::Directory);
    }
    if is_word(word, "pages") {
        return Some(KindName::Pages);
    }
    None
}

fn layout_named(word: &[u8]) -> Option<LayoutName>
    ensures { result ≡ spelling.layout_named word.now }
{
    if is_word(word, "shared") {
        return Some(LayoutName::Shared);
    }
    if is_word(word, "spread") {
        return Some(LayoutName::Spread);
    }
    None
}

/// What the first word of a line begins.
fn head_of(word: &[u8]) -> Head
    ensures { result ≡ spelling.head_of word.now }
{
    if is_word(word, "procs") {
        return Head::Procs;
    }
    if is_word(word, "object") {
        return Head::Object;
    }
    if is_word(word, "worker") {
        return Head::Worker;
    }
    if is_word(word, "begin") {
        return Head::Begin;
    }
    if is_word(word, "end") {
        return Head::End;
    }
    if is_word(word, "swap") {
        return Head::Swap;
    }
    if is_word(word, "destroy") {
        return Head::Destroy;
    }
    if is_word(word, "watch") {
        return Head::Watch;
    }
    if is_word(word, "unwatch") {
        return Head::Unwatch;
    }
    Head::Call
}

fn procs_form(text: &[u8]) -> Option<Form>
    ensures { result ≡ spelling.procs_form (tokens_of text.now) }
{
    match words_of(text) {
        Words::One(number) => Some(Form::Procs(procs_of(number))),
        _ => None,
    }
}

/// The object that is declared, where its kind and its layout are known.
fn object_declared(name: &[u8], kind: &[u8], layout: &[u8]) -> Option<Form>
    ensures { result ≡ spelling.object_declared name.now
        (spelling.kind_named kind.now) (spelling.layout_named layout.now) }
{
    let kind = kind_named(kind)?;
    let layout = layout_named(layout)?;
    Some(Form::Object(free_name(name), kind, layout))
}

fn object_form(text: &[u8]) -> Option<Form>
    ensures { result ≡ spelling.object_form (tokens_of text.now) }
{
    match words_of(text) {
        Words::Three(name, kind, layout) => object_declared(name, kind, layout),
        _ => None,
    }
}

fn worker_form(procs: u32, text: &[u8]) -> Option<Form>
    ensures { result ≡ spelling.worker_form procs (tokens_of text.now) }
{
    match words_of(text) {
        Words::Two(name, proc) => Some(Form::Worker(free_name(name), proc_of(procs, proc))),
        _ => None,
    }
}

fn begin_form(text: &[u8]) -> Option<Form>
    ensures { result ≡ spelling.alone Form.Begin (tokens_of text.now) }
{
    match words_of(text) {
        Words::None => Some(Form::Begin),
        _ => None,
    }
}

fn end_form(text: &[u8]) -> Option<Form>
    ensures { result ≡ spelling.alone Form.End (tokens_of text.now) }
{
    match words_of(text) {
        Words::None => Some(Form::End),
        _ => None,
    }
}

/// A swap of the object of this name.
fn swap_asked(object: &[u8], layout: &[u8]) -> Option<Form>
    ensures { result ≡ spelling.swap_form (object.now ∷ layout.now ∷ []) }
{
    let layout = layout_named(layout)?;
    Some(Form::Asks(name_of(object), Request::Swap(To::Layout(layout.number()))))
}

fn swap_form(text: &[u8]) -> Option<Form>
    ensures { result ≡ spelling.swap_form (tokens_of text.now) }
{
    match words_of(text) {
        Words::Two(object, layout) => swap_asked(object, layout),
        _ => None,
    }
}

/// The object of this name is to be kept so.
fn swap_to_form(to: To, text: &[u8]) -> Option<Form>
    ensures { result ≡ spelling.swap_to_form to (tokens_of text.now) }
{
    match words_of(text) {
        Words::One(object) => Some(Form::Asks(name_of(object), Request::Swap(to))),
        _ => None,
    }
}

/// An operation without an argument.
fn plain_request(word: &[u8]) -> Option<Request>
    ensures { result ≡ spelling.plain_request word.now }
{
    if is_word(word, "get") {
        return Some(Request::Get);
    }
    if is_word(word, "drain") {
        return Some(Request::Drain);
    }
    if is_word(word, "size") {
        return Some(Request::Size);
    }
    if is_word(word, "dirty") {
        return Some(Request::Dirty);
    }
    if is_word(word, "clean") {
        return Some(Request::Clean);
    }
    if is_word(word, "seen") {
        return Some(Request::Seen);
    }
    None
}

fn request_with(word: &[u8], argument: &[u8]) -> Option<Request>
    ensures { result ≡ spelling.request_with word.now argument.now }
{
    if is_word(word, "add") {
        return Some(Request::Add(amount_of(argument)));
    }
    if is_word(word, "find") {
        return Some(Request::Find(name_of(argument)));
    }
    if is_word(word, "unbind") {
        return Some(Request::Unbind(name_of(argument)));
    }
    if is_word(word, "read") {
        return Some(Request::Read(page_of(argument)));
    }
    None
}

fn request_with_both(word: &[u8], first: &[u8], second: &[u8]) -> Option<Request>
    ensures { result ≡ spelling.request_with_both word.now first.now second.now }
{
    if is_word(word, "bind") {
        return Some(Request::Bind(name_of(first), value_of(second)));
    }
    if is_word(word, "write") {
        return Some(Request::Write(page_of(first), page_text_of(second)));
    }
    None
}

fn request_of(text: &[u8]) -> Option<Request>
    ensures { result ≡ spelling.request_of (tokens_of text.now) }
{
    match words_of(text) {
        Words::One(word) => plain_request(word),
        Words::Two(word, argument) => request_with(word, argument),
        Words::Three(word, first, second) => request_with_both(word, first, second),
        _ => None,
    }
}

fn call_form(object: &[u8], text: &[u8]) -> Option<Form>
    ensures { result ≡ spelling.call_form object.now (tokens_of text.now) }
{
    let request = request_of(text)?;
    Some(Form::Asks(name_of(object), request))
}

/// The form of a line that begins so, by what stands behind its first word.
fn form_behind(procs: u32, head: Head, word: &[u8], text: &[u8]) -> Option<Form>
    ensures { result ≡ spelling.form_behind procs head word.now (tokens_of text.now) }
{
    match head {
        Head::Procs => procs_form(text),
        Head::Object => object_form(text),
        Head::Worker => worker_form(procs, text),
        Head::Begin => begin_form(text),
        Head::End => end_form(text),
        Head::Swap => swap_form(text),
        Head::Destroy => swap_to_form(To::Dead, text),
        Head::Watch => swap_to_form(To::Watch, text),
        Head::Unwatch => swap_to_form(To::Unwatch, text),
        Head::Call => call_form(word, text),
    }
}

/// What a line says, where there are so many processors, if it has a form of the language.
pub fn form_of(procs: u32, text: &[u8]) -> Option<Form>
    ensures { result ≡ spelling.form_of procs (tokens_of text.now) }
{
    let (word, rest) = first_token(text);
    if word.is_empty() {
        return None;
    }
    form_behind(procs, head_of(word), word, rest)
}

/// Whether the line begins as one of processors.
pub fn begins_procs(text: &[u8]) -> bool
    ensures { result ≡ spelling.begins_procs (tokens_of text.now) }
{
    is_word(first_token(text).0, "procs")
}
