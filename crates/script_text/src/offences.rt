//! What can be told of a form without the lines before it: bad numbers and names, its kind, and its act.
ghost use Rattle.std.specs.Prelude.{◌≡◌, ◌==◌, is_none, not};
ghost use Rattle.k42_kinds.specs.Operations.{same_kind};
ghost use Rattle.script_text.specs.Offences as offences;
ghost use Rattle.script_text.specs.Language.{act_of};

use crate::form::{Form, Request};
use k42_kinds::{Act, KindName, Op};

fn lacks_number(request: &Request) -> bool
    ensures { result ≡ offences.lacks_number request.now }
{
    match request {
        Request::Add(amount) => amount.is_none(),
        Request::Bind(_, number) => number.is_none(),
        Request::Write(page, _) | Request::Read(page) => page.is_none(),
        _ => false,
    }
}

fn lacks_word(request: &Request) -> bool
    ensures { result ≡ offences.lacks_word request.now }
{
    match request {
        Request::Bind(key, _) | Request::Find(key) | Request::Unbind(key) => key.is_none(),
        Request::Write(_, text) => text.is_none(),
        _ => false,
    }
}

/// The kind of object that takes the request; `None` for what an object of any kind takes.
pub fn kind_asked(request: &Request) -> Option<KindName>
    ensures { result ≡ offences.kind_asked request.now }
{
    match request {
        Request::Swap(_) | Request::Seen => None,
        Request::Add(_) | Request::Get | Request::Drain => Some(KindName::Counter),
        Request::Bind(_, _) | Request::Find(_) | Request::Unbind(_) | Request::Size => {
            Some(KindName::Directory)
        }
        Request::Write(_, _) | Request::Read(_) | Request::Dirty | Request::Clean => {
            Some(KindName::Pages)
        }
    }
}

/// Whether it is a swap, which may not stand in an activity.
pub fn is_swap(request: &Request) -> bool
    ensures { result ≡ offences.is_swap request.now }
{
    matches!(request, Request::Swap(_))
}

fn same_kind(one: KindName, other: KindName) -> bool
    ensures { result ≡ same_kind one other }
{
    match (one, other) {
        (KindName::Counter, KindName::Counter) => true,
        (KindName::Directory, KindName::Directory) => true,
        (KindName::Pages, KindName::Pages) => true,
        _ => false,
    }
}

/// Whether the kind that is asked is not the object's.
pub fn is_another_kind(asked: Option<KindName>, kind: Option<KindName>) -> bool
    ensures { result ≡ offences.is_another_kind asked kind }
{
    match (asked, kind) {
        (Some(asked), Some(kind)) => !same_kind(asked, kind),
        _ => false,
    }
}

/// Whether one of its numbers is none, or not in its range.
pub fn has_bad_number(form: &Form) -> bool
    ensures { result ≡ offences.has_bad_number form.now }
{
    match form {
        Form::Procs(number) => number.is_none(),
        Form::Worker(_, proc) => proc.is_none(),
        Form::Asks(_, request) => lacks_number(request),
        _ => false,
    }
}

/// Whether a declared name, a key or a text of it is none.
pub fn has_bad_name(form: &Form) -> bool
    ensures { result ≡ offences.has_bad_name form.now }
{
    match form {
        Form::Object(name, _, _) | Form::Worker(name, _) => name.is_none(),
        Form::Asks(_, request) => lacks_word(request),
        _ => false,
    }
}

/// The act that a request spells, where no part of it is missing.
pub fn act_of(request: &Request) -> Option<Act<Op>>
    ensures { result ≡ act_of request.now }
{
    match request {
        Request::Swap(to) => Some(Act::Swap(*to)),
        Request::Add(Some(amount)) => Some(Act::Call(Op::Add(*amount))),
        Request::Get => Some(Act::Call(Op::Get)),
        Request::Drain => Some(Act::Call(Op::Drain)),
        Request::Bind(Some(key), Some(number)) => Some(Act::Call(Op::Bind(*key, *number))),
        Request::Find(Some(key)) => Some(Act::Call(Op::Find(*key))),
        Request::Unbind(Some(key)) => Some(Act::Call(Op::Unbind(*key))),
        Request::Size => Some(Act::Call(Op::Size)),
        Request::Write(Some(page), Some(text)) => Some(Act::Call(Op::Write(*page, *text))),
        Request::Read(Some(page)) => Some(Act::Call(Op::Read(*page))),
        Request::Dirty => Some(Act::Call(Op::Dirty)),
        Request::Clean => Some(Act::Call(Op::Clean)),
        Request::Seen => Some(Act::Call(Op::Seen)),
        _ => None,
    }
}
