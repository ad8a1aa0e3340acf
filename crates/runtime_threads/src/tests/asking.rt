//! What the callers ask, each about its own: what others do changes none of these replies.
use k42_kinds::{KindName, Name, Op, Reply, Text};

/// One of the caller's ten names.
fn name_of(caller: u32, number: u32) -> Option<Name> {
    Name::of(&[
        b'n',
        b'0' + (caller % 10) as u8,
        b'0' + (number / 4 % 10) as u8,
    ])
}

fn of_directory(caller: u32, number: u32) -> Option<(Op, Reply)> {
    let name = name_of(caller, number)?;
    let value = u64::from(number);
    let asked = match number % 4 {
        0 => (Op::Bind(name, value), Reply::Done),
        1 => (Op::Find(name), Reply::Number(value - 1)),
        2 => (Op::Unbind(name), Reply::Number(value - 2)),
        _ => (Op::Find(name), Reply::None),
    };
    Some(asked)
}

/// One of the caller's hundred pages.
fn page_of(caller: u32, number: u32) -> u16 {
    (caller % 10 * 100 + number / 2 % 100) as u16
}

fn of_pages(caller: u32, number: u32) -> Option<(Op, Reply)> {
    let page = page_of(caller, number);
    let text = Text::of(&[b'a' + (number / 2 % 26) as u8])?;
    let asked = if number % 2 == 0 {
        (Op::Write(page, text), Reply::Done)
    } else {
        (Op::Read(page), Reply::Text(*&text))
    };
    Some(asked)
}

/// What the caller asks in its call of this number, and what it is to be answered.
pub(super) fn asked_by(kind: KindName, caller: u32, number: u32) -> Option<(Op, Reply)> {
    match kind {
        KindName::Counter => Some((Op::Add(caller % 10 + 1), Reply::Done)),
        KindName::Directory => of_directory(caller, number),
        KindName::Pages => of_pages(caller, number),
    }
}
