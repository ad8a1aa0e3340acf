//! What was asked, as words.
ghost use Rattle.std.specs.Prelude.{◌≡◌, ◌++◌, OnOk};
ghost use Rattle.record_text.specs.Tokens.{behind_spaces};
ghost use Rattle.record_text.specs.Acts as spelling;

use crate::printing::tokens::{put_number, put_token};
use k42_kinds::{Act, Op, To};
use k42_memory::Memory;

/// The word of the layout of this number.
fn layout_word(number: u8) -> &'static [u8]
    ensures { result.now ≡ spelling.numbered_layout_word number }
{
    if number == 0 { b"shared" } else { b"spread" }
}

fn operation_word(op: &Op) -> &'static [u8]
    ensures { result.now ≡ spelling.operation_word op.now }
{
    match op {
        Op::Add(_) => b"add",
        Op::Get => b"get",
        Op::Drain => b"drain",
        Op::Bind(_, _) => b"bind",
        Op::Find(_) => b"find",
        Op::Unbind(_) => b"unbind",
        Op::Size => b"size",
        Op::Write(_, _) => b"write",
        Op::Read(_) => b"read",
        Op::Dirty => b"dirty",
        Op::Clean => b"clean",
        Op::Seen => b"seen",
    }
}

/// Adds what an operation is given.
fn put_arguments(out: &mut Vec<u8>, op: &Op) -> Result<(), Memory>
    ensures { OnOk result (
        out.new.items ≡ out.old.items ++ behind_spaces (spelling.argument_tokens op.now)) }
{
    match op {
        Op::Add(amount) => put_number(out, u64::from(*amount)),
        Op::Bind(key, number) => {
            put_token(out, key.bytes())?;
            put_number(out, *number)
        }
        Op::Find(key) | Op::Unbind(key) => put_token(out, key.bytes()),
        Op::Write(page, text) => {
            put_number(out, u64::from(*page))?;
            put_token(out, text.bytes())
        }
        Op::Read(page) => put_number(out, u64::from(*page)),
        Op::Get | Op::Drain | Op::Size | Op::Dirty | Op::Clean | Op::Seen => Ok(()),
    }
}

/// Adds an act on the object of this name.
pub fn put_act(out: &mut Vec<u8>, object: &[u8], act: &Act<Op>) -> Result<(), Memory>
    ensures { OnOk result (
        out.new.items ≡ out.old.items ++ behind_spaces (spelling.act_tokens object.now act.now)) }
{
    match act {
        Act::Call(op) => {
            put_token(out, object)?;
            put_token(out, operation_word(op))?;
            put_arguments(out, op)
        }
        Act::Swap(To::Layout(number)) => {
            put_token(out, b"swap")?;
            put_token(out, object)?;
            put_token(out, layout_word(*number))
        }
        Act::Swap(To::Dead) => {
            put_token(out, b"destroy")?;
            put_token(out, object)
        }
        Act::Swap(To::Watch) => {
            put_token(out, b"watch")?;
            put_token(out, object)
        }
        Act::Swap(To::Unwatch) => {
            put_token(out, b"unwatch")?;
            put_token(out, object)
        }
    }
}
