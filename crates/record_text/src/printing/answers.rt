//! What was answered, as words.
ghost use Rattle.std.specs.Prelude.{◌≡◌, [], ◌∷◌, ◌++◌, OnOk};
ghost use Rattle.std.specs.Fmt.{decimal};
ghost use Rattle.record_text.specs.Tokens.{behind_spaces};
ghost use Rattle.record_text.specs.Answers.{reply_tokens, answer_tokens};
ghost use Rattle.record_text.specs.Spelling.{Ends};

use crate::printing::tokens::{put_number, put_token};
use k42_kinds::{Act, Answer, Op, Reply};
use k42_memory::Memory;

/// Adds what an object replied.
fn put_reply(out: &mut Vec<u8>, reply: &Reply) -> Result<(), Memory>
    ensures { OnOk result (
        out.new.items ≡ out.old.items ++ behind_spaces (reply_tokens reply.now)) }
{
    match reply {
        Reply::Done => put_token(out, b"ok"),
        Reply::Taken => put_token(out, b"taken"),
        Reply::None => put_token(out, b"none"),
        Reply::Number(number) => put_number(out, *number),
        Reply::Text(text) => {
            put_token(out, b"text")?;
            put_token(out, text.bytes())
        }
        Reply::Zero => put_token(out, b"zero"),
        Reply::Gone => put_token(out, b"gone"),
    }
}

/// Adds a word and a number.
fn put_counted(out: &mut Vec<u8>, word: &[u8], number: u32) -> Result<(), Memory>
    ensures { OnOk result (
        out.new.items ≡ out.old.items ++ behind_spaces (word.now ∷ decimal number ∷ [])) }
{
    put_token(out, word)?;
    put_number(out, u64::from(number))
}

/// Adds the answer of an act.
pub fn put_answer(out: &mut Vec<u8>, act: &Act<Op>, answer: &Answer<Reply>) -> Result<(), Memory>
    requires { Ends act.now answer.now }
    ensures { OnOk result (
        out.new.items ≡ out.old.items ++ behind_spaces (answer_tokens answer.now)) }
{
    match answer {
        Answer::Replied(reply) => put_reply(out, reply),
        Answer::Swapped(number) => put_counted(out, b"done", *number),
        Answer::Busy(number) => put_counted(out, b"busy", *number),
        Answer::Spent => put_token(out, b"spent"),
        Answer::Gone => put_token(out, b"gone"),
        Answer::Abandoned(_) => unreachable!(),
    }
}
