//! How a line says that an act was answered.
ghost use Rattle.std.specs.Prelude.{◌≡◌};
ghost use Rattle.record_text.specs.Reader.AnswerParts as parts;
ghost use Rattle.record_text.specs.Reader.Cursor.{Takes, left_tokens};

use crate::reading::cursor::{Left, take_token};
use crate::reading::parts::{is_word, number_of, take_small_number, take_text};
use k42_kinds::{Act, Answer, Op, Reply};

#[tactic(auto, unfolding(crate::specs::Reader::AnswerParts::text_reply))]
fn take_text_reply(left: &mut Left<'_>) -> Option<Reply>
    ensures { Takes result left.new (parts.text_reply (left_tokens left.old)) }
{
    let text = take_text(left)?;
    Some(Reply::Text(text))
}

#[tactic(auto, unfolding(crate::specs::Reader::AnswerParts::number_reply))]
fn number_reply(left: &Left<'_>, word: &[u8]) -> Option<Reply>
    ensures { Takes result left.now (parts.number_reply word.now (left_tokens left.now)) }
{
    let number = number_of(word, 0, u64::MAX)?;
    Some(Reply::Number(number))
}

/// Takes what is left of the reply that begins with this word.
fn take_reply(left: &mut Left<'_>, word: &[u8]) -> Option<Reply>
    ensures { Takes result left.new (parts.reply_of word.now (left_tokens left.old)) }
{
    if is_word(word, "ok") {
        return Some(Reply::Done);
    }
    if is_word(word, "taken") {
        return Some(Reply::Taken);
    }
    if is_word(word, "none") {
        return Some(Reply::None);
    }
    if is_word(word, "zero") {
        return Some(Reply::Zero);
    }
    if is_word(word, "gone") {
        return Some(Reply::Gone);
    }
    if is_word(word, "text") {
        return take_text_reply(left);
    }
    number_reply(left, word)
}

#[tactic(auto, unfolding(crate::specs::Reader::AnswerParts::counted))]
fn take_swapped(left: &mut Left<'_>) -> Option<Answer<Reply>>
    ensures { Takes result left.new (parts.counted 0 Answer.Swapped (left_tokens left.old)) }
{
    let number = take_small_number(left, 0)?;
    Some(Answer::Swapped(number))
}

#[tactic(auto, unfolding(crate::specs::Reader::AnswerParts::counted))]
fn take_busy(left: &mut Left<'_>) -> Option<Answer<Reply>>
    ensures { Takes result left.new (parts.counted 1 Answer.Busy (left_tokens left.old)) }
{
    let number = take_small_number(left, 1)?;
    Some(Answer::Busy(number))
}

/// Takes what is left of the answer of a swap that begins with this word.
fn take_ending(left: &mut Left<'_>, word: &[u8]) -> Option<Answer<Reply>>
    ensures { Takes result left.new (parts.ending_of word.now (left_tokens left.old)) }
{
    if is_word(word, "done") {
        return take_swapped(left);
    }
    if is_word(word, "busy") {
        return take_busy(left);
    }
    if is_word(word, "spent") {
        return Some(Answer::Spent);
    }
    if is_word(word, "gone") {
        return Some(Answer::Gone);
    }
    None
}

#[tactic(auto, unfolding(crate::specs::Reader::AnswerParts::replied))]
fn take_replied(left: &mut Left<'_>, word: &[u8]) -> Option<Answer<Reply>>
    ensures { Takes result left.new (parts.replied word.now (left_tokens left.old)) }
{
    let reply = take_reply(left, word)?;
    Some(Answer::Replied(reply))
}

/// Takes the answer of this act.
#[tactic(auto, unfolding(crate::specs::Reader::AnswerParts::answer_at))]
pub fn take_answer(left: &mut Left<'_>, act: &Act<Op>) -> Option<Answer<Reply>>
    ensures { Takes result left.new (parts.answer_at act.now (left_tokens left.old)) }
{
    let word = take_token(left)?;
    match act {
        Act::Call(_) => take_replied(left, word),
        Act::Swap(_) => take_ending(left, word),
    }
}
