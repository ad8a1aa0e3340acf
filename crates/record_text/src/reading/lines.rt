//! The lines of a record.
ghost use Rattle.std.specs.Prelude.{◌≡◌, ◌≤◌, length, option_map};
ghost use Rattle.k42_limits.specs.declared.TheConstants.{CALLERS, OBJECTS};
ghost use Rattle.script_text.specs.Numbers.{number_within};
ghost use Rattle.record_text.specs.Reader.Parts.{number_at};
ghost use Rattle.record_text.specs.Reader.LineParts as parts;
ghost use Rattle.record_text.specs.Reader.Cursor.{Takes, left_tokens};
ghost use Rattle.record_text.specs.Spelling.{version_number};

use crate::reading::acts::{Asked, take_act, take_worker};
use crate::reading::answers::take_answer;
use crate::reading::cursor::{Left, expect_end, take_token};
use crate::reading::parts::{take_marked, take_number, take_small_number, take_word};
use crate::record::{Extra, RecordLine};
use crate::version::Version;
use k42_kinds::{Act, Op};
use script_text::{Script, number_up_to};

fn version_of(token: &[u8]) -> Option<Version>
    ensures { option_map version_number result ≡ number_within 1 2 token.now }
{
    match number_up_to(token, 2) {
        Some(1) => Some(Version::One),
        Some(2) => Some(Version::Two),
        _ => None,
    }
}

/// Takes the number 1 or 2.
#[tactic(auto, unfolding(crate::specs::Reader::Parts::spelled_at))]
fn take_version(left: &mut Left<'_>) -> Option<Version>
    ensures { Takes (option_map version_number result) left.new
        (number_at 1 2 (left_tokens left.old)) }
{
    let token = take_token(left)?;
    version_of(token)
}

/// The version that the first line of a record names.
#[tactic(auto, unfolding(crate::specs::Reader::LineParts::version_on))]
pub fn version_on(mut left: Left<'_>) -> Option<Version>
    ensures { option_map version_number result ≡ parts.version_on (left_tokens left.entry) }
{
    take_word(&mut left, "k42")?;
    take_word(&mut left, "record")?;
    let version = take_version(&mut left)?;
    expect_end(&left)?;
    Some(version)
}

/// How many entries the last line of a record counts.
#[tactic(auto, unfolding(crate::specs::Reader::LineParts::count_on))]
pub fn count_on(mut left: Left<'_>) -> Option<u64>
    ensures { result ≡ parts.count_on (left_tokens left.entry) }
{
    take_word(&mut left, "end")?;
    let count = take_number(&mut left, 0, u64::MAX)?;
    expect_end(&left)?;
    Some(count)
}

#[tactic(auto, unfolding(crate::specs::Reader::LineParts::some_generation))]
fn take_some_generation(left: &mut Left<'_>) -> Option<Option<u32>>
    ensures { Takes result left.new (parts.some_generation (left_tokens left.old)) }
{
    let generation = take_marked(left, b'g')?;
    Some(Some(generation))
}

#[tactic(auto, unfolding(crate::specs::Reader::LineParts::no_generation))]
fn take_no_generation(left: &mut Left<'_>) -> Option<Option<u32>>
    ensures { Takes result left.new (parts.no_generation (left_tokens left.old)) }
{
    take_word(left, "g-")?;
    Some(None)
}

/// Takes the generation of a call, or that there is none.
fn take_generation(left: &mut Left<'_>, act: &Act<Op>) -> Option<Option<u32>>
    ensures { Takes result left.new (parts.generation_at act.now (left_tokens left.old)) }
{
    match act {
        Act::Call(_) => take_some_generation(left),
        Act::Swap(_) => take_no_generation(left),
    }
}

#[tactic(auto, unfolding(crate::specs::Reader::LineParts::told_at))]
fn take_told(left: &mut Left<'_>, act: &Act<Op>) -> Option<Option<Extra>>
    ensures { Takes result left.new (parts.told_at act.now (left_tokens left.old)) }
{
    let proc = take_marked(left, b'p')?;
    let generation = take_generation(left, act)?;
    Some(Some(Extra { proc, generation }))
}

/// Takes what this version tells besides.
fn take_extra(left: &mut Left<'_>, version: Version, act: &Act<Op>) -> Option<Option<Extra>>
    ensures { Takes result left.new
        (parts.extra_at (version_number version) act.now (left_tokens left.old)) }
{
    match version {
        Version::One => Some(None),
        Version::Two => take_told(left, act),
    }
}

/// What the line of an entry says.
#[tactic(auto, unfolding(crate::specs::Reader::LineParts::line_on))]
pub fn line_on(mut left: Left<'_>, script: &Script, version: Version) -> Option<RecordLine>
    requires objects { length script.now.objects ≤ OBJECTS }
    requires workers { length script.now.workers ≤ CALLERS }
    ensures { result ≡ parts.line_on script.now (version_number version) (left_tokens left.entry) }
{
    let stamp = take_number(&mut left, 0, u64::MAX)?;
    let worker = take_worker(&mut left, script)?;
    let line = take_small_number(&mut left, 0)?;
    let Asked { object, act } = take_act(&mut left, script)?;
    take_word(&mut left, "=")?;
    let answer = take_answer(&mut left, &act)?;
    let incarnation = take_marked(&mut left, b'@')?;
    let extra = take_extra(&mut left, version, &act)?;
    expect_end(&left)?;
    Some(RecordLine {
        stamp,
        worker,
        line,
        object,
        act,
        answer,
        incarnation,
        extra,
    })
}
