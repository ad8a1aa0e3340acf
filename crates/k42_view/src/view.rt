//! What the program has to write for an input: a picture, or the line that says why there is none.
ghost use Rattle.std.specs.Prelude.{◌≡◌, ◌≤◌, ◌<◌, ◌^◌, length, IfOk, Ok};
ghost use Rattle.record_picture.specs.declared.window.TheConstants.{COLUMNS};
ghost use Rattle.record_text.specs.Spelling.{HasText};
ghost use Rattle.script_text.specs.Language.{parsed};
ghost use Rattle.script_text.specs.Sound.{IsSound};
ghost use Rattle.k42_input.specs.Separation.{script_part, record_part};
ghost use Rattle.k42_input.specs.Verdicts.{input_limit};
ghost use Rattle.k42_view.specs.Program as program;

use k42_input::{
    RecordFound, SPELLING_RULE, Status, Verdict, record_in, refusal_line, separate, verdict_on,
};
use k42_memory::Memory;
use record_picture::{Verdict as Mark, Window, draw};
use record_text::Record;
use script_text::{ParseEnd, Script, parse};
use std::alloc::Global;

/// What is to be written, and the status that goes with it.
#[derive(Drop)]
pub struct Output {
    pub status: Status,
    pub text: Vec<u8>,
}

/// The verdict as a picture tells it, which counts the entries itself.
fn mark_of(verdict: Verdict) -> Mark
    ensures { result ≡ program.mark_of verdict }
{
    match verdict {
        Verdict::Lawful(_) => Mark::Lawful,
        Verdict::Unlawful(line, rule) => Mark::Unlawful { line, rule },
    }
}

/// The picture of a record, under what is found of it.
fn picture_of(
    alloc: Global,
    script: &Script,
    written: &Record,
    window: Window,
) -> Result<Output, Memory>
    requires sound { IsSound script.now }
    requires spelled { HasText script.now written.now }
    requires few { length written.now.lines < 2 ^ 31 }
    requires window { window.count ≤ COLUMNS }
    ensures { IfOk result (λ output.
        program.IsDrawn window script.now written.now output.status output.text.items) }
{
    let verdict = verdict_on(alloc, script, written)?;
    let text = draw(alloc, script, written, mark_of(verdict), window)?;
    Ok(Output {
        status: verdict.status(),
        text,
    })
}

/// The line of a verdict.
fn line_of(alloc: Global, verdict: Verdict) -> Result<Output, Memory>
    ensures { IfOk result (λ output.
        program.IsTold verdict output.status output.text.items) }
{
    Ok(Output {
        status: verdict.status(),
        text: verdict.text(alloc)?,
    })
}

/// What there is to write where the script is one, and this text stands behind it.
fn view_of(
    alloc: Global,
    script: &Script,
    input: &[u8],
    text: &[u8],
    window: Window,
) -> Result<Output, Memory>
    requires sound { IsSound script.now }
    requires accepted { parsed (script_part input.now) ≡ Ok script.now }
    requires part { text.now ≡ record_part input.now }
    requires within { length text.now ≤ length input.now }
    requires read { length input.now ≤ input_limit }
    requires window { window.count ≤ COLUMNS }
    ensures { IfOk result (λ output.
        program.IsDue (Some window) input.now output.status output.text.items) }
{
    match record_in(alloc, script, input, text)? {
        RecordFound::Spelled(written) => picture_of(alloc, script, &written, window),
        RecordFound::Misspelt(line) => line_of(alloc, Verdict::Unlawful(line, SPELLING_RULE)),
    }
}

/// What there is to write for an input.
pub fn view(alloc: Global, window: Window, input: &[u8]) -> Result<Output, Memory>
    requires window { window.count ≤ COLUMNS }
    requires read { length input.now ≤ input_limit }
    ensures { IfOk result (λ output.
        program.IsDue (Some window) input.now output.status output.text.items) }
{
    let parts = separate(input);
    match parse(alloc, parts.script) {
        Ok(script) => view_of(alloc, &script, input, parts.text, window),
        Err(ParseEnd::Fault(fault)) => Ok(Output {
            status: Status::Refused,
            text: refusal_line(alloc, &fault)?,
        }),
        Err(ParseEnd::Memory) => Err(Memory),
    }
}
