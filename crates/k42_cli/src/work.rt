//! What each form of the command has to write for the input that it read.
ghost use Rattle.std.specs.Prelude.{◌≡◌, ◌<◌, ◌≤◌, length, None, IfOk};
ghost use Rattle.script_text.specs.Language.{byte_limit};
ghost use Rattle.script_text.specs.Sound.{IsSound};
ghost use Rattle.k42_input.specs.Dues.{IsCheckDue};
ghost use Rattle.k42_input.specs.Verdicts.{input_limit};
ghost use Rattle.k42_cli.specs.Program as program;
ghost use Rattle.k42_cli.specs.Outputs.{IsRecorded, IsShort, limit_of};
ghost use Rattle.k42_cli.specs.Words.{IsKnown, version_of};

use crate::entries::Unread;
use crate::load::load;
use crate::output::{Output, refusal};
use crate::words::{Form, Way};
use co_system::History;
use k42_input::{Status, separate, verdict_in};
use k42_memory::Memory;
use k42_workers::{Gate, run_script};
use record_text::print_history;
use script_text::{ParseEnd, Script, parse};
use std::alloc::Global;
use std::sync::Wait;
use std::thread::Threads;
use task_workers::run_tasks;

/// Runs the workers of the script in this way, and gives the history.
fn history_of<R: Threads + Wait + Sync, G: Gate + Sync>(
    rt: &R,
    alloc: Global,
    script: &Script,
    way: Way,
    gate: &G,
) -> Result<History, Memory>
    requires { IsSound script.now }
    ensures { IfOk result (program.IsRun script.now) }
{
    match way {
        Way::One | Way::Two => run_script(rt, alloc, script, gate),
        Way::Tasks => run_tasks(rt, alloc, script, gate),
    }
}

/// Runs the script, and gives its history and the text of its record.
fn record<R: Threads + Wait + Sync, G: Gate + Sync>(
    rt: &R,
    alloc: Global,
    script: &Script,
    way: Way,
    gate: &G,
) -> Result<Output, Memory>
    requires { IsSound script.now }
    ensures { IfOk result (IsRecorded script.now (version_of way)) }
{
    let history = history_of(rt, alloc, script, way, gate)?;
    let version = way.version();
    let reader = history.read(alloc)?;
    let text = print_history(alloc, script, Unread { reader }, version)?;
    Ok(Output {
        status: Status::Ok,
        text,
        history: Some(history),
    })
}

/// What a script that is to be run has to answer.
fn run<R: Threads + Wait + Sync, G: Gate + Sync>(
    rt: &R,
    alloc: Global,
    way: Way,
    bytes: Vec<u8>,
    gate: &G,
) -> Result<Output, Memory>
    ensures due { IfOk result (λ output. program.IsRunDue (version_of way) bytes.items
        output.status output.text.items output.history) }
    ensures short { IfOk result (λ output.
        output.status ≡ Status.Ok → length bytes.items < byte_limit) }
{
    let parsed = parse(alloc, &bytes);
    drop(bytes);
    match parsed {
        Ok(script) => record(rt, alloc, &script, way, gate),
        Err(ParseEnd::Fault(fault)) => refusal(alloc, &fault),
        Err(ParseEnd::Memory) => Err(Memory),
    }
}

/// What a script with a record behind it has to answer.
fn check(alloc: Global, input: &[u8]) -> Result<Output, Memory>
    requires { length input.now ≤ input_limit }
    ensures due { IfOk result (λ output.
        IsCheckDue input.now output.status output.text.items) }
    ensures short { IfOk result (λ output.
        output.status ≡ Status.Ok → length input.now < input_limit) }
    ensures unkept { IfOk result (λ output. output.history ≡ None) }
{
    let parts = separate(input);
    match parse(alloc, parts.script) {
        Ok(script) => {
            let verdict = verdict_in(alloc, &script, input, parts.text)?;
            Ok(Output {
                status: verdict.status(),
                text: verdict.text(alloc)?,
                history: None,
            })
        }
        Err(ParseEnd::Fault(fault)) => refusal(alloc, &fault),
        Err(ParseEnd::Memory) => Err(Memory),
    }
}

/// What a form has to answer where these bytes were read for it.
pub fn work<R: Threads + Wait + Sync, G: Gate + Sync>(
    rt: &R,
    alloc: Global,
    form: Form,
    bytes: Vec<u8>,
    gate: &G,
) -> Result<Output, Memory>
    requires known { IsKnown form }
    requires within { length bytes.items ≤ limit_of form }
    ensures due { IfOk result (λ output.
        program.IsDue (Some form) bytes.items output.status output.text.items output.history) }
    ensures short { IfOk result (λ output. output.status ≡ Status.Ok → IsShort form bytes.items) }
{
    match form {
        Form::Run(way) => run(rt, alloc, way, bytes, gate),
        Form::Check => check(alloc, &bytes),
        Form::Load(steps) => load(rt, alloc, steps, gate),
    }
}
