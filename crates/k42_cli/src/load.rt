//! A load: a generated script is run, and its history is summed up.
ghost use Rattle.std.specs.Prelude.{◌≡◌, ◌++◌, codes, IfOk, OnOk};
ghost use Rattle.std.specs.Fmt.{decimal};
ghost use Rattle.k42_cli.specs.Program as program;
ghost use Rattle.k42_cli.specs.Outputs.{IsSummedUp};
ghost use Rattle.k42_cli.specs.Words.{IsKnown};

use crate::entries::Unread;
use crate::output::Output;
use crate::words::Form;
use k42_input::Status;
use k42_memory::Memory;
use k42_workers::{Gate, run_script};
use load_totals::{Summary, sum_up};
use script_text::generate;
use std::alloc::Global;
use std::sync::Wait;
use std::thread::Threads;

/// Adds a word and a number behind it, each with a space in front.
fn put_counted(text: &mut Vec<u8>, alloc: Global, word: &[u8], number: u64) -> Result<(), Memory>
    ensures { OnOk result (text.new.items ≡ text.old.items ++ program.counted word.now number) }
{
    text.push(b' ')?;
    text.extend_from_slice(word)?;
    text.push(b' ')?;
    text.extend_from_slice(number.to_string(alloc)?.as_bytes())?;
    Ok(())
}

/// The line that tells what a load of so many steps came to.
fn load_line(alloc: Global, steps: u32, sums: &Summary) -> Result<Vec<u8>, Memory>
    ensures { IfOk result (λ text. text.items ≡ program.load_line steps sums.now) }
{
    let mut text = Vec::new(alloc);
    text.extend_from_slice(b"load ")?;
    text.extend_from_slice(steps.to_string(alloc)?.as_bytes())?;
    put_counted(&mut text, alloc, b"calls", u64::from(sums.calls))?;
    put_counted(&mut text, alloc, b"total", sums.total)?;
    put_counted(&mut text, alloc, b"names", sums.names)?;
    put_counted(&mut text, alloc, b"dirty", sums.dirty)?;
    put_counted(&mut text, alloc, b"swaps", u64::from(sums.swaps))?;
    text.push(b'\n')?;
    Ok(text)
}

/// Runs the generated script of so many steps, and gives its history and what it comes to.
pub fn load<R: Threads + Wait + Sync, G: Gate + Sync>(
    rt: &R,
    alloc: Global,
    steps: u32,
    gate: &G,
) -> Result<Output, Memory>
    requires { IsKnown (Form.Load steps) }
    ensures { IfOk result (IsSummedUp steps) }
{
    let script = generate(alloc, steps)?;
    let history = run_script(rt, alloc, &script, gate)?;
    let reader = history.read(alloc)?;
    let sums = sum_up(alloc, &script, Unread { reader })?;
    Ok(Output {
        status: Status::Ok,
        text: load_line(alloc, steps, &sums)?,
        history: Some(history),
    })
}
