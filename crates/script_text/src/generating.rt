//! The script of so many steps, made by a rule and not read.
ghost use Rattle.std.specs.Prelude.{◌≡◌, ◌/◌, ◌^◌, ◌≤◌, [], ◌∷◌, ◌++◌, true, length, IfOk, OnOk};
ghost use Rattle.std.specs.Fmt.{decimal};
ghost use Rattle.k42_kinds.specs.Words.{is_lower, is_name};
ghost use Rattle.k42_kinds.specs.declared.operation.LayoutName.TheVariants.{Shared};
ghost use Rattle.script_text.specs.Generated as trial;
ghost use Rattle.script_text.specs.Sound.{IsSound};

use crate::digits::put_digits;
use crate::script::{CallLine, Item, ObjectLine, Script, WorkerLines};
use k42_items::Items;
use k42_kinds::{Act, KindName, LayoutName, Name, Op, Text, To};
use k42_limits::PAGES;
use k42_memory::Memory;
use std::alloc::Global;

/// How many workers share the steps, each on a processor of its own.
const WORKERS: u32 = 4;

/// The script of so many steps, of which each worker does every fourth: calls of a counter, a
/// directory and pages by turns, and three swaps in a thousand.
pub fn generate(alloc: Global, steps: u32) -> Result<Script, Memory>
    requires { (1 ≤ steps) × (steps ≤ 10000) }
    ensures script { IfOk result (λ script. script ≡ trial.generated steps) }
    ensures sound { IfOk result IsSound }
{
    let mut workers = Items::new(alloc);
    let mut line = 5;
    for worker in 0..WORKERS {
        let lines = worker_lines(alloc, steps, line, worker)?;
        line += 1 + lines.items.len() as u32;
        workers.push(lines)?;
    }
    Ok(Script {
        procs: WORKERS,
        objects: objects(alloc)?,
        workers,
    })
}

fn objects(alloc: Global) -> Result<Items<ObjectLine>, Memory>
    ensures { IfOk result (λ declared. declared ≡ trial.objects) }
{
    let mut objects = Items::new(alloc);
    push_object(&mut objects, b"hits", KindName::Counter)?;
    push_object(&mut objects, b"names", KindName::Directory)?;
    push_object(&mut objects, b"cache", KindName::Pages)?;
    Ok(objects)
}

fn push_object(objects: &mut Items<ObjectLine>, name: &[u8], kind: KindName) -> Result<(), Memory>
    requires { is_name name.now ≡ true }
    ensures { OnOk result (objects.new ≡
        objects.old ++ record { name = name.now; kind = kind; layout = Shared } ∷ []) }
{
    objects.push(ObjectLine {
        name: Name::of(name).unwrap(),
        kind,
        layout: LayoutName::Shared,
    })
}

/// A worker that is declared on this line, with its steps.
fn worker_lines(alloc: Global, steps: u32, line: u32, worker: u32) -> Result<WorkerLines, Memory>
    requires { (steps ≤ 10000) × (line ≤ 50000) }
    ensures lines { IfOk result (λ lines. lines ≡ trial.worker_lines steps line worker) }
    ensures few { IfOk result (λ lines. length lines.items ≤ steps) }
{
    Ok(WorkerLines {
        name: numbered_name(&mut Vec::new(alloc), b'w', worker)?,
        proc: worker,
        items: step_items(alloc, steps, line + 1, worker)?,
    })
}

/// The lines of a worker's steps, from this line on.
fn step_items(alloc: Global, steps: u32, line: u32, worker: u32) -> Result<Items<Item>, Memory>
    requires { (steps ≤ 10000) × (line ≤ 50001) }
    ensures items { IfOk result (λ items.
        items ≡ trial.step_items steps line (trial.steps_of worker steps)) }
    ensures few { IfOk result (λ items. length items ≤ steps) }
{
    let mut items = Items::of(Vec::with_capacity(alloc, (steps / WORKERS + 1) as usize)?);
    let mut bytes = Vec::new(alloc);
    let mut drawn = u64::from(steps);
    for before in 0..steps {
        let step = before + 1;
        drawn = next_drawn(drawn);
        if step % WORKERS == worker {
            let number = line + items.len() as u32;
            items.push(Item::Line(step_line(&mut bytes, number, step, drawn)?))?;
        }
    }
    Ok(items)
}

/// The number behind this one.
fn next_drawn(number: u64) -> u64
    ensures { result ≡ trial.next_drawn number }
{
    number
        .wrapping_mul(6_364_136_223_846_793_005)
        .wrapping_add(1_442_695_040_888_963_407)
}

/// The line of a step.
fn step_line(bytes: &mut Vec<u8>, line: u32, step: u32, drawn: u64) -> Result<CallLine, Memory>
    ensures { IfOk result (λ asked. asked ≡ trial.step_line line step (drawn / 2 ^ 32)) }
{
    match step % 1000 {
        0 => Ok(swap_line(line, step, 0)),
        252 => Ok(swap_line(line, step, 2)),
        500 => Ok(swap_line(line, step, 1)),
        _ => call_line(bytes, line, step, (drawn >> 32) as u32),
    }
}

fn swap_line(line: u32, step: u32, object: u32) -> CallLine
    ensures { result ≡ trial.swap_line line step object }
{
    let layout = if step / 1000 % 2 == 0 {
        LayoutName::Spread
    } else {
        LayoutName::Shared
    };
    CallLine {
        line,
        object,
        act: Act::Swap(To::Layout(layout.number())),
    }
}

fn call_line(bytes: &mut Vec<u8>, line: u32, step: u32, value: u32) -> Result<CallLine, Memory>
    ensures { IfOk result (λ asked. asked ≡ trial.call_line line step value) }
{
    let (object, op) = match step / 4 % 3 {
        0 => (0, Op::Add(value)),
        1 => (
            1,
            Op::Bind(numbered_name(bytes, b'n', value % 100)?, u64::from(step)),
        ),
        _ => (
            2,
            Op::Write((value % PAGES) as u16, numbered_text(bytes, b'v', step)?),
        ),
    };
    Ok(CallLine {
        line,
        object,
        act: Act::Call(op),
    })
}

/// Writes the letter, and the number in decimal behind it, over what is there.
fn put_numbered(bytes: &mut Vec<u8>, letter: u8, number: u32) -> Result<(), Memory>
    ensures { OnOk result (bytes.new.items ≡ letter ∷ decimal number) }
{
    bytes.clear();
    bytes.push(letter)?;
    put_digits(bytes, u64::from(number))
}

fn numbered_name(bytes: &mut Vec<u8>, letter: u8, number: u32) -> Result<Name, Memory>
    requires { is_lower letter ≡ true }
    ensures { IfOk result (λ name. name ≡ letter ∷ decimal number) }
{
    put_numbered(bytes, letter, number)?;
    Ok(Name::of(bytes.as_slice()).unwrap())
}

fn numbered_text(bytes: &mut Vec<u8>, letter: u8, number: u32) -> Result<Text, Memory>
    requires { is_lower letter ≡ true }
    ensures { IfOk result (λ text. text ≡ letter ∷ decimal number) }
{
    put_numbered(bytes, letter, number)?;
    Ok(Text::of(bytes.as_slice()).unwrap())
}
