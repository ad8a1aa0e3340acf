//! Generated scripts beside texts that are spelled out by the same rule.
ghost use Rattle.std.specs.Prelude.{◌≤◌};

use k42_kinds::{Act, LayoutName, Op, To};
use script_text::{CallLine, Item, Script, generate, parse};
use std::alloc::Global;
use std::process::Abort;

const ONE_STEP: &[u8] = b"procs 4\nobject hits counter shared\nobject names directory shared\n\
    object cache pages shared\nworker w0 0\nworker w1 1\nhits add 1817669548\nworker w2 2\n\
    worker w3 3\n";

const TWELVE_STEPS: &[u8] = b"procs 4\nobject hits counter shared\n\
    object names directory shared\nobject cache pages shared\n\
    worker w0 0\nnames bind n84 4\ncache write 4 v8\nhits add 1769382055\n\
    worker w1 1\nhits add 937225630\nnames bind n90 5\ncache write 649 v9\n\
    worker w2 2\nhits add 4270069161\nnames bind n75 6\ncache write 38 v10\n\
    worker w3 3\nhits add 522938805\nnames bind n99 7\ncache write 703 v11\n";

/// The processors and the objects of every trial.
const DECLARED: &[u8] = b"procs 4\nobject hits counter shared\n\
    object names directory shared\nobject cache pages shared\n";

fn compare(rt: &impl Abort, left: &Script, right: &Script) {
    assert!(rt; left.procs == right.procs);
    assert!(rt; left.objects.as_slice() == right.objects.as_slice());
    assert!(rt; left.workers.len() == right.workers.len());
    for (one, other) in left.workers.as_slice().iter().zip(right.workers.as_slice()) {
        assert!(rt; one.name == other.name && one.proc == other.proc);
        assert!(rt; one.items.as_slice() == other.items.as_slice());
    }
}

/// The script of so many steps is that which the text says.
fn compare_with_text(rt: &impl Abort, alloc: Global, steps: u32, text: &[u8])
    requires { (1 ≤ steps) × (steps ≤ 10000) }
{
    let script = generate(alloc, steps).expect(rt, "memory");
    let read = parse(alloc, text).expect(rt, "a script");
    compare(rt, &script, &read);
}

#[test]
fn a_generated_script_is_what_its_text_says(rt: HostRuntime) {
    compare_with_text(&rt, rt.alloc(), 1, ONE_STEP);
    compare_with_text(&rt, rt.alloc(), 12, TWELVE_STEPS);
}

/// The text of a step, by the rule.
fn step_text(rt: &impl Abort, alloc: Global, step: u32, value: u32) -> String {
    let layout = if step / 1000 % 2 == 0 {
        "spread"
    } else {
        "shared"
    };
    let text = match (step % 1000, step / 4 % 3) {
        (0, _) => format!(in alloc; "swap hits {layout}\n"),
        (252, _) => format!(in alloc; "swap cache {layout}\n"),
        (500, _) => format!(in alloc; "swap names {layout}\n"),
        (_, 0) => format!(in alloc; "hits add {value}\n"),
        (_, 1) => format!(in alloc; "names bind n{} {step}\n", value % 100),
        _ => format!(in alloc; "cache write {} v{step}\n", value % 1024),
    };
    text.expect(rt, "memory")
}

/// Adds the text of the worker's steps, of so many that there are, by the rule.
fn add_worker(rt: &impl Abort, alloc: Global, text: &mut Vec<u8>, worker: u32, steps: u32) {
    let head = format!(in alloc; "worker w{worker} {worker}\n").expect(rt, "memory");
    text.extend_from_slice(head.as_bytes()).expect(rt, "memory");
    let mut number = u64::from(steps);
    for before in 0..steps {
        let step = before + 1;
        number = number
            .wrapping_mul(6_364_136_223_846_793_005)
            .wrapping_add(1_442_695_040_888_963_407);
        if step % 4 == worker {
            let line = step_text(rt, alloc, step, (number >> 32) as u32);
            text.extend_from_slice(line.as_bytes()).expect(rt, "memory");
        }
    }
}

/// The text of so many steps, by the rule.
fn trial_text(rt: &impl Abort, alloc: Global, steps: u32) -> Vec<u8> {
    let mut text = DECLARED.to_vec(alloc).expect(rt, "memory");
    for worker in 0..4u32 {
        add_worker(rt, alloc, &mut text, worker, steps);
    }
    text
}

#[test]
fn the_text_of_long_trials_is_read_as_they_are(rt: HostRuntime) {
    for steps in [1u32, 1000, 10_000] {
        let text = trial_text(&rt, rt.alloc(), steps);
        compare_with_text(&rt, rt.alloc(), steps, text.as_slice());
    }
}

fn swap(line: u32, object: u32, layout: LayoutName) -> Item {
    Item::Line(CallLine {
        line,
        object,
        act: Act::Swap(To::Layout(layout.number())),
    })
}

fn is_swap(item: &Item) -> bool {
    match item {
        Item::Line(line) => matches!(line.act, Act::Swap(_)),
        _ => false,
    }
}

#[test]
fn of_a_thousand_steps_three_are_swaps_of_the_first_worker(rt: HostRuntime) {
    let script = generate(rt.alloc(), 2000).expect(&rt, "memory");
    let items = script.workers.as_slice()[0].items.as_slice();
    assert!(rt; items.len() == 500);
    let swaps = [
        swap(68, 2, LayoutName::Spread),
        swap(130, 1, LayoutName::Spread),
        swap(255, 0, LayoutName::Shared),
        swap(318, 2, LayoutName::Shared),
        swap(380, 1, LayoutName::Shared),
        swap(505, 0, LayoutName::Spread),
    ];
    let found = items.iter().filter(|item| is_swap(item)).count();
    assert!(rt; found == swaps.len());
    for expected in swaps {
        assert!(rt; items.contains(&expected), "{expected:?}");
    }
}

#[test]
fn ten_thousand_steps_end_as_the_rule_says(rt: HostRuntime) {
    let script = generate(rt.alloc(), 10_000).expect(&rt, "memory");
    let items = script.workers.as_slice()[3].items.as_slice();
    let last = Item::Line(CallLine {
        line: 10_008,
        object: 0,
        act: Act::Call(Op::Add(2_453_215_713)),
    });
    assert!(rt; items.last() == Some(&last));
}
