//! The program `k42_bench`: threads that call one object while one more swaps it, over the library alone. It times
//! nothing, so that it prints the same in every run, and is run under a timer.
#![tactic(auto)]

mod bench;
mod load;
mod words;

use crate::bench::{Done, run};
use crate::load::Load;
use crate::words::load_of;
use k42_memory::Memory;
use std::alloc::Global;
use std::env;
use std::io::ErrorKind;
use std::process::ExitCode;
use std::sync::Wait;
use std::thread::Threads;

const USAGE: &str =
    "usage: k42_bench counter|directory|pages shared|spread near|mix THREADS CALLS SWAPS [keep|unread|none [block]]";

/// The words behind the program's name. Words that are not UTF-8 are none.
fn words_of(rt: &HostRuntime) -> Result<Vec<String>, Memory> {
    let mut words = Vec::new(rt.alloc());
    let mut args = match env::args(rt) {
        Ok(args) => args,
        Err(error) if error.kind() == ErrorKind::OutOfMemory => return Err(Memory),
        Err(_) => return Ok(words),
    };
    let _name = args.next();
    for word in args {
        words.push(word)?;
    }
    Ok(words)
}

/// The load that the words ask for, if they ask for one.
fn asked(rt: &HostRuntime) -> Result<Option<Load>, Memory> {
    let words = words_of(rt)?;
    Ok(load_of(&words))
}

/// Runs the load, if there is one.
fn work<R: Threads + Wait + Sync>(
    rt: &R,
    alloc: Global,
    load: Result<Option<Load>, Memory>,
) -> Result<Option<Done>, Memory> {
    match load? {
        Some(load) => run(rt, alloc, &load),
        None => Ok(None),
    }
}

fn main(rt: HostRuntime) -> ExitCode {
    let (printed, status) = match work(&rt, rt.alloc(), asked(&rt)) {
        Ok(Some(done)) => (
            println!(rt; "calls {} swaps {}", done.calls, done.swaps),
            u8::from(!done.whole),
        ),
        Ok(None) => (println!(rt; "{}", USAGE), 2),
        Err(Memory) => (println!(rt; "memory"), 6),
    };
    ExitCode::from(if printed.is_ok() { status } else { 5 })
}
