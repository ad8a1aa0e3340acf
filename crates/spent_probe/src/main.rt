//! The program `spent_probe`: two passes swap a counter by turns until it is at its last incarnation. All these swaps are
//! done, and every one after them is refused. As a test it would take minutes where it is tried with checks.
#![tactic(auto)]

mod probe;

use crate::probe::{Told, probe};
use k42_memory::Memory;
use std::process::ExitCode;

fn main(rt: HostRuntime) -> ExitCode {
    let (printed, status) = match probe(&rt, rt.alloc()) {
        Ok(Some(Told { done, spent, value })) => {
            (
                println!(rt; "done {} spent {} value {}", done, spent, value),
                0,
            )
        }
        Ok(None) => (println!(rt; "wrong"), 1),
        Err(Memory) => (println!(rt; "memory"), 6),
    };
    ExitCode::from(if printed.is_ok() { status } else { 5 })
}
