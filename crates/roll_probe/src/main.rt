//! The program `roll_probe`: two passes carry out a plan of four swaps. It is run with each of its requests for memory
//! refused in turn: whatever is refused, the passes come back, and close into a history that tells what was done.
#![tactic(auto)]

mod probe;

use crate::probe::{Found, probe};
use std::process::ExitCode;

fn main(rt: HostRuntime) -> ExitCode {
    match probe(&rt, rt.alloc()) {
        Found::Whole => {
            let printed = println!(rt; "four swaps, four entries");
            ExitCode::from(if printed.is_ok() { 0 } else { 5 })
        }
        Found::Memory => ExitCode::from(6),
        Found::Wrong => ExitCode::from(1),
    }
}
