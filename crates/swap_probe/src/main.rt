//! The program `swap_probe`: a swap waits for an activity that calls on, and another one is refused meanwhile. It is run
//! with each of its requests for memory refused in turn: a swap or a close for which there was none has lost nothing, is
//! made once more, and all ends as where none is refused.
#![tactic(auto)]

mod closing;
mod probe;
mod steps;

use crate::probe::probe;
use crate::steps::Fault;
use std::process::ExitCode;

fn main(rt: HostRuntime) -> ExitCode {
    match probe(&rt, rt.alloc()) {
        Ok(()) => {
            let printed = println!(rt; "add, busy, get, done, get");
            ExitCode::from(if printed.is_ok() { 0 } else { 5 })
        }
        Err(Fault::Memory) => ExitCode::from(6),
        Err(Fault::Wrong) => ExitCode::from(1),
    }
}
