//! The program `k42-view`: draws the record that stands behind a script, as an SVG document.
#![tactic(auto)]

mod called;
mod program;
mod view;
mod words;

use crate::called::view_called;
use k42_io::{InputSource, OutputSink};
use std::env;
use std::process::ExitCode;

fn main(rt: HostRuntime) -> ExitCode {
    let status = view_called(
        rt.alloc(),
        env::args(&rt),
        &mut InputSource::new(rt.stdin()),
        &mut OutputSink::new(rt.stdout()),
    );
    ExitCode::from(status.number())
}

#[cfg(test)]
mod tests;
