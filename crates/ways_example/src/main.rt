//! Objects of one's own: four threads call a bucket, and then a counter, while a fifth has it kept in one way after
//! another.
#![tactic(auto)]

mod bucket;
mod counter;
mod ends;
mod kept;
mod questions;
mod turns;

use crate::bucket::run_bucket;
use crate::counter::run_counter;
use crate::turns::Turns;
use co_limiter::{Bucket, BucketOp};
use k42_kinds::Op;
use k42_memory::Memory;
use std::alloc::Global;
use std::process::ExitCode;
use std::sync::Wait;
use std::thread::Threads;

/// How many of 200 tokens a bucket of 100 has given and how many entries its history has, and the same of the value of a
/// counter to which 4,000 were added.
fn run<R: Threads + Wait + Sync>(
    rt: &R,
    alloc: Global,
) -> Result<Option<(u64, usize, u64, usize)>, Memory> {
    let bucket = Bucket {
        capacity: 100,
        rate: 0,
    };
    let taking = Turns {
        ways: 4,
        swaps: 200,
        op: BucketOp::Take(1),
        calls: 50,
    };
    let Some((given, takes)) = run_bucket(rt, alloc, &bucket, &taking)? else {
        return Ok(None);
    };
    let adding = Turns {
        ways: 4,
        swaps: 200,
        op: Op::Add(1),
        calls: 1_000,
    };
    let Some((value, adds)) = run_counter(rt, alloc, &adding)? else {
        return Ok(None);
    };
    Ok(Some((given, takes, value, adds)))
}

fn main(rt: HostRuntime) -> ExitCode {
    match run(&rt, rt.alloc()) {
        Ok(Some((given, takes, value, adds))) => {
            let printed = println!(rt;
                "given {given}, entries {takes}; counted {value}, entries {adds}"
            );
            ExitCode::from(u8::from(printed.is_err()))
        }
        Ok(None) => ExitCode::from(1),
        Err(Memory) => ExitCode::from(6),
    }
}
