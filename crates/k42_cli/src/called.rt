ghost use Rattle.std.specs.Prelude.{◌≡◌, ℕ, ◌-◌, ◌^◌, ◌<◌, ◌⊎◌, List, Some, None, is_some};
ghost use Rattle.k42_input.specs.CommandLine.{words_said};
ghost use Rattle.k42_cli.specs.Program as program;
ghost use Rattle.k42_cli.specs.Words as asked;

use crate::program::k42_main;
use co_system::History;
use k42_input::{Status, words_of};
use k42_io::{Sink, Source};
use k42_memory::Memory;
use k42_workers::Gate;
use std::alloc::Global;
use std::env::Args;
use std::io;
use std::sync::Wait;
use std::thread::Threads;

/// The program, by what the system answers where it is asked for the words.
pub fn k42_called<R: Threads + Wait + Sync, S: Source, K: Sink, G: Gate + Sync>(
    rt: &R,
    alloc: Global,
    said: io::Result<Args>,
    source: &mut S,
    sink: &mut K,
    gate: &G,
    kept: &mut Option<History>,
) -> Status
    requires source { S.faults source.old < 2 ^ 64 - 1 }
    requires sink { K.faults sink.old < 2 ^ 64 - 1 }
    requires fresh { kept.old ≡ None }
    // What the status says, for the words behind the program's name, of what was read, written and
    // kept.
    ensures says { (words : List (List ℕ)) → words_said said ≡ Some words →
        program.Says (asked.form_of words)
        (record {
          left = S.left source.old;
          left_after = S.left source.new;
          taken = K.taken sink.old;
          taken_after = K.taken sink.new;
          read_faults = S.faults source.old;
          read_faults_after = S.faults source.new;
          write_faults = K.faults sink.old;
          write_faults_after = K.faults sink.new;
        }) kept.new result
        ⊎ ((result ≡ Status.Memory) × (source.new ≡ source.old) × (sink.new ≡ sink.old)) }
    // A history is kept exactly where a run was done and its output written whole.
    ensures kept { (words : List (List ℕ)) → words_said said ≡ Some words →
        (is_some kept.new ≡ program.keeps (asked.form_of words) result)
        ⊎ ((result ≡ Status.Memory) × (kept.new ≡ None)) }
    // Where there was no memory for the words, nothing is read or written.
    ensures memory { words_said said ≡ None →
        (result ≡ Status.Memory) × (source.new ≡ source.old) × (sink.new ≡ sink.old)
        × (kept.new ≡ None) }
{
    match words_of(alloc, said) {
        Ok(words) => k42_main(rt, alloc, &words, source, sink, gate, kept),
        Err(Memory) => Status::Memory,
    }
}
