ghost use Rattle.std.specs.Prelude.{◌≡◌, ℕ, ◌-◌, ◌^◌, ◌<◌, ◌⊎◌, List, Some, None};
ghost use Rattle.k42_input.specs.CommandLine.{words_said};
ghost use Rattle.k42_view.specs.Program as program;
ghost use Rattle.k42_view.specs.Words as asked;

use crate::program::view_main;
use k42_input::{Status, words_of};
use k42_io::{Sink, Source};
use k42_memory::Memory;
use std::alloc::Global;
use std::env::Args;
use std::io;

/// The program, by what the system answers where it is asked for the words.
pub fn view_called<S: Source, K: Sink>(
    alloc: Global,
    said: io::Result<Args>,
    source: &mut S,
    sink: &mut K,
) -> Status
    requires source { S.faults source.old < 2 ^ 64 - 1 }
    requires sink { K.faults sink.old < 2 ^ 64 - 1 }
    // What the status says, for the words behind the program's name, of what was read and written.
    ensures says { (words : List (List ℕ)) → words_said said ≡ Some words →
        program.Says (asked.window_of words)
        (record {
          left = S.left source.old;
          left_after = S.left source.new;
          taken = K.taken sink.old;
          taken_after = K.taken sink.new;
          read_faults = S.faults source.old;
          read_faults_after = S.faults source.new;
          write_faults = K.faults sink.old;
          write_faults_after = K.faults sink.new;
        }) result
        ⊎ ((result ≡ Status.Memory) × (source.new ≡ source.old) × (sink.new ≡ sink.old)) }
    // Where there was no memory for the words, nothing is read or written.
    ensures memory { words_said said ≡ None →
        (result ≡ Status.Memory) × (source.new ≡ source.old) × (sink.new ≡ sink.old) }
{
    match words_of(alloc, said) {
        Ok(words) => view_main(alloc, &words, source, sink),
        Err(Memory) => Status::Memory,
    }
}
