//! The real streams of the system, as a source and a sink that count their faults.
ghost use Rattle.std.specs.Prelude.{◌≡◌, ◌+◌, ◌-◌, ◌^◌, ◌<◌, ◌↔◌, length, Ok, IsErr, IfOk, OnOk, OnErr};
ghost use Rattle.std.specs.Io.{ReadsAtMost, WritesAtMost};
ghost use Rattle.std.specs.Io.KnownBytes.{Keeps, ReadConsumes, WriteAppends};

use crate::sink::Sink;
use crate::source::{Failed, Source};
use std::io::{self, Read, Stdin, Stdout, Write};
use std::marker::Model;

/// Counts one more fault.
fn counted(faults: &mut u64) -> Failed
    requires { faults.old < 2 ^ 64 - 1 }
    ensures { faults.new ≡ faults.old + 1 }
{
    *faults += 1;
    Failed
}

/// What a read, a write or a flush of the system answered, with a fault counted where it failed.
fn passed_on<T: Drop>(answer: io::Result<T>, faults: &mut u64) -> Result<T, Failed>
    requires { faults.old < 2 ^ 64 - 1 }
    ensures hidden { IsErr result ↔ IsErr answer }
    ensures same { IfOk result (λ value. answer ≡ Ok value) }
    ensures failed { OnErr result (faults.new ≡ faults.old + 1) }
    ensures quiet { OnOk result (faults.new ≡ faults.old) }
{
    match answer {
        Ok(value) => Ok(value),
        Err(_) => Err(counted(faults)),
    }
}

/// One read of a stream, with a fault counted where it failed.
fn read_from<R: Read>(stream: &mut R, buf: &mut [u8], faults: &mut u64) -> Result<usize, Failed>
    requires { faults.old < 2 ^ 64 - 1 }
    ensures bound { ReadsAtMost result buf.new }
    ensures bytes { ReadConsumes (R.remaining stream.old) (R.remaining stream.new) result buf.new }
    ensures failed { OnErr result (faults.new ≡ faults.old + 1) }
    ensures quiet { OnOk result (faults.new ≡ faults.old) }
{
    passed_on(stream.read(buf), faults)
}

/// One write to a stream, with a fault counted where it failed or took nothing of a piece.
fn write_to<W: Write>(stream: &mut W, piece: &[u8], faults: &mut u64) -> Result<usize, Failed>
    requires { faults.old < 2 ^ 64 - 1 }
    ensures bound { WritesAtMost result piece.now }
    ensures progress { 0 < length piece.now → IfOk result (λ n. 0 < n) }
    ensures bytes { WriteAppends (W.contents stream.old) (W.contents stream.new) result piece.now }
    ensures failed { OnErr result (faults.new ≡ faults.old + 1) }
    ensures quiet { OnOk result (faults.new ≡ faults.old) }
{
    match passed_on(stream.write(piece), faults) {
        // A device that takes nothing of a piece would be asked for ever.
        Ok(0) if !piece.is_empty() => Err(counted(faults)),
        answer => answer,
    }
}

/// One flush of a stream, with a fault counted where it failed.
fn flush_of<W: Write>(stream: &mut W, faults: &mut u64) -> Result<(), Failed>
    requires { faults.old < 2 ^ 64 - 1 }
    ensures bytes { Keeps (W.contents stream.old) (W.contents stream.new) }
    ensures failed { OnErr result (faults.new ≡ faults.old + 1) }
    ensures quiet { OnOk result (faults.new ≡ faults.old) }
{
    passed_on(stream.flush(), faults)
}

/// Standard input. It tells no bytes, and contracts see its count of faults.
#[derive(Drop)]
pub struct InputSource {
    input: Stdin,
    faults: u64,
}

impl Model for InputSource {
    ghost use Rattle.std.specs.Prelude.{ℕ};

    ghost Value = { ℕ };

    ghost view = { λ s. s.faults };
}

impl InputSource {
    pub fn new(input: Stdin) -> Self
        ensures { result ≡ 0 }
    {
        InputSource { input, faults: 0 }
    }
}

impl Source for InputSource {
    ghost use Rattle.std.specs.Prelude.{None};

    ghost left = { λ _. None };

    ghost faults = { λ count. count };

    fn read(&mut self, buf: &mut [u8]) -> Result<usize, Failed>
        requires { self.old < 2 ^ 64 - 1 }
        ensures bound { ReadsAtMost result buf.new }
        ensures failed { OnErr result (self.new ≡ self.old + 1) }
        ensures quiet { OnOk result (self.new ≡ self.old) }
    {
        read_from(&mut self.input, buf, &mut self.faults)
    }
}

/// Standard output. It tells no bytes, and contracts see its count of faults.
#[derive(Drop)]
pub struct OutputSink {
    output: Stdout,
    faults: u64,
}

impl Model for OutputSink {
    ghost use Rattle.std.specs.Prelude.{ℕ};

    ghost Value = { ℕ };

    ghost view = { λ s. s.faults };
}

impl OutputSink {
    pub fn new(output: Stdout) -> Self
        ensures { result ≡ 0 }
    {
        OutputSink { output, faults: 0 }
    }
}

impl Sink for OutputSink {
    ghost use Rattle.std.specs.Prelude.{None, ⊤};

    ghost taken = { λ _. None };

    // What the system holds back no contract sees.
    ghost flushed = { λ _. ⊤ };

    ghost faults = { λ count. count };

    fn write(&mut self, piece: &[u8]) -> Result<usize, Failed>
        requires { self.old < 2 ^ 64 - 1 }
        ensures bound { WritesAtMost result piece.now }
        ensures progress { 0 < length piece.now → IfOk result (λ n. 0 < n) }
        ensures failed { OnErr result (self.new ≡ self.old + 1) }
        ensures quiet { OnOk result (self.new ≡ self.old) }
    {
        write_to(&mut self.output, piece, &mut self.faults)
    }

    fn flush(&mut self) -> Result<(), Failed>
        requires { self.old < 2 ^ 64 - 1 }
        ensures failed { OnErr result (self.new ≡ self.old + 1) }
        ensures quiet { OnOk result (self.new ≡ self.old) }
    {
        flush_of(&mut self.output, &mut self.faults)
    }
}
