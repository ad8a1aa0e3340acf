//! The one call of the program: it reads the input, does the work, and writes the output.
ghost use Rattle.std.specs.Prelude.{◌≡◌, ◌≢◌, ℕ, ◌-◌, ◌^◌, ◌<◌, ◌≤◌, ◌⊎◌, ◌↔◌, true, false, List, length, take, Option, Some, None, IfOk, OnOk, IsErrOf, map, string_bytes, is_some};
ghost use Rattle.k42_io.specs.Source.{TakesFirst, LosesAtMost};
ghost use Rattle.co_system.specs.Systems.{HistorySeen};
ghost use Rattle.k42_cli.specs.Program as program;
ghost use Rattle.k42_cli.specs.Words as asked;
ghost use Rattle.k42_cli.specs.Outputs.{IsWorkedOut, kept_after, limit_of};

use crate::output::Output;
use crate::words::{Form, form_of};
use crate::work::work;
use co_system::History;
use k42_input::{Status, WorkEnd, deliver, read_input};
use k42_io::{Sink, Source};
use k42_limits::{INPUT_BYTES, SCRIPT_BYTES};
use k42_workers::Gate;
use std::alloc::Global;
use std::sync::Wait;
use std::thread::Threads;

const USAGE: &str = "usage: k42 run [2 | tasks] | k42 check | k42 load N\n";

/// Reads the input of a form as far as it may go. A load has none.
fn input_of<S: Source>(alloc: Global, form: Form, source: &mut S) -> Result<Vec<u8>, WorkEnd>
    requires { S.faults source.old < 2 ^ 64 - 1 }
    ensures bytes { IfOk result (λ bytes.
        TakesFirst (limit_of form) (S.left source.old) (S.left source.new) bytes.items) }
    ensures bound { IfOk result (λ bytes. length bytes.items ≤ limit_of form) }
    ensures quiet { OnOk result (S.faults source.new ≡ S.faults source.old) }
    ensures fault { IsErrOf result WorkEnd.ReadFault → S.faults source.old < S.faults source.new }
    ensures memory { IsErrOf result WorkEnd.Memory → S.faults source.new ≡ S.faults source.old }
    ensures within { LosesAtMost (limit_of form) (S.left source.old) (S.left source.new) }
    ensures unread { asked.reads (Some form) ≡ false → source.new ≡ source.old }
{
    match form {
        Form::Run(_) => read_input(alloc, source, SCRIPT_BYTES),
        Form::Check => read_input(alloc, source, INPUT_BYTES),
        Form::Load(_) => Ok(Vec::new(alloc)),
    }
}

/// Reads the input, and works out what it has to answer.
fn work_out<R: Threads + Wait + Sync, S: Source, G: Gate + Sync>(
    rt: &R,
    alloc: Global,
    form: Form,
    source: &mut S,
    gate: &G,
) -> Result<Output, WorkEnd>
    requires known { asked.IsKnown form }
    requires faults { S.faults source.old < 2 ^ 64 - 1 }
    ensures ok { IfOk result (λ output. IsWorkedOut form (S.left source.old) (S.left source.new)
        output.status output.text.items output.history) }
    ensures quiet { OnOk result (S.faults source.new ≡ S.faults source.old) }
    ensures fault { IsErrOf result WorkEnd.ReadFault → S.faults source.old < S.faults source.new }
    ensures memory { IsErrOf result WorkEnd.Memory → S.faults source.new ≡ S.faults source.old }
    ensures within { LosesAtMost (limit_of form) (S.left source.old) (S.left source.new) }
    ensures unread { asked.reads (Some form) ≡ false → source.new ≡ source.old }
{
    let bytes = input_of(alloc, form, source)?;
    Ok(work(rt, alloc, form, bytes, gate)?)
}

/// Keeps the history where its output was written whole.
fn keep(status: Status, history: Option<History>, kept: &mut Option<History>)
    ensures { kept.new ≡ kept_after status history kept.old }
{
    if status == Status::Ok {
        *kept = history;
    }
}

/// The program, for its words without its own name.
///
/// `run` reads a script, runs its workers on threads, and writes the record of the run, and `run 2`
/// its record of version 2. `run tasks` does what `run` does, with all workers on this thread: each
/// is a task, and the tasks go on by turns. `check` reads a script, a line `---` and a record, and writes
/// `lawful N`, or the first line of the record that breaks a rule. `load N` runs the generated
/// script of N steps, and writes five numbers that its history comes to. A script that is refused
/// is answered by one line, `line N: CAUSE`. Other words are answered by the line that names the
/// forms. The work is done first, and the whole output is then written at once. `kept` holds the
/// history of the run. The call may wait for threads that it started.
pub fn k42_main<R: Threads + Wait + Sync, S: Source, K: Sink, G: Gate + Sync>(
    rt: &R,
    alloc: Global,
    words: &[String],
    source: &mut S,
    sink: &mut K,
    gate: &G,
    kept: &mut Option<History>,
) -> Status
    requires source { S.faults source.old < 2 ^ 64 - 1 }
    requires sink { K.faults sink.old < 2 ^ 64 - 1 }
    requires fresh { kept.old ≡ None }
    // What the status says of what was read, written and kept.
    ensures says { program.Says (asked.form_of (map string_bytes words.now))
        (record {
          left = S.left source.old;
          left_after = S.left source.new;
          taken = K.taken sink.old;
          taken_after = K.taken sink.new;
          read_faults = S.faults source.old;
          read_faults_after = S.faults source.new;
          write_faults = K.faults sink.old;
          write_faults_after = K.faults sink.new;
        }) kept.new result }
    // A history is kept exactly where a run was done and its output written whole.
    ensures kept { is_some kept.new
        ≡ program.keeps (asked.form_of (map string_bytes words.now)) result }
    // Which status comes where nothing failed. Words that read nothing need no bytes.
    ensures complete { (bytes : List ℕ) →
        (asked.reads (asked.form_of (map string_bytes words.now)) ≡ true →
        S.left source.old ≡ Some bytes) →
        S.faults source.new ≡ S.faults source.old → K.faults sink.new ≡ K.faults sink.old →
        program.Completes (asked.form_of (map string_bytes words.now)) bytes result }
    // What stands past the first byte that is one too many makes no difference to what is due.
    ensures enough { (form : Form) (bytes output : List ℕ) (status : Status)
        (history : Option HistorySeen) →
        program.IsDue (Some form) (take (limit_of form) bytes) status output history
        ↔ program.IsDue (Some form) bytes status output history }
    // No more is read than the first byte that is one too many.
    ensures within { (form : Form) → asked.form_of (map string_bytes words.now) ≡ Some form →
        LosesAtMost (limit_of form) (S.left source.old) (S.left source.new) }
    // For a load, and for words that are no form, nothing is read.
    ensures unread { asked.reads (asked.form_of (map string_bytes words.now)) ≡ false →
        source.new ≡ source.old }
    // What was written whole is held back nowhere.
    ensures flushed { result ≢ Status.ReadFault → result ≢ Status.Memory →
        result ≢ Status.WriteFault → K.flushed sink.new }
    // Where nothing is due, the sink is not touched.
    ensures untouched { (result ≡ Status.ReadFault) ⊎ (result ≡ Status.Memory) →
        sink.new ≡ sink.old }
{
    let Some(form) = form_of(words) else {
        return deliver(sink, USAGE.as_bytes(), Status::Usage);
    };
    match work_out(rt, alloc, form, source, gate) {
        Ok(output) => {
            let status = deliver(sink, &output.text, output.status);
            keep(status, output.history, kept);
            status
        }
        Err(WorkEnd::ReadFault) => Status::ReadFault,
        Err(WorkEnd::Memory) => Status::Memory,
    }
}
