//! The one call of the program: it reads the input, draws, and writes the output.
ghost use Rattle.std.specs.Prelude.{◌≡◌, ◌≢◌, ℕ, ◌-◌, ◌^◌, ◌<◌, ◌≤◌, ◌⊎◌, ◌↔◌, List, take, Some, None, IfOk, OnOk, IsErrOf, map, string_bytes};
ghost use Rattle.k42_io.specs.Source.{LosesAtMost};
ghost use Rattle.record_picture.specs.declared.window.TheConstants.{COLUMNS};
ghost use Rattle.k42_input.specs.Dues.{IsCheckDue};
ghost use Rattle.k42_input.specs.Verdicts.{input_limit};
ghost use Rattle.k42_view.specs.Program as program;
ghost use Rattle.k42_view.specs.Words as asked;

use crate::view::{Output, view};
use crate::words::window_of;
use k42_input::{Status, WorkEnd, deliver, read_input};
use k42_io::{Sink, Source};
use k42_limits::INPUT_BYTES;
use record_picture::Window;
use std::alloc::Global;

const USAGE: &str = "usage: k42-view [FROM COUNT] < input > record.svg\n";

/// Reads the input, and works out what there is to write.
fn work_out<S: Source>(alloc: Global, window: Window, source: &mut S) -> Result<Output, WorkEnd>
    requires window { window.count ≤ COLUMNS }
    requires faults { S.faults source.old < 2 ^ 64 - 1 }
    ensures ok { IfOk result (λ output. program.IsWorkedOut window
        (S.left source.old) (S.left source.new) output.status output.text.items) }
    ensures quiet { OnOk result (S.faults source.new ≡ S.faults source.old) }
    ensures fault { IsErrOf result WorkEnd.ReadFault → S.faults source.old < S.faults source.new }
    ensures memory { IsErrOf result WorkEnd.Memory → S.faults source.new ≡ S.faults source.old }
    ensures within { LosesAtMost input_limit (S.left source.old) (S.left source.new) }
{
    let bytes = read_input(alloc, source, INPUT_BYTES)?;
    Ok(view(alloc, window, &bytes)?)
}

/// The program, for its words without its own name.
///
/// It reads a script, a line `---` and a record, and writes the picture of the record as an SVG
/// document. Without words that shows the first 2,000 entries, and `FROM COUNT` so many from entry
/// FROM on, both numbers from 1. A record that is not lawful is drawn too, with the first entry that
/// breaks a rule in a frame. What is no record is answered by one line, `line N: rule 11`, and a
/// script that is refused by `line N: CAUSE`. Other words are answered by the line that names the
/// words. The work is done first, and the whole output is then written at once.
pub fn view_main<S: Source, K: Sink>(
    alloc: Global,
    words: &[String],
    source: &mut S,
    sink: &mut K,
) -> Status
    requires source { S.faults source.old < 2 ^ 64 - 1 }
    requires sink { K.faults sink.old < 2 ^ 64 - 1 }
    // What the status says of what was read and written.
    ensures says { program.Says (asked.window_of (map string_bytes words.now))
        (record {
          left = S.left source.old;
          left_after = S.left source.new;
          taken = K.taken sink.old;
          taken_after = K.taken sink.new;
          read_faults = S.faults source.old;
          read_faults_after = S.faults source.new;
          write_faults = K.faults sink.old;
          write_faults_after = K.faults sink.new;
        }) result }
    // Which status comes where nothing failed.
    ensures complete { (bytes : List ℕ) → S.left source.old ≡ Some bytes →
        S.faults source.new ≡ S.faults source.old → K.faults sink.new ≡ K.faults sink.old →
        program.Completes (asked.window_of (map string_bytes words.now)) bytes result }
    // For these words and one input just one output is due, with one status.
    ensures one { (bytes output other_output : List ℕ) (status other_status : Status) →
        program.IsDue (asked.window_of (map string_bytes words.now)) bytes status output →
        program.IsDue (asked.window_of (map string_bytes words.now)) bytes other_status
        other_output →
        (status ≡ other_status) × (output ≡ other_output) }
    // The status that is due is that with which `k42 check` answers the same input.
    ensures as_check { (window : Window) (bytes output : List ℕ) (status : Status) →
        program.IsDue (Some window) bytes status output →
        (line : List ℕ) × IsCheckDue bytes status line }
    // What stands past the first byte that is one too many makes no difference to what is due.
    ensures enough { (window : Window) (bytes output : List ℕ) (status : Status) →
        program.IsDue (Some window) (take input_limit bytes) status output
        ↔ program.IsDue (Some window) bytes status output }
    // No more is read than the first byte that is one too many.
    ensures within { LosesAtMost input_limit (S.left source.old) (S.left source.new) }
    // For words that ask for nothing, nothing is read.
    ensures unread { asked.window_of (map string_bytes words.now) ≡ None →
        source.new ≡ source.old }
    // What was written whole is held back nowhere.
    ensures flushed { result ≢ Status.ReadFault → result ≢ Status.Memory →
        result ≢ Status.WriteFault → K.flushed sink.new }
    // Where nothing is due, the sink is not touched.
    ensures untouched { (result ≡ Status.ReadFault) ⊎ (result ≡ Status.Memory) →
        sink.new ≡ sink.old }
{
    let Some(window) = window_of(words) else {
        return deliver(sink, USAGE.as_bytes(), Status::Usage);
    };
    match work_out(alloc, window, source) {
        Ok(output) => deliver(sink, &output.text, output.status),
        Err(WorkEnd::ReadFault) => Status::ReadFault,
        Err(WorkEnd::Memory) => Status::Memory,
    }
}
