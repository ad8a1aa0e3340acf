//! A text is written whole, however little a sink takes at a time.
ghost use Rattle.std.specs.Prelude.{◌≡◌, ◌-◌, ◌^◌, ◌<◌, OnOk, OnErr};
ghost use Rattle.k42_io.specs.Sink.{Grows, GrowsByFront};

use crate::sink::Sink;
use crate::source::Failed;

/// Hands all bytes that are left to one write after the other, and flushes at the end.
pub fn write_all<K: Sink>(sink: &mut K, bytes: &[u8]) -> Result<(), Failed>
    requires { K.faults sink.old < 2 ^ 64 - 1 }
    ensures ok { OnOk result (Grows (K.taken sink.old) (K.taken sink.new) bytes.now) }
    ensures flushed { OnOk result (K.flushed sink.new) }
    ensures err { OnErr result (GrowsByFront (K.taken sink.old) (K.taken sink.new) bytes.now) }
    ensures failed { OnErr result (K.faults sink.old < K.faults sink.new) }
    ensures quiet { OnOk result (K.faults sink.new ≡ K.faults sink.old) }
{
    let mut done = 0;
    while done < bytes.len() {
        let count = sink.write(&bytes[done..])?;
        done += count;
    }
    sink.flush()
}
