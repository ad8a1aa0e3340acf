//! The counter of one thread.
ghost use Rattle.std.specs.Prelude.{◌≡◌};
ghost use Rattle.k42_kinds.specs.Objects.{counter_after, counter_reply};

use crate::operation::{Op, Reply};

/// One operation of a counter. Another kind's operation leaves it.
#[inline(always)]
pub fn step_counter(value: &mut u64, op: &Op) -> Reply
    ensures replied { result ≡ counter_reply value.old op.now }
    ensures moved { value.new ≡ counter_after value.old op.now }
{
    match op {
        Op::Add(amount) => {
            *value = value.wrapping_add(u64::from(*amount));
            Reply::Done
        }
        Op::Get => Reply::Number(*value),
        Op::Drain => {
            let drained = *value;
            *value = 0;
            Reply::Number(drained)
        }
        _ => Reply::Gone,
    }
}
