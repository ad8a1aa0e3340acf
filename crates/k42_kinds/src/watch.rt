//! What a layer round an object does beside it: it counts calls, and tells how many.
ghost use Rattle.std.specs.Prelude.{◌≡◌};
ghost use Rattle.k42_kinds.specs.Watched.{is_seen, counted, told};

use crate::operation::{Op, Reply};

/// The state of an object of one thread and of the layer round it, which counts where `seen` is
/// some.
#[derive(Debug, Drop)]
pub struct WatchState<S> {
    pub inner: S,
    pub seen: Option<u64>,
}

/// Whether the operation asks for the count.
pub fn is_seen(op: &Op) -> bool
    ensures { result ≡ is_seen op.now }
{
    matches!(op, Op::Seen)
}

/// The count after one more call.
pub fn counted(seen: Option<u64>) -> Option<u64>
    ensures { result ≡ counted seen }
{
    match seen {
        Some(count) => Some(count.wrapping_add(1)),
        None => None,
    }
}

/// What is told of the count.
pub fn told(dead: bool, seen: Option<u64>) -> Reply
    ensures { result ≡ told dead seen }
{
    match seen {
        _ if dead => Reply::Gone,
        Some(count) => Reply::Number(count),
        None => Reply::None,
    }
}
