//! Rows of parts that count: read at all cells, taken apart and put together again.
ghost use Rattle.std.specs.Prelude.{◌≡◌, ◌+◌, ◌++◌, ◌≤◌, length, vec_len, vec_capacity, IfOk, if◌then◌else◌};
ghost use Rattle.k42_kinds.specs.Rows.{changed_at};
ghost use Rattle.k42_kinds.specs.Watched.{counted};
ghost use Rattle.k42_watch.specs.WatchedRows as rows;

use crate::watch::WatchPart;
use k42_kinds::counted;
use k42_memory::Memory;
use std::alloc::Global;

/// What all parts have counted together, modulo 2^64.
pub(crate) fn count_of<P>(parts: &[WatchPart<P>]) -> Option<u64>
    ensures { result ≡ rows.count_of (rows.seens parts.now) }
{
    let first = parts.first()?;
    first.seen?;
    let mut total = 0u64;
    for part in parts {
        if let Some(count) = part.seen {
            total = total.wrapping_add(count);
        }
    }
    Some(total)
}

/// Takes the parts apart, behind those that were taken.
pub(crate) fn take_apart<P: Drop>(
    parts: Vec<WatchPart<P>>,
    inners: &mut Vec<P>,
    seens: &mut Vec<Option<u64>>,
)
    requires inners { vec_len inners.old + vec_len parts ≤ vec_capacity inners.old }
    requires seens { vec_len seens.old + vec_len parts ≤ vec_capacity seens.old }
    ensures inners { inners.new.items ≡ inners.old.items ++ rows.inners parts.items }
    ensures seens { seens.new.items ≡ seens.old.items ++ rows.seens parts.items }
{
    for part in parts {
        inners.push_reserved(part.inner);
        seens.push_reserved(part.seen);
    }
}

/// An operation at all cells counts at the first.
fn count_first(seens: &mut [Option<u64>])
    ensures { seens.new ≡ changed_at counted seens.old 0 }
{
    if let Some((first, _others)) = seens.split_first_mut() {
        *first = counted(*first);
    }
}

/// The same of one that was made.
pub(crate) fn count_made(made: bool, seens: &mut Vec<Option<u64>>)
    ensures { seens.new.items ≡ (if made then changed_at counted seens.old.items 0 else seens.old.items) }
{
    if made {
        count_first(seens);
    }
}

/// Puts parts together, behind those that are there.
pub(crate) fn put_together<P: Drop>(
    inners: Vec<P>,
    seens: &[Option<u64>],
    parts: &mut Vec<WatchPart<P>>,
)
    requires { vec_len parts.old + vec_len inners ≤ vec_capacity parts.old }
    ensures { parts.new.items ≡ parts.old.items ++ rows.rejoined inners.items seens.now }
{
    let mut rest = seens;
    for inner in inners {
        let mut seen = None;
        if let Some((first, others)) = rest.split_first() {
            seen = *first;
            rest = others;
        }
        parts.push_reserved(WatchPart { inner, seen });
    }
}

/// Parts that have a count together: the first has it, and the others count from 0.
pub(crate) fn shared_out<P: Drop>(
    alloc: Global,
    seen: Option<u64>,
    inners: Vec<P>,
) -> Result<Vec<WatchPart<P>>, Memory>
    ensures { IfOk result (λ parts. parts.items ≡ rows.shared_out seen inners.items) }
{
    let mut parts = Vec::new(alloc);
    let mut seen = seen;
    for inner in inners {
        parts.push(WatchPart { inner, seen })?;
        seen = from_zero(seen);
    }
    Ok(parts)
}

/// With what the parts behind the first one start.
fn from_zero(seen: Option<u64>) -> Option<u64>
    ensures { result ≡ rows.from_zero seen }
{
    match seen {
        Some(_) => Some(0),
        None => None,
    }
}
