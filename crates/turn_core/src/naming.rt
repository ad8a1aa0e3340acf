//! Lists of cells by their numbers.
ghost use Rattle.std.specs.Prelude.{◌≡◌, not, ◌==◌, ◌++◌, length, IfOk};
ghost use Rattle.std.specs.List.{filter};
ghost use Rattle.turn_core.specs.Names.{names, names_once};

use k42_memory::Memory;
use std::alloc::Global;

/// Whether the list names the cell.
pub(crate) fn is_named(cells: &[u32], n: u32) -> bool
    ensures { result ≡ names cells.now n }
{
    cells.iter().any(|cell| *cell == n)
}

/// Whether no cell is named twice.
pub(crate) fn is_named_once(cells: &[u32]) -> bool
    ensures { result ≡ names_once cells.now }
{
    match cells.split_first() {
        None => true,
        Some((first, rest)) => !is_named(rest, *first) && is_named_once(rest),
    }
}

/// The list without the cell.
pub(crate) fn forget(cells: &mut Vec<u32>, n: u32)
    ensures { cells.new.items ≡ filter (λ m. not (m == n)) cells.old.items }
{
    cells.retain(|cell| *cell != n);
}

/// The cells of both lists, the first list's first.
pub(crate) fn named_in_both(alloc: Global, from: &[u32], onto: &[u32]) -> Result<Vec<u32>, Memory>
    ensures { IfOk result (λ both. both.items ≡ from.now ++ onto.now) }
{
    let mut both = Vec::with_capacity(alloc, from.len().saturating_add(onto.len()))?;
    both.extend_from_slice(from)?;
    both.extend_from_slice(onto)?;
    Ok(both)
}
