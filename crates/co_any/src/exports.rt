//! The state for which a spread counter or spread pages stand, from parts of any kind.
ghost use Rattle.std.specs.Prelude.{◌≡◌, map, IfOk};
ghost use Rattle.co_counter.specs.Counters.{total_of};
ghost use Rattle.co_pages.specs.SpreadRows as spread_rows;
ghost use Rattle.co_any.specs.Layouts.{amount_of, places_of};

use crate::part::AnyPart;
use k42_kinds::PagesState;
use k42_memory::Memory;
use std::alloc::Global;

fn amount(part: &AnyPart) -> u64
    ensures { result ≡ amount_of part.now }
{
    match part {
        AnyPart::Amount(amount) => *amount,
        _ => 0,
    }
}

/// The sum of a counter's amounts, modulo 2^64.
pub(crate) fn total(parts: &[AnyPart]) -> u64
    ensures { result ≡ total_of (map amount_of parts.now) }
{
    let mut total = 0u64;
    for part in parts {
        total = total.wrapping_add(amount(part));
    }
    total
}

/// The pages of all cells together.
pub(crate) fn collected(alloc: Global, parts: &[AnyPart]) -> Result<PagesState, Memory>
    ensures { IfOk result (λ pages. pages ≡ spread_rows.collected (map places_of parts.now)) }
{
    let mut pages = PagesState::new(alloc);
    for part in parts {
        if let AnyPart::Places(places) = part {
            pages = places.put_into(pages)?;
        }
    }
    Ok(pages)
}
