//! The way of each layout's own part to a part of any kind and back.
ghost use Rattle.std.specs.Prelude.{◌≡◌};
ghost use Rattle.co_any.specs.declared.part.AnyPart.{AnyPart};
ghost use Rattle.co_any.specs.declared.part.AnyPart.TheVariants as parts;
ghost use Rattle.co_any.specs.Layouts as any;

use crate::part::AnyPart;
use co_directory::IndexedNames;
use co_pages::Places;
use k42_kinds::{DirectoryState, PagesState};
use std::alloc::Global;

/// A part of one layout, which stands among the parts of all.
pub(crate) trait Own: Drop + Sized {
    ghost part_of: { Self → AnyPart };

    ghost own_part: { AnyPart → Self };

    fn stand(self) -> AnyPart
        ensures { result ≡ part_of self };

    /// The part again; an empty one where another layout's part stands.
    fn own(alloc: Global, part: AnyPart) -> Self
        ensures { result ≡ own_part part };
}

impl Own for u64 {
    ghost part_of = { parts.Amount };

    ghost own_part = { any.amount_of };

    fn stand(self) -> AnyPart {
        AnyPart::Amount(self)
    }

    fn own(_alloc: Global, part: AnyPart) -> Self {
        match part {
            AnyPart::Amount(amount) => amount,
            _ => 0,
        }
    }
}

impl Own for IndexedNames {
    ghost part_of = { parts.Indexed };

    ghost own_part = { any.indexed_of };

    fn stand(self) -> AnyPart {
        AnyPart::Indexed(self)
    }

    fn own(alloc: Global, part: AnyPart) -> Self {
        match part {
            AnyPart::Indexed(names) => names,
            _ => IndexedNames::new(alloc),
        }
    }
}

impl Own for DirectoryState {
    ghost part_of = { parts.Copy };

    ghost own_part = { any.copy_of };

    fn stand(self) -> AnyPart {
        AnyPart::Copy(self)
    }

    fn own(alloc: Global, part: AnyPart) -> Self {
        match part {
            AnyPart::Copy(names) => names,
            _ => DirectoryState::new(alloc),
        }
    }
}

impl Own for PagesState {
    ghost part_of = { parts.Pages };

    ghost own_part = { any.pages_of };

    fn stand(self) -> AnyPart {
        AnyPart::Pages(self)
    }

    fn own(alloc: Global, part: AnyPart) -> Self {
        match part {
            AnyPart::Pages(pages) => pages,
            _ => PagesState::new(alloc),
        }
    }
}

impl Own for Places {
    ghost part_of = { parts.Places };

    ghost own_part = { any.places_of };

    fn stand(self) -> AnyPart {
        AnyPart::Places(self)
    }

    fn own(alloc: Global, part: AnyPart) -> Self {
        match part {
            AnyPart::Places(places) => places,
            _ => Places::new(alloc, 0, 1),
        }
    }
}
