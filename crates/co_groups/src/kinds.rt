//! The layouts with a cell for each processor.
ghost use Rattle.std.specs.Prelude.{refl};
ghost use Rattle.std.proofs.Common.{arith};
ghost use Rattle.k42_kinds.specs.declared.operation.Reply.TheVariants.{Gone};

use crate::spread::Spread;
use co_counter::SpreadCounter;
use co_directory::SpreadDirectory;
use co_pages::SpreadPages;
use k42_kinds::Reply;

impl Spread for SpreadCounter {
    ghost gone = { Gone };

    fn gone() -> Reply {
        Reply::Gone
    }

    ghost each = { λ _. refl };

    ghost numbered = { λ _. omega arith };

    ghost one_end = { λ _ other same. refl };

    ghost one_tag = { λ _ other. refl };
}

impl Spread for SpreadDirectory {
    ghost gone = { Gone };

    fn gone() -> Reply {
        Reply::Gone
    }

    ghost each = { λ _. refl };

    ghost numbered = { λ _. omega arith };

    ghost one_end = { λ _ other same. refl };

    ghost one_tag = { λ _ other. refl };
}

impl Spread for SpreadPages {
    ghost gone = { Gone };

    fn gone() -> Reply {
        Reply::Gone
    }

    ghost each = { λ _. refl };

    ghost numbered = { λ _. omega arith };

    ghost one_end = { λ _ other same. refl };

    ghost one_tag = { λ _ other. refl };
}
