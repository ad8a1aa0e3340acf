//! Laws, each on a function that does nothing.
ghost use Rattle.std.specs.Prelude.{ℕ, List, Result};
ghost use Rattle.k42_kinds.specs.declared.entry.To.{To};
ghost use Rattle.k42_places.specs.Places.{EachPair};
ghost use Rattle.co_system.specs.Systems.{SystemSeen, SystemPass};
ghost use Rattle.k42_runtime.specs.declared.swaps.NoSwap.{NoSwap};
ghost use Rattle.k42_runtime.specs.declared.swaps.Swapped.{Swapped};
ghost use Rattle.swap_future.specs.Rolling.{HasRolled, items_of, new_roll};
ghost use Rattle.swap_future.specs.Told.{HasBroughtBack};

/// What a roll leaves of its passes, one by one: each is the same caller's, has begun at most one grace for each item that it
/// took, and has drawn their entries. One for each item that is `Ok`, in order; for one without memory none, or one that tells
/// that it was given up; for one of a pass that was worn out none.
pub fn each_pass_draws_the_entries_of_its_items()
    ensures { (system : SystemSeen) (plan : List (ℕ × To)) (olds news : List SystemPass) (answers : List (Result Swapped NoSwap))
        → (is : HasRolled system (new_roll plan olds) answers news)
        → EachPair (λ place. HasBroughtBack plan answers (items_of place 0 is.takers)) olds news }
{}
