//! Rows that change hands leave the state: a push splits a seat off for the row, a pop takes that seat in, and a push
//! that found no memory takes it back.
ghost use Rattle.std.specs.Prelude.{◌≡◌, ◌<◌, ◌≤◌, ℕ, Bool, true, if◌then◌else◌, [], ◌∷◌, length};
ghost use Rattle.k42_board.specs.Phases.{IsGranted};
ghost use Rattle.k42_board.specs.Queueing.{newest, with_again, with_newest, without_newest};
ghost use Rattle.k42_board.specs.Stepping.{layouts_in};
ghost use Rattle.k42_board.specs.Steps.{StateStays};
ghost use Rattle.k42_board.specs.declared.view.PassView.{PassView};
ghost use Rattle.k42_board.specs.declared.view.Row.{Row};
ghost use Rattle.k42_board.specs.declared.view.View.TheVariants.{Crew, Named};
ghost use Rattle.table_laws.specs.Seating.{JoinStays, SplitStays};

use k42_kinds::Layout;
use k42_rule::Sys;

/// A pass that splits a seat off for its newest row leaves the state.
pub fn naming_leaves_the_state<L: Layout>(sys: &Sys<L>)
    ensures { (id : ℕ) (v : PassView L.Part L.Op L.Reply) → 0 < length v.rows
        → SplitStays
        (layouts_in L.Layout sys.now)
        sys.now.layouts id (Crew (v ∷ [])) (Crew (without_newest v ∷ [])) (Named (newest v.rows)) }
{
    let _ = sys.procs();
}

/// So does one that takes in the seat of a row, which it holds then as its newest.
pub fn taking_in_leaves_the_state<L: Layout>(sys: &Sys<L>)
    ensures { (id other : ℕ) (v : PassView L.Part L.Op L.Reply) (row : Row) → v.granted ≤ length v.rows
        → JoinStays
        (layouts_in L.Layout sys.now)
        sys.now.layouts id (Crew (v ∷ [])) other (Named row) (Crew (with_newest row v ∷ [])) }
{
    let _ = sys.procs();
}

/// Or takes the row back, as a granted one where all that it holds are granted.
pub fn taking_back_leaves_the_state<L: Layout>(sys: &Sys<L>)
    ensures { (id other : ℕ) (v : PassView L.Part L.Op L.Reply) (row : Row) (granted : Bool) → v.granted ≤ length v.rows
        → (granted ≡ true → v.granted ≡ length v.rows) → (granted ≡ true → IsGranted v.visitor.noted row)
        → JoinStays
        (layouts_in L.Layout sys.now)
        sys.now.layouts id (Crew (v ∷ [])) other (Named row)
        (Crew (with_again row (if granted then 1 else 0) v ∷ [])) }
{
    let _ = sys.procs();
}

/// And one that reads a word and keeps its view, as it does before a push and after a pop.
pub fn reading_leaves_the_state<L: Layout>(sys: &Sys<L>)
    ensures { (word id found : ℕ) (v : PassView L.Part L.Op L.Reply)
        → StateStays (layouts_in L.Layout sys.now) sys.now.layouts word (λ n. n) id v found v }
{
    let _ = sys.procs();
}
