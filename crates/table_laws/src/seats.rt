//! Seats that are parted or gathered leave the state: those of passes as a system starts and ends, and what a seat
//! tells of a cell.
ghost use Rattle.std.specs.Prelude.{◌≡◌, ℕ, List, [], ◌∷◌, ◌++◌};
ghost use Rattle.k42_board.specs.Drawing.{untold_view};
ghost use Rattle.k42_board.specs.Receipts.{after_first, first_told};
ghost use Rattle.k42_board.specs.Stepping.{layouts_in};
ghost use Rattle.k42_board.specs.declared.view.PassView.{PassView};
ghost use Rattle.k42_board.specs.declared.view.View.TheVariants.{Crew};
ghost use Rattle.table_laws.specs.Seating.{JoinStays, SplitStays};

use k42_kinds::Layout;
use k42_rule::Sys;

/// The first pass of a seat that has several gets a seat of its own.
pub fn dealing_leaves_the_state<L: Layout>(sys: &Sys<L>)
    ensures { (id : ℕ) (v : PassView L.Part L.Op L.Reply) (rest : List (PassView L.Part L.Op L.Reply)) → v.rows ≡ []
        → SplitStays
        (layouts_in L.Layout sys.now)
        sys.now.layouts id (Crew (v ∷ rest)) (Crew rest) (Crew (v ∷ [])) }
{
    let _ = sys.procs();
}

/// The passes of two seats go to the one.
pub fn gathering_leaves_the_state<L: Layout>(sys: &Sys<L>)
    ensures { (id other : ℕ) (ours theirs : List (PassView L.Part L.Op L.Reply))
        → JoinStays
        (layouts_in L.Layout sys.now)
        sys.now.layouts id (Crew ours) other (Crew theirs) (Crew (ours ++ theirs)) }
{
    let _ = sys.procs();
}

/// A cell at which a pass has drawn gets a seat that tells of it what the pass has noted.
pub fn telling_leaves_the_state<L: Layout>(sys: &Sys<L>)
    ensures { (id : ℕ) (v : PassView L.Part L.Op L.Reply)
        → SplitStays
        (layouts_in L.Layout sys.now)
        sys.now.layouts id (Crew (v ∷ [])) (Crew (untold_view (after_first v.untold) v ∷ []))
        (first_told v.notes v.untold) }
{
    let _ = sys.procs();
}
