//! What a pass has drawn, and what it keeps of that.
ghost use Rattle.std.specs.Prelude.{◌≡◌, ◌<◌, ◌≤◌, ◌-◌, ℕ, List, [], ◌∷◌, ◌++◌, drop, length};
ghost use mathlib.Core.Option.{some};
ghost use lib.ListN.{get_elem?};
ghost use Rattle.atomic_table.specs.Table.{State};
ghost use Rattle.k42_kinds.specs.declared.entry.Entry.{Entry};
ghost use Rattle.k42_board.specs.Cells.{Slot};
ghost use Rattle.k42_board.specs.Rule.{Rule};
ghost use Rattle.k42_board.specs.Drawing.{stamp_next};
ghost use Rattle.k42_board.specs.Seen.{IsParted, Keeping, kept_by, kept_with};
ghost use Rattle.k42_board.specs.Stepping.{layouts_in};
ghost use Rattle.k42_board.specs.declared.view.PassView.{PassView};
ghost use Rattle.k42_board.specs.declared.view.View.{View};
ghost use Rattle.k42_board.specs.declared.view.View.TheVariants.{Crew};
ghost use Rattle.table_laws.specs.Kept.{IsOwnList};

use k42_kinds::{Layout, Packed, PackedReply};
use k42_rule::{Sys, Walker};

/// In whatever state the table shows, the stamps of what a pass has drawn rise, and each entry is the pass's own, at its
/// index.
pub fn what_was_drawn_rises<L: Layout>(sys: &Sys<L>)
    ensures { (table : State (Slot L.Part L.Op L.Reply) (View L.Part L.Op L.Reply))
        (rule : Rule (layouts_in L.Layout sys.now) sys.now.layouts table)
        (id : ℕ) (v : PassView L.Part L.Op L.Reply) → get_elem? table.views id ≡ some (Crew (v ∷ []))
        → IsOwnList v.number v.taker.mine }
{
    let _ = sys.procs();
}

/// What is kept after a draw is what is kept of the list with the entry, whatever is kept.
pub fn what_is_kept_follows_the_draws<O, R>()
    ensures { (keep : Keeping) (mine : List (Entry O R)) (entry : Entry O R) → keep.given ≤ length mine
        → kept_with keep.what (kept_by keep mine) entry ≡ kept_by keep (mine ++ entry ∷ []) }
{}

/// It is the end of what was drawn.
pub fn what_is_kept_is_the_end<O, R>()
    ensures { (keep : Keeping) (mine : List (Entry O R))
        → kept_by keep mine ≡ drop (length mine - length (kept_by keep mine)) mine }
{}

/// What a pass has given to sections and what it has left are parted by the stamp of the last section, and whatever it
/// draws next is later than that.
pub fn what_follows_a_section_is_later<P: Drop, O: Packed, R: PackedReply>(pass: &Walker<P, O, R>)
    ensures parted { IsParted pass.now.keep pass.now.view.taker.mine }
    ensures drawn { (cells : List ℕ) → pass.now.keep.since < stamp_next pass.now.view cells }
{
    let _ = (pass.given(), pass.since());
}
