//! A law of what lists merge to.
ghost use Rattle.std.specs.Prelude.{ℕ, List};
ghost use Rattle.k42_kinds.specs.declared.entry.Entry.{Entry};
ghost use Rattle.k42_stamp.specs.Lists.{AreLists, IsMergedFrom};
ghost use Rattle.k42_journal.specs.Merged.{merged_from};

/// The value that a journal shows is the merge of its lists.
pub fn a_journal_is_the_merge<O, R>()
    ensures { (first : ℕ) (lists : List (List (Entry O R))) → AreLists lists →
        IsMergedFrom first lists (merged_from first lists) }
{}
