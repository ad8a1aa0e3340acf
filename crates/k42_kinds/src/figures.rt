//! The law of what a watched object tells of its calls.
ghost use Rattle.std.specs.Prelude.{List};
ghost use Rattle.k42_kinds.specs.declared.entry.Entry.{Entry};
ghost use Rattle.k42_kinds.specs.declared.operation.KindName.{KindName};
ghost use Rattle.k42_kinds.specs.declared.operation.Op.{Op};
ghost use Rattle.k42_kinds.specs.declared.operation.Reply.{Reply};
ghost use Rattle.k42_kinds.specs.Figures.{TellsFigure};
ghost use Rattle.k42_kinds.specs.Histories.{AtEachPlace};
ghost use Rattle.k42_kinds.specs.Legal.{IsLegalHistory};

/// Each `seen` of a legal history of watched objects is told its figure, which the entries before
/// it say alone, across any number of ordinary swaps.
pub fn what_is_told_is_the_figure()
    ensures { (kinds : List KindName) (history : List (Entry Op Reply)) →
        IsLegalHistory kinds history → AtEachPlace TellsFigure history }
{}
