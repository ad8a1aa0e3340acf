//! The law that lets the numbers of loads be compared from run to run.
ghost use Rattle.std.specs.Prelude.{◌≡◌, ◌≤◌, ℕ, List};
ghost use Rattle.k42_kinds.specs.declared.operation.Op.{Op};
ghost use Rattle.k42_kinds.specs.declared.operation.Reply.{Reply};
ghost use Rattle.k42_kinds.specs.declared.entry.Entry.{Entry};
ghost use Rattle.script_text.specs.Generated.{generated};
ghost use Rattle.script_text.specs.Lawful.{IsLawful};
ghost use Rattle.load_totals.specs.Loads as loads;

/// Each lawful history of a generated script comes to the same five numbers, whatever its order.
pub fn loads_come_to_their_numbers()
    ensures { (n : ℕ) (history : List (Entry Op Reply)) → n ≤ 10000 → IsLawful (generated n) history →
        loads.summary_of (loads.tallied history) ≡ loads.summary_due n }
{}
