//! Laws of whole texts: numbers, lines, the first offence, and how a worker does its lines.
ghost use Rattle.std.specs.Prelude.{◌≡◌, ◌+◌, ◌^◌, ◌<◌, ◌↔◌, ℕ, true, List, ◌∷◌, ◌++◌, length, Some, Err};
ghost use Rattle.std.specs.List.{concat};
ghost use Rattle.std.specs.Fmt.{decimal};
ghost use Rattle.k42_kinds.specs.declared.operation.Op.{Op};
ghost use Rattle.k42_kinds.specs.declared.operation.Reply.{Reply};
ghost use Rattle.k42_kinds.specs.declared.entry.Entry.{Entry};
ghost use Rattle.script_text.specs.Lawful.{call_lines, DoesItsLines, DoesInOrder};
ghost use Rattle.script_text.specs.Lines.{lines_of, AreLines};
ghost use Rattle.script_text.specs.Numbers.{number_of};
ghost use Rattle.script_text.specs.Language.{parsed, cause_of, NoneOffends, fault_at, last_number, script_after, script_at_end};
ghost use Rattle.script_text.specs.declared.fault.ScriptCause.{ScriptCause};
ghost use Rattle.script_text.specs.declared.script.WorkerLines.{WorkerLines};

/// A text is a number below 2^64 exactly where it is that number in decimal.
pub fn numbers_are_decimal()
    ensures { (bytes : List ℕ) (n : ℕ) → n < 2 ^ 64 →
        (number_of bytes ≡ Some n) ↔ (bytes ≡ decimal n) }
{}

/// The lines of a text, one behind the other, are the text. Each but the last ends in its only line
/// feed, none is empty, and no other lines make the text.
pub fn lines_make_the_text()
    ensures whole { (bytes : List ℕ) → concat (lines_of bytes) ≡ bytes }
    ensures exactly { (bytes : List ℕ) (lines : List (List ℕ)) →
        (lines_of bytes ≡ lines) ↔ (AreLines lines × (concat lines ≡ bytes)) }
{}

/// A worker does what its lines ask exactly where its entries are in order for a list that has one
/// entry for each line, with the line's object and act.
pub fn a_worker_does_its_lines_in_order()
    ensures { (history : List (Entry Op Reply)) (number : ℕ) (worker : WorkerLines) →
        DoesItsLines history number worker
        ↔ DoesInOrder history number (call_lines worker.items) }
{}

/// The first line that offends decides, by its first cause, and where none does, the end of the
/// text.
pub fn first_offence_decides()
    ensures refused { (bytes line : List ℕ) (before after : List (List ℕ)) (cause : ScriptCause) →
        lines_of bytes ≡ before ++ line ∷ after → NoneOffends before →
        cause_of before line ≡ Some cause →
        parsed bytes ≡ Err (fault_at (length before + 1) cause) }
    ensures at_end { (bytes : List ℕ) → NoneOffends (lines_of bytes) →
        parsed bytes
        ≡ script_at_end (last_number (lines_of bytes)) (script_after (lines_of bytes)) }
{}
