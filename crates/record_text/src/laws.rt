//! Laws of records: text and value belong to one another, and the rules make a record lawful.
ghost use Rattle.std.specs.Prelude.{◌≡◌, ◌↔◌, ◌<◌, ◌^◌, ℕ, List, length, Ok, Err};
ghost use Rattle.k42_kinds.specs.declared.operation.Op.{Op};
ghost use Rattle.k42_kinds.specs.declared.operation.Reply.{Reply};
ghost use Rattle.k42_kinds.specs.declared.entry.Entry.{Entry};
ghost use Rattle.script_text.specs.Lawful.{IsLawful};
ghost use Rattle.script_text.specs.Sound.{HasDistinctNames};
ghost use Rattle.record_text.specs.Alike.{AreAlike};
ghost use Rattle.record_text.specs.Histories.{record_of, history_text};
ghost use Rattle.record_text.specs.Openings.{LeavesRecordsAt, IsMadeOfLines};
ghost use Rattle.record_text.specs.Reading.{reading};
ghost use Rattle.record_text.specs.Rules.{IsFirstFault, IsLawfulRecord, KeepsRules};
ghost use Rattle.record_text.specs.Spelling.{HasText};
ghost use Rattle.record_text.specs.Texts.{record_text};
ghost use Rattle.record_text.specs.Values.{FitsRecord};

use crate::record::Record;
use script_text::Script;

/// The text of a record is read as this very record.
pub fn printed_is_read()
    ensures { (script : Script) (written : Record) → HasDistinctNames script →
        HasText script written → FitsRecord written →
        reading script (record_text script written) ≡ Ok written }
{}

/// What is read as a record is its text, each byte of it.
pub fn read_is_printed()
    ensures text { (script : Script) (bytes : List ℕ) (written : Record) →
        reading script bytes ≡ Ok written → record_text script written ≡ bytes }
    ensures spelled { (script : Script) (bytes : List ℕ) (written : Record) →
        reading script bytes ≡ Ok written → HasText script written }
{}

/// Where the names of a script are distinct, no two of its records have one text.
pub fn two_records_have_two_texts()
    ensures { (script : Script) (one other : Record) → HasDistinctNames script →
        HasText script one → FitsRecord one → HasText script other → FitsRecord other →
        record_text script one ≡ record_text script other → one ≡ other }
{}

/// The text of a record is its lines: one for each entry and two more, none of them empty, each
/// ended by its only line feed.
pub fn a_record_is_its_lines()
    ensures { (script : Script) (written : Record) → HasDistinctNames script →
        HasText script written → FitsRecord written →
        IsMadeOfLines (record_text script written) (length written.lines) }
{}

/// A text is refused at a line exactly where this is the first line with which it opens no record.
pub fn the_first_foreign_line_is_refused()
    ensures { (script : Script) (bytes : List ℕ) (line : ℕ) → HasDistinctNames script →
        length bytes < 2 ^ 64 →
        (reading script bytes ≡ Err line ↔ LeavesRecordsAt script bytes line) }
{}

/// Two lawful histories of one text are of one version, and the same but for what it does not show.
pub fn a_text_has_one_history()
    ensures { (script : Script) (one other : List (Entry Op Reply)) (version other_version : ℕ) →
        HasDistinctNames script → IsLawful script one → IsLawful script other →
        HasText script (record_of script one version) →
        FitsRecord (record_of script one version) →
        HasText script (record_of script other other_version) →
        FitsRecord (record_of script other other_version) →
        history_text script one version ≡ history_text script other other_version →
        (version ≡ other_version) × AreAlike version one other }
{}

/// What a text does not show makes no other text.
pub fn alike_histories_have_one_text()
    ensures { (script : Script) (version : ℕ) (one other : List (Entry Op Reply)) →
        AreAlike version one other →
        history_text script one version ≡ history_text script other version }
{}

/// A record is lawful exactly where each of its lines keeps each rule and none is missing.
pub fn rules_make_records_lawful()
    ensures { (script : Script) (written : Record) → HasText script written →
        (KeepsRules script written.lines ↔ IsLawfulRecord script written) }
{}

/// A lawful record has no fault.
pub fn lawful_records_have_no_fault()
    ensures { (script : Script) (written : Record) (line rule : ℕ) →
        IsLawfulRecord script written → IsFirstFault script written line rule → ⊥ }
{}

/// A record has at most one first fault.
pub fn first_faults_are_one()
    ensures { (script : Script) (written : Record) (line rule other_line other_rule : ℕ) →
        IsFirstFault script written line rule →
        IsFirstFault script written other_line other_rule →
        (line ≡ other_line) × (rule ≡ other_rule) }
{}
