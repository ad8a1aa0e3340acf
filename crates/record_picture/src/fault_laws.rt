ghost use Rattle.std.specs.Prelude.{◌≡◌, ℕ, List, [], ◌++◌, ◌+◌, ◌<◌, ◌≢◌, length, codes, slice_get, Some};
ghost use Rattle.std.specs.Fmt.{decimal};
ghost use Rattle.k42_kinds.specs.declared.operation.Reply.{Reply};
ghost use Rattle.k42_kinds.specs.declared.entry.Answer.{Answer};
ghost use Rattle.k42_kinds.specs.declared.entry.Act.TheVariants.{Call};
ghost use Rattle.k42_kinds.specs.declared.operation.Op.{Op};
ghost use Rattle.record_text.specs.Rules.{rule_number, rule_of_act, rule_of_answer};
ghost use Rattle.record_picture.specs.Faults.{fault};
ghost use Rattle.record_picture.specs.Marked.{FramesBox, VeilsBehind, answer_meaning, fault_words};
ghost use Rattle.record_picture.specs.Picture.{picture};
ghost use Rattle.record_picture.specs.Placed.{StandsIn};
ghost use Rattle.record_picture.specs.Windows.{shown};
ghost use Rattle.record_picture.specs.declared.verdict.Verdict.TheVariants.{Lawful, Unlawful};

use crate::window::Window;
use record_text::{Record, RecordLine};
use script_text::Script;

/// Where the line of an entry that is shown breaks a rule, a frame stands around its box and around
/// no other. The first entry has line 2 of the record.
pub fn the_faulty_entry_is_framed()
    ensures { (script : Script) (written : Record) (window : Window) (place rule : ℕ)
        (line : RecordLine) → slice_get (shown window written.lines) place ≡ Some line →
        (text : List ℕ) × FramesBox place line.worker text
        × StandsIn text
        (picture script written (Unlawful (window.before + place + 2) rule) window) }
{}

/// A veil lies over the boxes of all entries behind it that are shown, and over no other box.
pub fn what_stands_behind_the_faulty_entry_is_veiled()
    ensures { (script : Script) (written : Record) (window : Window) (place rule : ℕ)
        (line : RecordLine) → slice_get (shown window written.lines) place ≡ Some line →
        (text : List ℕ)
        × VeilsBehind place (length (shown window written.lines)) (length script.workers) text
        × StandsIn text
        (picture script written (Unlawful (window.before + place + 2) rule) window) }
{}

/// Nothing is marked where no line breaks a rule, or none of an entry that is shown.
pub fn no_other_entry_is_marked()
    ensures lawful { (lanes before : ℕ) (lines : List RecordLine) →
        fault lanes before lines Lawful ≡ [] }
    ensures elsewhere { (lanes before : ℕ) (lines : List RecordLine) (line rule : ℕ) →
        ((place : ℕ) → place < length lines → line ≢ before + place + 2) →
        fault lanes before lines (Unlawful line rule) ≡ [] }
{}

/// Above the picture stands what is found of the record, and of a broken rule what it means. Which
/// rule an answer breaks is said by the act and the answer.
pub fn the_verdict_is_told_in_words()
    ensures lawful { (script : Script) (written : Record) (window : Window) →
        StandsIn (codes "'>lawful " ++ decimal (length written.lines) ++ codes "</text>")
        (picture script written Lawful window) }
    ensures calls { (script : Script) (written : Record) (window : Window) (line : ℕ)
        (op : Op) (answer : Answer Reply) →
        StandsIn
        (fault_words line (rule_number (rule_of_act (Call op) answer))
        (codes "the object would not have replied so"))
        (picture script written (Unlawful line (rule_number (rule_of_act (Call op) answer)))
        window) }
    ensures swaps { (script : Script) (written : Record) (window : Window) (line : ℕ)
        (answer : Answer Reply) →
        StandsIn
        (fault_words line (rule_number (rule_of_answer answer)) (answer_meaning answer))
        (picture script written (Unlawful line (rule_number (rule_of_answer answer))) window) }
    ensures stamps { (script : Script) (written : Record) (window : Window) (line : ℕ) →
        StandsIn (fault_words line 2 (codes "the stamp is not the number of the entry"))
        (picture script written (Unlawful line 2) window) }
    ensures order { (script : Script) (written : Record) (window : Window) (line : ℕ) →
        StandsIn
        (fault_words line 8
        (codes "not the next line of its worker, or lines are missing at the end"))
        (picture script written (Unlawful line 8) window) }
    ensures generations { (script : Script) (written : Record) (window : Window) (line : ℕ) →
        StandsIn
        (fault_words line 21
        (codes "not the processor of the worker, or the generation is out of step"))
        (picture script written (Unlawful line 21) window) }
{}
