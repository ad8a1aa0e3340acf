//! Laws of lines: what one written with single spaces says, and what it adds to the script.
ghost use Rattle.std.specs.Prelude.{◌≡◌, ◌<◌, ◌≤◌, ◌∷◌, ◌++◌, ℕ, List, [], length, All, Some, codes};
ghost use Rattle.k42_kinds.specs.declared.operation.Op.{Op};
ghost use Rattle.k42_kinds.specs.declared.entry.Act.{Act};
ghost use Rattle.k42_limits.specs.declared.TheConstants.{PROCESSORS, SPACE};
ghost use Rattle.script_text.specs.Acts.{act_tokens};
ghost use Rattle.script_text.specs.Language.{with_line, with_object, with_worker, with_last_item};
ghost use Rattle.script_text.specs.Offences.{object_names, place_among};
ghost use Rattle.script_text.specs.Sound.{IsFreeName};
ghost use Rattle.script_text.specs.Spelled as spelled;
ghost use Rattle.script_text.specs.Spelled.{spaces, spaced, IsToken, IsInRange};
ghost use Rattle.script_text.specs.Tokens.{tokens_of};
ghost use Rattle.script_text.specs.declared.script.Item.{Item};
ghost use Rattle.script_text.specs.declared.script.Item.TheVariants as items;
ghost use Rattle.script_text.specs.declared.script.ObjectLine.{ObjectLine};
ghost use Rattle.script_text.specs.declared.script.Script.{Script};
ghost use Rattle.script_text.specs.declared.script.WorkerHead.{WorkerHead};
ghost use Rattle.script_text.specs.declared.script.WorkerLines.{WorkerLines};

/// A space parts the tokens in front of it from those behind it.
pub fn a_space_parts_tokens()
    ensures { (text rest : List ℕ) →
        tokens_of (text ++ SPACE ∷ rest) ≡ tokens_of text ++ tokens_of rest }
{}

/// Tokens with one space between each two are these tokens, and more spaces change nothing.
pub fn spaced_tokens_are_tokens()
    ensures one_space { (tokens : List (List ℕ)) → All IsToken tokens →
        tokens_of (spaced tokens) ≡ tokens }
    ensures in_front { (n : ℕ) (text : List ℕ) → tokens_of (spaces n ++ text) ≡ tokens_of text }
    ensures at_the_end { (n : ℕ) (text : List ℕ) → tokens_of (text ++ spaces n) ≡ tokens_of text }
    ensures between { (n : ℕ) (text rest : List ℕ) → 0 < n →
        tokens_of (text ++ (spaces n ++ rest)) ≡ tokens_of (text ++ SPACE ∷ rest) }
{}

/// A line that declares something, or begins or ends an activity, adds just that to the script.
pub fn a_form_adds_what_it_says()
    ensures procs { (script : Script) (number procs : ℕ) → 1 ≤ procs → procs ≤ PROCESSORS →
        with_line script number (spaced (spelled.procs_tokens procs))
        ≡ record script { procs = procs } }
    ensures object { (script : Script) (number : ℕ) (object : ObjectLine) →
        IsFreeName object.name →
        with_line script number (spaced (spelled.object_tokens object))
        ≡ with_object script object }
    ensures worker { (script : Script) (number : ℕ) (worker : WorkerHead) →
        IsFreeName worker.name → worker.proc < script.procs → script.procs ≤ PROCESSORS →
        with_line script number (spaced (spelled.worker_tokens worker))
        ≡ with_worker script worker }
    ensures begin { (script : Script) (number : ℕ) → 0 < length script.workers →
        with_line script number (spaced spelled.begin_tokens) ≡ with_last_item script items.Begin }
    ensures end { (script : Script) (number : ℕ) → 0 < length script.workers →
        with_line script number (spaced spelled.end_tokens) ≡ with_last_item script items.End }
{}

/// What is added to a script's last worker stands behind all else that it does, and the workers
/// before it stay as they are.
pub fn an_item_is_added_to_the_last_worker()
    ensures { (script : Script) (item : Item) (earlier : List WorkerLines) (worker : WorkerLines) →
        script.workers ≡ earlier ++ worker ∷ [] →
        with_last_item script item
        ≡ record script {
          workers = earlier ++ record worker { items = worker.items ++ item ∷ [] } ∷ [];
        } }
{}

/// A line that asks something of a declared object adds just that to the last worker, and what it
/// asks of which object can be told from its bytes.
pub fn an_act_is_spelled_once()
    ensures adds { (script : Script) (number place : ℕ) (name : List ℕ) (act : Act Op) →
        0 < length script.workers → IsFreeName name →
        place_among (object_names script) (Some name) ≡ Some place → IsInRange act →
        with_line script number (spaced (act_tokens name act))
        ≡ with_last_item script
        (items.Line (record { line = number; object = place; act = act })) }
    ensures once { (name other : List ℕ) (act another : Act Op) → IsFreeName name →
        IsFreeName other → IsInRange act → IsInRange another →
        spaced (act_tokens name act) ≡ spaced (act_tokens other another) →
        (name ≡ other) × (act ≡ another) }
{}

/// A line without a token changes nothing, and neither does one whose first token begins with `#`.
pub fn a_skipped_line_changes_nothing()
    ensures blank { (script : Script) (number : ℕ) (text : List ℕ) → tokens_of text ≡ [] →
        with_line script number text ≡ script }
    ensures remark { (script : Script) (number : ℕ) (text word : List ℕ) (tokens : List (List ℕ)) →
        tokens_of text ≡ (codes "#" ++ word) ∷ tokens → with_line script number text ≡ script }
{}
