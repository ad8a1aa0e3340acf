//! The law that tells an accepted line by the script in front of it.
ghost use Rattle.std.specs.Prelude.{◌<◌, ◌^◌, ℕ, List};
ghost use Rattle.k42_kinds.specs.declared.operation.Op.{Op};
ghost use Rattle.k42_kinds.specs.declared.entry.Act.{Act};
ghost use Rattle.script_text.specs.Accepted.{IsAcceptedWhere, MayDeclareProcessors, MayDeclareObject, MayDeclareWorker, MayBegin, MayEnd, MayAsk, BeginsCall, HasShortNumbers};
ghost use Rattle.script_text.specs.Acts.{act_tokens};
ghost use Rattle.script_text.specs.Language.{script_after};
ghost use Rattle.script_text.specs.Spelled.{procs_tokens, object_tokens, worker_tokens, begin_tokens, end_tokens};
ghost use Rattle.script_text.specs.declared.script.ObjectLine.{ObjectLine};
ghost use Rattle.script_text.specs.declared.script.WorkerHead.{WorkerHead};

/// Behind lines of which none offends, a line of each form offends with no cause exactly where it
/// ends in time and may stand in the script so far.
pub fn a_line_is_accepted_where_it_may_stand()
    ensures procs { (before : List (List ℕ)) (procs : ℕ) → procs < 2 ^ 64 →
        IsAcceptedWhere before (procs_tokens procs)
        (MayDeclareProcessors (script_after before) procs) }
    ensures object { (before : List (List ℕ)) (object : ObjectLine) →
        IsAcceptedWhere before (object_tokens object)
        (MayDeclareObject (script_after before) object) }
    ensures worker { (before : List (List ℕ)) (worker : WorkerHead) → worker.proc < 2 ^ 64 →
        IsAcceptedWhere before (worker_tokens worker)
        (MayDeclareWorker (script_after before) worker) }
    ensures begin { (before : List (List ℕ)) →
        IsAcceptedWhere before begin_tokens (MayBegin (script_after before)) }
    ensures end { (before : List (List ℕ)) →
        IsAcceptedWhere before end_tokens (MayEnd (script_after before)) }
    ensures act { (before : List (List ℕ)) (name : List ℕ) (act : Act Op) → BeginsCall name →
        HasShortNumbers act →
        IsAcceptedWhere before (act_tokens name act) (MayAsk (script_after before) name act) }
{}
