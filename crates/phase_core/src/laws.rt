//! What holds of objects and callers, whatever events come.
ghost use Rattle.std.specs.Prelude.{◌≡◌, ℕ, ◌<◌, ◌⊎◌, true, List, [], ◌∷◌, ◌++◌, length, IsTrue};
ghost use Rattle.phase_core.specs.Event.{Event, caller_of, NamesObjects};
ghost use Rattle.phase_core.specs.Plain.{Phases};
ghost use Rattle.phase_core.specs.State.{object_at, visitor_at};
ghost use Rattle.phase_core.specs.Stages.{IsInside};
ghost use Rattle.phase_core.specs.Events.{is_possible, effect, happens};
ghost use Rattle.phase_core.specs.Objects.{many_counted};
ghost use Rattle.phase_core.specs.Sound.{IsSound};
ghost use Rattle.phase_core.specs.Runs.{run, IsReached, AreInRange, HasRead, HasLeft};
ghost use Rattle.phase_core.specs.Consequences.{object_changed, LeavesOthers, NeverFalls, KeepsShapes, TurnsOver, IsSameRow, ReadsRow, HasOneSwap, IsReadyToMove, FreesRow};
ghost use Rattle.phase_core.specs.declared.caller.SwapAt.TheVariants.{Moved};

/// Whatever events come, every fact of the invariant holds.
pub fn stays_sound()
    ensures { (s : Phases) → IsReached s → IsSound s }
{}

/// Each possible event keeps every fact, from every state that meets them.
pub fn each_event_keeps()
    ensures { (s : Phases) (event : Event) → IsSound s → caller_of event < length s.callers
        → NamesObjects (length s.objects) event → IsTrue (is_possible s event) → IsSound (effect s event) }
{}

/// An event leaves all callers but its own, and all objects but one, as they were.
pub fn others_stay()
    ensures { (s : Phases) (event : Event) → IsSound s → caller_of event < length s.callers
        → LeavesOthers s (happens s event) (caller_of event) (object_changed s event) }
{}

/// Where the state of an object is moved, no caller is inside a row of it.
pub fn moves_alone()
    ensures { (s : Phases) (c o i : ℕ) → IsSound s → c < length s.callers → o < length s.objects
        → IsTrue (object_at s o).moving → ¬ IsInside (visitor_at s c).place o i }
{}

/// And what the one who moves it may rely on.
pub fn moved_is_ready()
    ensures { (s : Phases) (c o : ℕ) → IsSound s → c < length s.callers
        → (visitor_at s c).swap ≡ Moved o → IsReadyToMove (object_at s o) }
{}

/// A caller that is inside a row has read it, and it is the present one.
pub fn inside_is_present()
    ensures { (s : Phases) (c o i : ℕ) → IsSound s → c < length s.callers
        → IsInside (visitor_at s c).place o i
        → HasRead s c o i × (i ≡ (object_at s o).incarnation) }
{}

/// A row that an activity has read is freed only after that activity has left.
pub fn freed_after_leaving()
    ensures { (s : Phases) (events : List Event) (freeing : Event) (c o i : ℕ) → IsSound s
        → AreInRange (length s.callers) (length s.objects) (events ++ freeing ∷ [])
        → c < length s.callers → HasRead s c o i
        → FreesRow (run events s) (happens (run events s) freeing) o i → HasLeft s events c }
{}

/// A caller reads rows by its own look-ups and knocks alone.
pub fn reads_by_look_up_and_knock()
    ensures { (s : Phases) (event : Event) (c o i : ℕ) → IsSound s → caller_of event < length s.callers
        → HasRead (happens s event) c o i → HasRead s c o i ⊎ ReadsRow event c o }
{}

/// At most one swap of an object is under way, and one is exactly where SWAP is set.
pub fn one_swap()
    ensures { (s : Phases) (o : ℕ) → IsSound s → o < length s.objects → HasOneSwap s o }
{}

/// The count of an object is the number of callers that its mediator counts.
pub fn count_is_of_callers()
    ensures { (s : Phases) (o : ℕ) → IsSound s → o < length s.objects
        → (object_at s o).count ≡ many_counted s.callers o }
{}

/// No generation and no incarnation falls, and no row that was freed is kept again.
pub fn nothing_falls()
    ensures { (s : Phases) (events : List Event) → NeverFalls s (run events s) }
{}

/// The incarnation and the layout of an object move as its swapper turns it over, and else stay.
pub fn row_stays()
    ensures { (s : Phases) (event : Event) (o : ℕ) → ¬ TurnsOver s event o
        → IsSameRow (object_at s o) (object_at (happens s event) o) }
{}

/// No event gives an object other layouts.
pub fn shapes_stay()
    ensures { (s : Phases) (event : Event) → KeepsShapes s (happens s event) }
{}
