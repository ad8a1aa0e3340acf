//! What holds of cells, histories and lists, whatever events come.
ghost use Rattle.std.specs.Prelude.{◌≡◌, ◌≢◌, ℕ, ◌<◌, ◌≤◌, List, length, Some, slice_get, IsFalse, IsTrue};
ghost use Rattle.k42_kinds.specs.declared.entry.Entry.{Entry};
ghost use Rattle.turn_core.specs.declared.event.TurnEvent.{TurnEvent};
ghost use Rattle.turn_core.specs.declared.event.TurnEvent.TheVariants.{Skip};
ghost use Rattle.turn_core.specs.Plain.{Turns};
ghost use Rattle.turn_core.specs.State.{caller_at, cell_at, clock_of};
ghost use Rattle.turn_core.specs.Names.{names};
ghost use Rattle.turn_core.specs.Events.{caller_of, cells_of, drawn_in, is_possible};
ghost use Rattle.turn_core.specs.Sound.{drawn_by, entries_drawn, IsRising, IsSound};
ghost use Rattle.turn_core.specs.Runs.{happens, run, IsReached, IsHistoryOf, NumbersItsEntries, StandsAt, StandsOnce};

/// Whatever events come, every fact of the invariant holds.
pub fn stays_sound<O, R>()
    ensures { (s : Turns O R) → IsReached s → IsSound s }
{}

/// Stamps rise in each history of each life of a cell, and in each caller's list.
pub fn stamps_rise<O, R>()
    ensures histories { (s : Turns O R) (n life : ℕ) (history : List (Entry O R)) → IsSound s →
        IsHistoryOf s n life history → IsRising history }
    ensures lists { (s : Turns O R) (c : ℕ) → IsSound s → IsRising (drawn_by s.callers c) }
{}

/// Entry number n of a caller's list has that caller and the index n.
pub fn entries_are_numbered<O, R>()
    ensures { (s : Turns O R) → IsSound s → NumbersItsEntries s }
{}

/// Each entry of a history stands in exactly one caller's list, once.
pub fn entries_stand_once<O, R>()
    ensures { (s : Turns O R) (n life place : ℕ) (history : List (Entry O R)) (entry : Entry O R) →
        IsSound s → IsHistoryOf s n life history → slice_get history place ≡ Some entry →
        StandsOnce s entry }
{}

/// No stamp is above the number of entries in all lists.
pub fn stamps_are_few<O, R>()
    ensures { (s : Turns O R) (c n : ℕ) (entry : Entry O R) → IsSound s → StandsAt s entry c n →
        entry.stamp ≤ entries_drawn s.callers }
{}

/// What is drawn is later than its caller's clock.
pub fn what_is_drawn_is_later_than_the_clock<O, R>()
    ensures { (s : Turns O R) (event : TurnEvent O R) (entry : Entry O R) → IsTrue (is_possible s event) →
        drawn_in event ≡ Some entry → clock_of s (caller_of event) < entry.stamp }
{}

/// Whatever events come, no clock falls.
pub fn clocks_never_fall<O, R>()
    ensures { (s : Turns O R) (events : List (TurnEvent O R)) (c : ℕ) → clock_of s c ≤ clock_of (run events s) c }
{}

/// What a caller draws after a skip, whatever comes between, is later than the stamp to which it skipped.
pub fn what_follows_a_skip_is_later<O, R>()
    ensures { (s : Turns O R) (c stamp : ℕ) (events : List (TurnEvent O R)) (event : TurnEvent O R) (entry : Entry O R) →
        c < length s.callers → IsTrue (is_possible s (Skip c stamp)) →
        IsTrue (is_possible (run events (happens s (Skip c stamp))) event) → caller_of event ≡ c →
        drawn_in event ≡ Some entry → stamp < entry.stamp }
{}

/// An event leaves every other caller, and every cell that it does not name.
pub fn others_stay<O, R>()
    ensures callers { (s : Turns O R) (event : TurnEvent O R) (c : ℕ) → c ≢ caller_of event →
        caller_at (happens s event) c ≡ caller_at s c }
    ensures cells { (s : Turns O R) (event : TurnEvent O R) (n : ℕ) →
        IsFalse (names (cells_of event) n) → cell_at (happens s event) n ≡ cell_at s n }
{}
