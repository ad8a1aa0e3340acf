//! What holds of activities and graces, whatever events come.
ghost use Rattle.std.specs.Prelude.{◌≡◌, ℕ, ◌+◌, ◌<◌, ◌≤◌, List, length, slice_index};
ghost use Rattle.gen_core.specs.declared.event.GenEvent.{GenEvent};
ghost use Rattle.gen_core.specs.Plain.{Generations};
ghost use Rattle.gen_core.specs.State.{proc_at, caller_at};
ghost use Rattle.gen_core.specs.Events.{other_exits, caller_of, happens};
ghost use Rattle.gen_core.specs.Sound.{IsSound};
ghost use Rattle.gen_core.specs.Runs.{run, IsReached, AreInRange, IsActive, IsQuiet, IsQuietGrace, HasLeft};
ghost use Rattle.gen_core.specs.Consequences.{HasOneHolder, CountsAgree, WaitsFor, AreToldModulo, AreAllPresent, IsOfNoHolder, KeepsGraces, entries_so_far, entries_by};

/// Whatever events come, every fact of the invariant holds.
pub fn stays_sound()
    ensures { (s : Generations) → IsReached s → IsSound s }
{}

/// The holder of the role is the one caller with a grace under way.
pub fn one_holder()
    ensures { (s : Generations) → IsSound s → HasOneHolder s }
{}

/// The entries of a generation are its exits and the callers active in it.
pub fn counts_agree()
    ensures { (s : Generations) → IsSound s → CountsAgree s }
{}

/// Where the holder waits for a processor, 32 bits tell whether its former generation has all its exits.
pub fn waits_are_told_modulo()
    ensures { (s : Generations) (holder p : ℕ) → IsSound s → p < length s.procs → WaitsFor s holder p
        → AreToldModulo (other_exits (proc_at s p)) (slice_index (caller_at s holder).waits p) }
{}

/// A caller that was active when the role was taken has left before that grace is quiet.
pub fn quiet_means_ended()
    ensures { (s : Generations) (events : List GenEvent) (holder caller : ℕ)
        → IsSound s → AreInRange (length s.callers) events
        → holder < length s.callers → caller < length s.callers
        → IsActive s caller → IsQuietGrace s events holder → HasLeft s events holder caller }
{}

/// While a grace is quiet, each activity is in the present generation of its processor.
pub fn quiet_means_present()
    ensures { (s : Generations) (holder : ℕ)
        → IsSound s → holder < length s.callers → IsQuiet s holder → AreAllPresent s }
{}

/// Only the holder's events move the role, a grace or a generation.
pub fn only_the_holder_moves()
    ensures { (s : Generations) (event : GenEvent)
        → IsSound s → caller_of event < length s.callers
        → IsOfNoHolder s.role event → KeepsGraces s (happens s event) }
{}

pub fn no_generation_falls()
    ensures { (s : Generations) (events : List GenEvent) (p : ℕ)
        → (proc_at s p).generation ≤ (proc_at (run events s) p).generation }
{}

/// The entries of a processor so far rise by one at an entry there, and else stay.
pub fn entries_rise_at_an_entry()
    ensures { (s : Generations) (event : GenEvent) (p : ℕ)
        → IsSound s → caller_of event < length s.callers
        → entries_so_far (happens s event) p ≡ entries_so_far s p + entries_by s event p }
{}
