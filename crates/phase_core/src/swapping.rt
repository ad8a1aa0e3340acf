//! Events of a swap, from its begin to its end or until it is given up.
ghost use Rattle.std.specs.Prelude.{◌≡◌, ◌<◌, ◌≤◌, length};
ghost use Rattle.k42_limits.specs.declared.TheConstants.{PROCESSORS};
ghost use Rattle.phase_core.specs.Event.{Begin, Interpose, Block, Move, TurnOver, Unblock, Open, Clear};
ghost use Rattle.phase_core.specs.State.{object_at, put_entry};
ghost use Rattle.phase_core.specs.Effects.{after_interpose, after_open, after_reopen};
ghost use Rattle.phase_core.specs.Events.{staged, Applies};
ghost use Rattle.phase_core.specs.Sound.{IsSound};

use crate::caller::SwapAt;
use crate::object::{LocalEntry, Word};
use crate::state::PhaseState;
use gen_core::GraceAt;
use k42_limits::LAST_INCARNATION;

impl SwapAt {
    fn after_interpose(o: u32, p: u32, procs: usize) -> SwapAt
        requires there { p < procs }
        requires few { procs ≤ PROCESSORS }
        ensures { result ≡ after_interpose o p procs }
    {
        if p as usize + 1 < procs {
            SwapAt::Interposing(o, p + 1)
        } else {
            SwapAt::Interposed(o)
        }
    }

    fn after_open(o: u32, p: u32, procs: usize) -> SwapAt
        requires there { p < procs }
        requires few { procs ≤ PROCESSORS }
        ensures { result ≡ after_open o p procs }
    {
        if p as usize + 1 < procs {
            SwapAt::Opening(o, p + 1)
        } else {
            SwapAt::Opened(o)
        }
    }

    fn after_reopen(o: u32, p: u32, procs: usize) -> SwapAt
        requires there { p < procs }
        requires few { procs ≤ PROCESSORS }
        ensures { result ≡ after_reopen o p procs }
    {
        if p as usize + 1 < procs {
            SwapAt::Reopening(o, p + 1)
        } else {
            SwapAt::Opened(o)
        }
    }
}

/// The swap begins where no other is under way.
#[tactic(auto, using(crate::proofs::Ranges::entry_ranges))]
pub(crate) fn begin(state: &mut PhaseState, c: u32, o: u32) -> bool
    requires sound { IsSound state.old }
    requires caller { c < length state.old.turns.callers }
    requires object { o < length state.old.objects }
    ensures { Applies result state.old state.new (Begin c o) }
{
    let idle = matches!(state.turn(c as usize).grace, GraceAt::Idle);
    let inactive = state.turn(c as usize).active.is_none();
    let swapless = matches!(state.caller(c as usize).swap, SwapAt::Idle);
    if !idle || !inactive || !swapless {
        return false;
    }
    let word = state.word(o as usize);
    if word.swap {
        return true;
    }
    let swap = if state.is_dead(o as usize) || word.incarnation == LAST_INCARNATION {
        SwapAt::Refused(o)
    } else {
        SwapAt::Begun(o)
    };
    state.set_swap(c as usize, swap);
    state.set_word(o as usize, &Word { swap: true, ..word });
    true
}

// The swapper goes to a stage, and one entry of its object changes.
fn stage_entry(state: &mut PhaseState, c: u32, o: u32, p: u32, swap: SwapAt, entry: LocalEntry)
    requires caller { c < length state.old.callers }
    requires object { o < length state.old.objects }
    requires processor { p < length (object_at state.old o).entries }
    ensures { state.new ≡ staged state.old c o swap (put_entry (object_at state.old o) p entry) }
{
    state.set_entry(o as usize, p as usize, entry);
    state.set_swap(c as usize, swap);
}

/// One more entry leads to the mediator.
#[tactic(auto, using(crate::proofs::Ranges::entry_ranges))]
pub(crate) fn interpose(state: &mut PhaseState, c: u32) -> bool
    requires sound { IsSound state.old }
    requires caller { c < length state.old.turns.callers }
    ensures { Applies result state.old state.new (Interpose c) }
{
    let procs = state.processors();
    match state.caller(c as usize).swap {
        SwapAt::Begun(o) => {
            let entry = LocalEntry::mediator(state.incarnation(o as usize));
            stage_entry(state, c, o, 0, SwapAt::after_interpose(o, 0, procs), entry);
            true
        }
        SwapAt::Interposing(o, p) => {
            let entry = LocalEntry::mediator(state.incarnation(o as usize));
            stage_entry(state, c, o, p, SwapAt::after_interpose(o, p, procs), entry);
            true
        }
        _ => false,
    }
}

/// The drained object is blocked.
#[tactic(auto, using(crate::proofs::Ranges::swap_ranges))]
pub(crate) fn block(state: &mut PhaseState, c: u32) -> bool
    requires sound { IsSound state.old }
    requires caller { c < length state.old.turns.callers }
    ensures { Applies result state.old state.new (Block c) }
{
    let idle = matches!(state.turn(c as usize).grace, GraceAt::Idle);
    let SwapAt::Drained(o) = state.caller(c as usize).swap else {
        return false;
    };
    if !idle {
        return false;
    }
    let word = state.word(o as usize);
    state.set_swap(c as usize, SwapAt::Blocking(o));
    state.set_word(
        o as usize,
        &Word {
            block: true,
            ..word
        },
    );
    true
}

/// MOVE is set where nobody is counted.
#[tactic(auto, using(crate::proofs::Ranges::swap_ranges))]
pub(crate) fn try_move(state: &mut PhaseState, c: u32) -> bool
    requires sound { IsSound state.old }
    requires caller { c < length state.old.turns.callers }
    ensures { Applies result state.old state.new (Move c) }
{
    let SwapAt::Blocking(o) = state.caller(c as usize).swap else {
        return false;
    };
    let word = state.word(o as usize);
    if word.count == 0 {
        state.set_swap(c as usize, SwapAt::Moved(o));
        state.set_word(
            o as usize,
            &Word {
                moving: true,
                ..word
            },
        );
    }
    true
}

/// The object goes to its next incarnation.
#[tactic(auto, using(crate::proofs::Ranges::swap_ranges))]
pub(crate) fn turn_over(state: &mut PhaseState, c: u32, layout: u32) -> bool
    requires sound { IsSound state.old }
    requires caller { c < length state.old.turns.callers }
    ensures { Applies result state.old state.new (TurnOver c layout) }
{
    let SwapAt::Moved(o) = state.caller(c as usize).swap else {
        return false;
    };
    if layout as usize > state.live_layouts(o as usize) {
        return false;
    }
    let word = state.word(o as usize);
    state.set_swap(c as usize, SwapAt::Opening(o, 0));
    let next = Word {
        incarnation: word.incarnation + 1,
        layout,
        block: false,
        moving: false,
        complete: true,
        ..word
    };
    state.set_word(o as usize, &next);
    true
}

/// The object goes back to where it was before it was blocked.
#[tactic(auto, using(crate::proofs::Ranges::swap_ranges))]
pub(crate) fn unblock(state: &mut PhaseState, c: u32) -> bool
    requires sound { IsSound state.old }
    requires caller { c < length state.old.turns.callers }
    ensures { Applies result state.old state.new (Unblock c) }
{
    let SwapAt::Moved(o) = state.caller(c as usize).swap else {
        return false;
    };
    let word = state.word(o as usize);
    state.set_swap(c as usize, SwapAt::Reopening(o, 0));
    let back = Word {
        block: false,
        moving: false,
        ..word
    };
    state.set_word(o as usize, &back);
    true
}

/// One more entry is empty, at the incarnation.
#[tactic(auto, using(crate::proofs::Ranges::entry_ranges))]
pub(crate) fn open_entry(state: &mut PhaseState, c: u32) -> bool
    requires sound { IsSound state.old }
    requires caller { c < length state.old.turns.callers }
    ensures { Applies result state.old state.new (Open c) }
{
    let procs = state.processors();
    match state.caller(c as usize).swap {
        SwapAt::Opening(o, p) => {
            let entry = LocalEntry::empty(state.incarnation(o as usize));
            stage_entry(state, c, o, p, SwapAt::after_open(o, p, procs), entry);
            true
        }
        SwapAt::Reopening(o, p) => {
            let entry = LocalEntry::empty(state.incarnation(o as usize));
            stage_entry(state, c, o, p, SwapAt::after_reopen(o, p, procs), entry);
            true
        }
        _ => false,
    }
}

/// The swap ends.
#[tactic(auto, using(crate::proofs::Ranges::entry_ranges))]
pub(crate) fn clear(state: &mut PhaseState, c: u32) -> bool
    requires sound { IsSound state.old }
    requires caller { c < length state.old.turns.callers }
    ensures { Applies result state.old state.new (Clear c) }
{
    let (SwapAt::Refused(o) | SwapAt::Opened(o)) = state.caller(c as usize).swap else {
        return false;
    };
    let word = state.word(o as usize);
    state.set_swap(c as usize, SwapAt::Idle);
    let ended = Word {
        swap: false,
        complete: false,
        ..word
    };
    state.set_word(o as usize, &ended);
    true
}
