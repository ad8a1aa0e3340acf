//! The steps of a grace.
ghost use Rattle.std.specs.Prelude.{◌≡◌, ℕ, ◌≤◌, ◌<◌, ◌+◌, ◌*◌, ◌^◌, unwrap_or};
ghost use Rattle.gen_core.specs.Events.{after_flip, after_look};
ghost use Rattle.phase_core.specs.Effects.{drained_at, draining_from};
ghost use Rattle.k42_board.specs.Gracing.{HasGiven};
ghost use Rattle.k42_board.specs.Protocol as protocol;
ghost use Rattle.k42_board.specs.Stepping.{MayStep, HasStepped, TakesIn};

use crate::noting::note_all;
use crate::pass::Pass;
use crate::sys::Sys;
use gen_core::GraceAt;
use k42_board::{
    entries_in, exits_in, flip_swap, generation_in, generation_load, generation_with,
    give_role_store, look_word, take_role_word,
};
use k42_kinds::Layout;
use phase_core::SwapAt;

/// Where a grace is once it has flipped the processor, of so many.
fn after_flip(proc: u32, procs: usize) -> GraceAt
    requires { (proc < procs) × (procs ≤ 8) }
    ensures { result ≡ after_flip proc procs }
{
    if proc as usize + 1 < procs {
        GraceAt::Flipping(proc + 1)
    } else {
        GraceAt::Looking(0)
    }
}

/// Where a grace is once all have left the processor.
fn after_look(proc: u32, procs: usize) -> GraceAt
    requires { (proc < procs) × (procs ≤ 8) }
    ensures { result ≡ after_look proc procs }
{
    if proc as usize + 1 < procs {
        GraceAt::Looking(proc + 1)
    } else {
        GraceAt::Quiet
    }
}

/// The stage of a swap whose caller has taken the role.
fn draining(swap: SwapAt) -> SwapAt
    ensures { result ≡ draining_from swap }
{
    match swap {
        SwapAt::Interposed(object) => SwapAt::Draining(object),
        other => other,
    }
}

/// The stage of a swap whose caller's grace has come so far.
fn drained(grace: GraceAt, swap: SwapAt) -> SwapAt
    ensures { result ≡ drained_at grace swap }
{
    match (grace, swap) {
        (GraceAt::Quiet, SwapAt::Draining(object)) => SwapAt::Drained(object),
        (_, other) => other,
    }
}

/// The word of a processor in its next generation, with so many entries.
fn word_flipped(base: Option<u32>, coming: Option<u32>) -> u64
    requires { unwrap_or base 0 + 1 < 2 ^ 32 }
    ensures { result ≡ unwrap_or base 0 + 1 + 2 ^ 32 * unwrap_or coming 0 }
{
    generation_with(base.unwrap_or(0) + 1, coming.unwrap_or(0))
}

/// Takes the role where nobody has it, and notes then what its grace may free.
pub fn take_role<L: Layout>(sys: &Sys<L>, pass: &mut Pass<L>) -> u64
    requires { MayStep L.Layout sys.now protocol.take_role pass.old }
    ensures { HasStepped L.Layout sys.now protocol.take_role pass.old result pass.new }
{
    let found = take_role_word(&sys.board, &mut pass.seat, u64::from(pass.number));
    if found == 0 {
        note_all(
            pass.noted.as_mut_slice(),
            pass.swap,
            pass.last,
            pass.rows.as_slice(),
        );
        pass.swap = draining(pass.swap);
        pass.grace = GraceAt::Flipping(0);
        pass.graces += 1;
        pass.base = None;
        pass.granted = pass.rows.len();
    }
    found
}

/// Asks for the generation of the processors, which it is about to end.
pub fn generation_step<L: Layout>(sys: &Sys<L>, pass: &mut Pass<L>) -> u64
    requires { MayStep L.Layout sys.now protocol.ask_generation pass.old }
    ensures { HasStepped L.Layout sys.now protocol.ask_generation pass.old result pass.new }
{
    let found = generation_load(&sys.board, &mut pass.seat);
    pass.base = Some(generation_in(found));
    found
}

/// Reads the exits of a processor: of the generation to come before it flips the processor, and of
/// the one that it has ended later, until all have left that.
pub fn look<L: Layout>(sys: &Sys<L>, pass: &mut Pass<L>, proc: u32, parity: u32) -> u64
    requires { MayStep L.Layout sys.now (protocol.look proc parity) pass.old }
    ensures { HasStepped L.Layout sys.now (protocol.look proc parity) pass.old result pass.new }
{
    let found = look_word(&sys.board, &mut pass.seat, proc as usize, parity as usize);
    match pass.grace {
        GraceAt::Flipping(_) => pass.coming = Some(exits_in(found)),
        GraceAt::Looking(at) => {
            if exits_in(found) == pass.waits[at as usize] {
                pass.grace = after_look(at, pass.waits.len());
                pass.swap = drained(pass.grace, pass.swap);
            }
        }
        GraceAt::Idle | GraceAt::Quiet => {}
    }
    found
}

/// Begins the next generation of the processor, and keeps what it waits for there.
pub fn flip<L: Layout>(sys: &Sys<L>, pass: &mut Pass<L>, proc: u32) -> u64
    requires { MayStep L.Layout sys.now (protocol.flip proc) pass.old }
    ensures { HasStepped L.Layout sys.now (protocol.flip proc) pass.old result pass.new }
{
    let word = word_flipped(pass.base, pass.coming);
    let found = flip_swap(&sys.board, &mut pass.seat, proc as usize, word);
    pass.waits[proc as usize] = entries_in(found);
    pass.coming = None;
    pass.grace = after_flip(proc, pass.waits.len());
    found
}

/// Gives the role back, and with it the rows that it held as it took the role.
pub fn give_role<L: Layout>(sys: &Sys<L>, pass: &mut Pass<L>)
    requires { MayStep L.Layout sys.now protocol.give_role pass.old }
    ensures given { HasGiven pass.old pass.new }
    ensures takes { (found : ℕ) → TakesIn L.Layout sys.now protocol.give_role pass.old found pass.new }
{
    give_role_store(&sys.board, &mut pass.seat);
    pass.grace = GraceAt::Idle;
    pass.freeing.fill((0, 0));
    pass.rows.rotate_left(pass.granted);
    pass.rows.truncate(pass.rows.len() - pass.granted);
    pass.granted = 0;
}
