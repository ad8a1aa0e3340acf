//! How a call or a swap that was held up waits before it is tried again.
use std::{hint, thread};

/// How many rounds of waiting pass before the thread lets others run in between.
const ROUNDS: u32 = 200;

/// How long a round lasts: so many times the processor is told that it spins. Calls and swaps wait for each other, and who
/// comes back late holds up all.
const ROUND_SPINS: u32 = 7;

/// How many spins a caller waits that found a cell held: whoever tries a lock takes its cache line from the caller that
/// has it. A swap waits for the activity of whoever waits here: with fewer spins swaps end sooner, and with more a cell
/// that all call serves them faster.
const SPINS_AT_CELL: u32 = 105;

/// How many rounds that lasts.
const ROUNDS_AT_CELL: u32 = SPINS_AT_CELL / ROUND_SPINS;

fn spin(times: u32) {
    for _ in 0..times {
        hint::spin_loop();
    }
}

/// Waits, and counts the rounds.
fn wait(waited: &mut u32, spins: u32, rounds: u32) {
    spin(spins);
    if *waited < ROUNDS {
        *waited = waited.saturating_add(rounds);
    } else {
        thread::yield_now();
    }
}

/// Waits for a swap, or for the callers for which a swap waits.
pub(crate) fn wait_for_swap(waited: &mut u32) {
    wait(waited, ROUND_SPINS, 1);
}

/// Waits for a caller that holds a cell.
pub(crate) fn wait_for_cell(waited: &mut u32) {
    wait(waited, SPINS_AT_CELL, ROUNDS_AT_CELL);
}
