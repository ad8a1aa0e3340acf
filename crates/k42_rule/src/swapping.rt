//! The steps of a swap.
ghost use Rattle.std.specs.Prelude.{◌≡◌, ◌<◌, ◌≤◌, ◌+◌, ◌^◌, true, [], ◌∷◌, ◌++◌, vec_len, vec_capacity, if◌then◌else◌};
ghost use Rattle.std.specs.Option.{unwrap_or};
ghost use Rattle.phase_core.specs.Effects.{after_interpose};
ghost use Rattle.phase_core.specs.Stages.{object_named, is_interposing, is_moved};
ghost use Rattle.phase_core.specs.State.{empty_entry, mediator_entry};
ghost use Rattle.k42_board.specs.Protocol as protocol;
ghost use Rattle.k42_board.specs.Seen.{HasSameRoom};
ghost use Rattle.k42_board.specs.Stepping.{MayStep, HasStepped, TakesIn};
ghost use Rattle.k42_board.specs.Swapping.{next_entry, after_entry};
ghost use Rattle.k42_board.specs.Values.{local_value};

use crate::begun::{begun_word, incarnation_at};
use crate::pass::Pass;
use crate::sys::Sys;
use k42_board::{
    BLOCK, COMPLETE, MOVE, Row, SWAP, block_word, blocked_word, change_entry_word, clear_word,
    empty_word, mediator_word, move_word, turn_amount, turn_word,
};
use k42_kinds::Layout;
use phase_core::SwapAt;

/// The object that a swap names.
pub(crate) fn object_at(swap: &SwapAt) -> u32
    ensures { result ≡ object_named swap.now }
{
    match *swap {
        SwapAt::Idle => 0,
        SwapAt::Interposing(object, _)
        | SwapAt::Opening(object, _)
        | SwapAt::Reopening(object, _)
        | SwapAt::Refused(object)
        | SwapAt::Begun(object)
        | SwapAt::Interposed(object)
        | SwapAt::Draining(object)
        | SwapAt::Drained(object)
        | SwapAt::Blocking(object)
        | SwapAt::Moved(object)
        | SwapAt::Opened(object) => object,
    }
}

/// The stage after the entry of a processor was interposed.
fn interposed_after(object: u32, proc: u32, procs: u32) -> SwapAt
    requires { proc < 8 }
    ensures { result ≡ after_interpose object proc procs }
{
    if proc + 1 < procs {
        SwapAt::Interposing(object, proc + 1)
    } else {
        SwapAt::Interposed(object)
    }
}

/// The stage after the next entry, of so many processors, was changed.
fn stage_after(swap: &SwapAt, procs: u32) -> SwapAt
    requires { unwrap_or (next_entry swap.now) 0 < 8 }
    ensures { result ≡ after_entry procs swap.now }
{
    match *swap {
        SwapAt::Begun(object) => interposed_after(object, 0, procs),
        SwapAt::Interposing(object, proc) => interposed_after(object, proc, procs),
        SwapAt::Opening(object, proc) if proc + 1 < procs => SwapAt::Opening(object, proc + 1),
        SwapAt::Reopening(object, proc) if proc + 1 < procs => SwapAt::Reopening(object, proc + 1),
        SwapAt::Opening(object, _) | SwapAt::Reopening(object, _) => SwapAt::Opened(object),
        other => other,
    }
}

/// The word of an entry that is changed at this stage.
fn entry_word(swap: &SwapAt, incarnation: u32) -> u64
    ensures { result ≡ local_value (if is_interposing swap.now then mediator_entry incarnation else empty_entry incarnation) }
{
    match *swap {
        SwapAt::Begun(_) | SwapAt::Interposing(_, _) => mediator_word(incarnation),
        _ => empty_word(incarnation),
    }
}

/// Changes the next entry of the object: to a mediator while it interposes, to an empty one while it opens.
pub fn entry_step<L: Layout>(sys: &Sys<L>, pass: &mut Pass<L>, proc: u32) -> u64
    requires { MayStep L.Layout sys.now (protocol.change_entry proc) pass.old }
    ensures { HasStepped L.Layout sys.now (protocol.change_entry proc) pass.old result pass.new }
{
    let object = object_at(&pass.swap) as usize;
    let begun = incarnation_at(&pass.last);
    let incarnation = if pass.turned { begun + 1 } else { begun };
    let word = entry_word(&pass.swap, incarnation);
    let found = change_entry_word(&sys.board, &mut pass.seat, proc as usize, object, word);
    pass.swap = stage_after(&pass.swap, pass.waits.len() as u32);
    found
}

/// Blocks the object, so that whoever knocks from now on is kept out.
pub fn block_step<L: Layout>(sys: &Sys<L>, pass: &mut Pass<L>) -> u64
    requires { MayStep L.Layout sys.now protocol.block pass.old }
    ensures { HasStepped L.Layout sys.now protocol.block pass.old result pass.new }
{
    let object = object_at(&pass.swap);
    let found = block_word(&sys.board, &mut pass.seat, object as usize);
    pass.swap = SwapAt::Blocking(object);
    found
}

/// Begins to move the state of the object, where nobody is counted.
pub fn move_step<L: Layout>(sys: &Sys<L>, pass: &mut Pass<L>) -> u64
    requires { MayStep L.Layout sys.now protocol.move pass.old }
    ensures { HasStepped L.Layout sys.now protocol.move pass.old result pass.new }
{
    let object = object_at(&pass.swap);
    let begun = begun_word(&pass.last);
    let old = blocked_word(begun);
    let new = old + MOVE;
    let found = move_word(&sys.board, &mut pass.seat, object as usize, old, new);
    if found == old {
        pass.swap = SwapAt::Moved(object);
    }
    found
}

/// Turns the object over, to the next incarnation and to the layout with which its row was handed on.
pub fn turn_over<L: Layout>(sys: &Sys<L>, pass: &mut Pass<L>, layout: u32) -> u64
    requires { MayStep L.Layout sys.now (protocol.turn_over layout) pass.old }
    ensures { HasStepped L.Layout sys.now (protocol.turn_over layout) pass.old result pass.new }
{
    let object = object_at(&pass.swap);
    let amount = turn_amount(layout, begun_word(&pass.last));
    let found = turn_word(&sys.board, &mut pass.seat, object as usize, layout, amount);
    pass.swap = SwapAt::Opening(object, 0);
    pass.turned = true;
    pass.handed = None;
    found
}

/// Whether a swap moves its object.
fn moves(swap: &SwapAt) -> bool
    ensures { result ≡ is_moved swap.now }
{
    matches!(*swap, SwapAt::Moved(_))
}

/// Puts the row of an object that was turned over behind the others.
fn keep_row(rows: &mut Vec<Row>, turned: bool, row: Row)
    requires { turned ≡ true → vec_len rows.old < vec_capacity rows.old }
    ensures items { rows.new.items ≡ (if turned then rows.old.items ++ row ∷ [] else rows.old.items) }
    ensures capacity { vec_capacity rows.new ≡ vec_capacity rows.old }
{
    if turned {
        rows.push_reserved(row);
    }
}

/// Gives up what it moves and has not handed on, or ends the swap. The row that it has handed on and turned over is
/// then one of the pass's rows.
pub fn clear_step<L: Layout>(sys: &Sys<L>, pass: &mut Pass<L>) -> u64
    requires may { MayStep L.Layout sys.now protocol.clear pass.old }
    requires room { pass.old.view.turned ≡ true → 0 < pass.old.row_room }
    ensures same { HasSameRoom pass.old pass.new }
    ensures takes { TakesIn L.Layout sys.now protocol.clear pass.old result pass.new }
{
    let object = object_at(&pass.swap);
    if moves(&pass.swap) {
        let mask = u64::MAX - BLOCK - MOVE;
        let found = clear_word(&sys.board, &mut pass.seat, object as usize, mask);
        pass.swap = SwapAt::Reopening(object, 0);
        return found;
    }
    let mask = u64::MAX - SWAP - COMPLETE;
    let found = clear_word(&sys.board, &mut pass.seat, object as usize, mask);
    let incarnation = incarnation_at(&pass.last);
    let row = Row {
        object,
        incarnation,
    };
    keep_row(&mut pass.rows, pass.turned, row);
    pass.turned = false;
    pass.swap = SwapAt::Idle;
    found
}
