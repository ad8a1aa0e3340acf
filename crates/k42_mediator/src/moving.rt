//! The object is blocked, and its state begins to move.
ghost use Rattle.std.specs.Prelude.{◌≡◌, ℕ, ◌<◌};
ghost use Rattle.k42_board.specs.Log.{last_found};
ghost use Rattle.k42_board.specs.Protocol as protocol;
ghost use Rattle.k42_board.specs.Stepping.{MayStep, HasStepped};
ghost use Rattle.k42_mediator.specs.Answers.{moving_in};
ghost use Rattle.k42_mediator.specs.declared.answers.Moving.TheVariants.{InFlight};

use crate::answers::Moving;
use k42_board::count_in;
use k42_kinds::Layout;
use k42_rule::{Pass, Sys, block_step, move_step};

/// Keeps out whoever knocks from now on.
pub fn block<L: Layout>(sys: &Sys<L>, pass: &mut Pass<L>)
    requires { MayStep L.Layout sys.now protocol.block pass.old }
    ensures { HasStepped L.Layout sys.now protocol.block pass.old (last_found pass.new.view.log) pass.new }
{
    block_step(sys, pass);
}

/// Begins to move the state, unless callers are still counted. The pass may try again then.
pub fn try_move<L: Layout>(sys: &Sys<L>, pass: &mut Pass<L>) -> Moving
    requires { MayStep L.Layout sys.now protocol.move pass.old }
    ensures answer { result ≡ moving_in pass.old.view (last_found pass.new.view.log) }
    ensures in_flight { (count : ℕ) → result ≡ InFlight count → 0 < count }
    ensures stepped { HasStepped L.Layout sys.now protocol.move pass.old (last_found pass.new.view.log) pass.new }
{
    let found = move_step(sys, pass);
    let count = count_in(found);
    if count == 0 {
        Moving::Moved
    } else {
        Moving::InFlight { count }
    }
}
