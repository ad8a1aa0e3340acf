//! The step that frees rows.
ghost use Rattle.k42_board.specs.Protocol as protocol;
ghost use Rattle.k42_board.specs.Stepping.{MayStep, HasStepped};

use crate::pass::Pass;
use crate::sys::Sys;
use k42_board::free_word;
use k42_kinds::Layout;

/// Frees the rows of the object from the mark that it finds up to the number that its grace noted.
#[tactic(auto, using(k42_board::proofs::Notings::note_there))]
pub fn free<L: Layout>(sys: &Sys<L>, pass: &mut Pass<L>, object: u32) -> u64
    requires { MayStep L.Layout sys.now (protocol.free object) pass.old }
    ensures { HasStepped L.Layout sys.now (protocol.free object) pass.old result pass.new }
{
    let number = pass.noted[object as usize].unwrap_or(0);
    let found = free_word(
        &sys.board,
        &mut pass.seat,
        object as usize,
        u64::from(number),
    );
    if found < u64::from(number) {
        pass.freeing[object as usize] = (found as u32, number);
    }
    found
}
