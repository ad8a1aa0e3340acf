//! Rows of copies.
ghost use Rattle.std.specs.Prelude.{◌≡◌, ◌<◌, replicate, IfOk};

use crate::replica::Replica;
use k42_memory::Memory;
use std::alloc::Global;

/// So many copies of the state, itself the last of them.
#[tactic(auto, using(std::proofs::lemmas::List::replicate_more))]
pub(crate) fn row_of<S: Replica>(alloc: Global, state: S, many: usize) -> Result<Vec<S>, Memory>
    requires { 0 < many }
    ensures { IfOk result (λ row. row.items ≡ replicate many state) }
{
    let mut row = Vec::new(alloc);
    for _ in 1..many {
        row.push(state.again(alloc)?)?;
    }
    row.push(state)?;
    Ok(row)
}
