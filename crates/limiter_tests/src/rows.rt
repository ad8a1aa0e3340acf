//! Rows of parts of any way, used as the library uses them.
ghost use Rattle.std.specs.Prelude.{◌≡◌, ◌<◌, ◌≤◌, IsTrue, IfOk};
ghost use Rattle.k42_limits.specs.declared.TheConstants.{PROCESSORS};

use k42_choice::Way;
use k42_kinds::Reach;
use k42_memory::Memory;
use std::alloc::Global;

/// The row with which an object begins.
#[tactic(auto, using(k42_kinds::proofs::RowSteps::made_from_push))]
pub(crate) fn begun<W: Way>(way: &W, alloc: Global, procs: u32) -> Result<Vec<W::Part>, Memory>
    requires known { (0 < procs) × (procs ≤ PROCESSORS) }
    ensures { IfOk result (λ row. W.whole way.now procs row.items) }
{
    let cells = way.shape().cells(procs);
    let mut row = Vec::new(alloc);
    for cell in 0..cells {
        row.push(way.empty_part(alloc, cell, procs)?)?;
    }
    Ok(row)
}

/// An operation at the cells that it needs.
pub(crate) fn called<W: Way>(
    way: &W,
    alloc: Global,
    row: &mut Vec<W::Part>,
    op: &W::Op,
    proc: u32,
    procs: u32,
) -> Result<W::Reply, Memory>
    requires known { (proc < procs) × (procs ≤ PROCESSORS) }
    requires takes { IsTrue ((W.object way.now).takes op.now) }
    requires row { W.whole way.now procs row.old.items }
    ensures { W.whole way.now procs row.new.items }
{
    match way.reach(op, proc, procs) {
        Reach::One(cell) => way.step_one(alloc, &mut row[cell as usize], op),
        Reach::All => way.step_all(alloc, row, op),
    }
}

/// The state for which the row stands.
pub(crate) fn exported<W: Way>(
    way: &W,
    alloc: Global,
    row: &mut Vec<W::Part>,
    procs: u32,
) -> Result<W::State, Memory>
    requires known { (0 < procs) × (procs ≤ PROCESSORS) }
    requires row { W.whole way.now procs row.old.items }
    ensures { IfOk result (W.serves way.now) }
{
    way.export(alloc, row)
}

/// A row that stands for the state.
pub(crate) fn imported<W: Way>(
    way: &W,
    alloc: Global,
    state: &W::State,
    procs: u32,
) -> Result<Vec<W::Part>, Memory>
    requires known { (0 < procs) × (procs ≤ PROCESSORS) }
    requires served { W.serves way.now state.now }
    ensures { IfOk result (λ row. W.whole way.now procs row.items) }
{
    way.import(alloc, state, procs)
}
