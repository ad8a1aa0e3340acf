//! Rows of parts of any way, used as the library uses them.
ghost use Rattle.std.specs.Prelude.{◌≡◌, ◌<◌, ◌≤◌, IsTrue, IfOk};
ghost use Rattle.k42_limits.specs.declared.TheConstants.{PROCESSORS};

use k42_choice::Way;
use k42_kinds::{Kind, Op, Reach, Reply};
use k42_memory::Memory;
use std::alloc::Global;
use std::process::Abort;

/// The row with which an object begins.
#[tactic(auto, using(k42_kinds::proofs::RowSteps::made_from_push))]
pub(crate) fn begun<W: Way>(way: &W, alloc: Global, procs: u32) -> Result<Vec<W::Part>, Memory>
    requires known { (0 < procs) × (procs ≤ PROCESSORS) }
    ensures { IfOk result (λ row. W.whole way.now procs row.items) }
{
    let cells = way.shape().cells(procs);
    let mut row = Vec::new(alloc);
    for cell in 0..cells {
        row.push(way.empty_part(alloc, cell, procs)?)?;
    }
    Ok(row)
}

/// An operation at the cells that it needs.
fn called<W: Way>(
    way: &W,
    alloc: Global,
    row: &mut Vec<W::Part>,
    op: &W::Op,
    proc: u32,
    procs: u32,
) -> Result<W::Reply, Memory>
    requires known { (proc < procs) × (procs ≤ PROCESSORS) }
    requires takes { IsTrue ((W.object way.now).takes op.now) }
    requires row { W.whole way.now procs row.old.items }
    ensures { W.whole way.now procs row.new.items }
{
    match way.reach(op, proc, procs) {
        Reach::One(cell) => way.step_one(alloc, &mut row[cell as usize], op),
        Reach::All => way.step_all(alloc, row, op),
    }
}

/// Each operation, asked on its processor, is to be replied so.
pub(crate) fn walk<W: Way + Kind<Op = Op, Reply = Reply>>(
    rt: &impl Abort,
    alloc: Global,
    way: &W,
    row: &mut Vec<W::Part>,
    calls: &[(u32, Op, Reply)],
) -> Result<(), Memory>
    requires { W.whole way.now 6 row.old.items }
    ensures { W.whole way.now 6 row.new.items }
{
    for (proc, op, due) in calls {
        assert!(rt; *proc < 6 && way.takes(op));
        let told = called(way, alloc, row, op, *proc, 6)?;
        assert!(rt; told == *due, "{told:?} in place of {due:?}");
    }
    Ok(())
}

/// The state after these calls on six processors, from this state on.
pub(crate) fn after<W: Way + Kind<Op = Op, Reply = Reply>>(
    rt: &impl Abort,
    alloc: Global,
    way: &W,
    state: &W::State,
    calls: &[(u32, Op, Reply)],
) -> Result<W::State, Memory>
    requires { W.serves way.now state.now }
    ensures { IfOk result (W.serves way.now) }
{
    let mut row = way.import(alloc, state, 6)?;
    walk(rt, alloc, way, &mut row, calls)?;
    way.export(alloc, &mut row)
}
