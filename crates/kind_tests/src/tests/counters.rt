//! Both layouts at several processors, and a value that moves between them.
ghost use Rattle.std.specs.Prelude.{◌≡◌, ◌<◌, ◌≤◌, IsTrue};
ghost use Rattle.k42_limits.specs.declared.TheConstants.{PROCESSORS};
ghost use Rattle.k42_shapes.specs.Shapes.{IsKnownTag};
ghost use Rattle.k42_kinds.specs.declared.operation.Op.{Op};
ghost use Rattle.k42_kinds.specs.Objects.{counter_object};

use co_counter::{SharedCounter, SpreadCounter};
use k42_kinds::{Kind, Layout, Op, Reach, Reply, empty_row, step_row};
use k42_memory::Memory;
use std::alloc::Global;
use std::process::Abort;
use std::test::Fail;

/// Adds from the first and from the last processor, drains the counter from the last one, and reads
/// it from the first.
fn follow<L: Layout + Kind<Op = Op, Reply = Reply>>(
    rt: &impl Abort,
    alloc: Global,
    layout: &L,
    procs: u32,
) -> Result<(), Memory>
    requires known { IsKnownTag (L.shapes layout.now) (L.tag_of layout.now) × (0 < procs) × (procs ≤ PROCESSORS) }
    requires takes { (op : Op) → IsTrue (counter_object.takes op) → IsTrue ((L.object layout.now).takes op) }
{
    let last = procs - 1;
    let mut row = empty_row(layout, alloc, procs)?;
    let amount = Op::Add(4_294_967_295);
    assert_eq!(rt;
        step_row(layout, alloc, &mut row, &amount, 0, procs)?,
        Reply::Done
    );
    assert_eq!(rt;
        step_row(layout, alloc, &mut row, &amount, last, procs)?,
        Reply::Done
    );
    let drained = step_row(layout, alloc, &mut row, &Op::Drain, last, procs)?;
    assert_eq!(rt; drained, Reply::Number(8_589_934_590));
    let left = step_row(layout, alloc, &mut row, &Op::Get, 0, procs)?;
    assert_eq!(rt; left, Reply::Number(0));
    Ok(())
}

#[test]
fn all_processors_count_together(rt: HostRuntime) -> Result<(), Fail> {
    follow(&rt, rt.alloc(), &SharedCounter, 1)?;
    follow(&rt, rt.alloc(), &SharedCounter, 8)?;
    follow(&rt, rt.alloc(), &SpreadCounter, 1)?;
    follow(&rt, rt.alloc(), &SpreadCounter, 8)?;
    Ok(())
}

#[test]
fn only_adding_to_a_spread_counter_keeps_to_its_processor(rt: HostRuntime) {
    assert!(rt; SpreadCounter.reach(&Op::Add(1), 7, 8) == Reach::One(7));
    assert!(rt; SpreadCounter.reach(&Op::Get, 7, 8) == Reach::All);
    assert!(rt; SpreadCounter.reach(&Op::Drain, 0, 1) == Reach::All);
    assert!(rt; SharedCounter.reach(&Op::Add(1), 7, 8) == Reach::One(0));
}

#[test]
fn the_value_moves_from_layout_to_layout(rt: HostRuntime) -> Result<(), Fail> {
    let mut row = SpreadCounter.import(rt.alloc(), &5, 8)?;
    step_row(&SpreadCounter, rt.alloc(), &mut row, &Op::Add(7), 7, 8)?;
    let value = SpreadCounter.export(rt.alloc(), &mut row)?;
    let mut row = SharedCounter.import(rt.alloc(), &value, 8)?;
    let read = step_row(&SharedCounter, rt.alloc(), &mut row, &Op::Get, 7, 8)?;
    assert_eq!(rt; read, Reply::Number(12));
    Ok(())
}

#[test]
fn a_shared_counter_is_read_at_all_its_cells_too(rt: HostRuntime) -> Result<(), Fail> {
    let mut row = empty_row(&SharedCounter, rt.alloc(), 8)?;
    let read = SharedCounter.step_all(rt.alloc(), &mut row, &Op::Get)?;
    assert_eq!(rt; read, Reply::Number(0));
    Ok(())
}
