//! Both layouts at several processors, and a directory that moves between them.
ghost use Rattle.std.specs.Prelude.{◌≡◌, ◌<◌, ◌≤◌, IsTrue};
ghost use Rattle.k42_limits.specs.declared.TheConstants.{PROCESSORS};
ghost use Rattle.k42_shapes.specs.Shapes.{IsKnownTag};
ghost use Rattle.k42_kinds.specs.declared.operation.Op.{Op};
ghost use Rattle.k42_kinds.specs.Objects.{directory_object};

use co_directory::{SharedDirectory, SpreadDirectory};
use k42_kinds::{Kind, Layout, Name, Op, Reach, Reply, empty_row, step_row};
use k42_memory::Memory;
use std::alloc::Global;
use std::process::Abort;
use std::test::Fail;

/// Binds, finds and unbinds one name, from the last and from the first processor in turn.
fn follow<L: Layout + Kind<Op = Op, Reply = Reply>>(
    rt: &impl Abort,
    alloc: Global,
    layout: &L,
    procs: u32,
    x: Name,
) -> Result<(), Memory>
    requires known { IsKnownTag (L.shapes layout.now) (L.tag_of layout.now) × (0 < procs) × (procs ≤ PROCESSORS) }
    requires takes { (op : Op) → IsTrue (directory_object.takes op) → IsTrue ((L.object layout.now).takes op) }
{
    let last = procs - 1;
    let mut row = empty_row(layout, alloc, procs)?;
    let bound = step_row(layout, alloc, &mut row, &Op::Bind(x, 1), last, procs)?;
    assert_eq!(rt; bound, Reply::Done);
    let bound = step_row(layout, alloc, &mut row, &Op::Bind(x, 2), 0, procs)?;
    assert_eq!(rt; bound, Reply::Taken);
    let found = step_row(layout, alloc, &mut row, &Op::Find(x), 0, procs)?;
    assert_eq!(rt; found, Reply::Number(1));
    let found = step_row(layout, alloc, &mut row, &Op::Unbind(x), last, procs)?;
    assert_eq!(rt; found, Reply::Number(1));
    let found = step_row(layout, alloc, &mut row, &Op::Unbind(x), 0, procs)?;
    assert_eq!(rt; found, Reply::None);
    let size = step_row(layout, alloc, &mut row, &Op::Size, last, procs)?;
    assert_eq!(rt; size, Reply::Number(0));
    Ok(())
}

#[test]
fn all_processors_see_one_directory(rt: HostRuntime) -> Result<(), Fail> {
    let x = Name::of(b"x").ok_or("no name")?;
    follow(&rt, rt.alloc(), &SharedDirectory, 1, x)?;
    follow(&rt, rt.alloc(), &SharedDirectory, 8, x)?;
    follow(&rt, rt.alloc(), &SpreadDirectory, 1, x)?;
    follow(&rt, rt.alloc(), &SpreadDirectory, 8, x)?;
    Ok(())
}

#[test]
fn reading_a_spread_directory_keeps_to_its_processor(rt: HostRuntime) -> Result<(), Fail> {
    let x = Name::of(b"x").ok_or("no name")?;
    assert!(rt; SpreadDirectory.reach(&Op::Find(x), 7, 8) == Reach::One(7));
    assert!(rt; SpreadDirectory.reach(&Op::Size, 7, 8) == Reach::One(7));
    assert!(rt; SpreadDirectory.reach(&Op::Bind(x, 1), 7, 8) == Reach::All);
    assert!(rt; SpreadDirectory.reach(&Op::Unbind(x), 0, 1) == Reach::All);
    assert!(rt; SharedDirectory.reach(&Op::Bind(x, 1), 7, 8) == Reach::One(0));
    Ok(())
}

#[test]
fn the_names_move_from_layout_to_layout(rt: HostRuntime) -> Result<(), Fail> {
    let x = Name::of(b"x").ok_or("no name")?;
    let y = Name::of(b"y").ok_or("no name")?;
    let mut row = empty_row(&SharedDirectory, rt.alloc(), 8)?;
    step_row(
        &SharedDirectory,
        rt.alloc(),
        &mut row,
        &Op::Bind(y, 2),
        7,
        8,
    )?;
    step_row(
        &SharedDirectory,
        rt.alloc(),
        &mut row,
        &Op::Bind(x, 1),
        0,
        8,
    )?;
    let names = SharedDirectory.export(rt.alloc(), &mut row)?;
    let mut row = SpreadDirectory.import(rt.alloc(), &names, 8)?;
    let found = step_row(&SpreadDirectory, rt.alloc(), &mut row, &Op::Find(x), 7, 8)?;
    assert_eq!(rt; found, Reply::Number(1));
    let names = SpreadDirectory.export(rt.alloc(), &mut row)?;
    assert!(rt; names.get(&y) == Some(2) && names.size() == 2);
    Ok(())
}

#[test]
fn a_shared_directory_is_counted_at_all_its_cells_too(rt: HostRuntime) -> Result<(), Fail> {
    let mut row = empty_row(&SharedDirectory, rt.alloc(), 8)?;
    let size = SharedDirectory.step_all(rt.alloc(), &mut row, &Op::Size)?;
    assert_eq!(rt; size, Reply::Number(0));
    Ok(())
}

/// It passes too where the first allocation fails, as under `rt try --test --fail-alloc 1`.
#[test]
fn an_empty_shared_directory_asks_for_no_memory(rt: HostRuntime) -> Result<(), Fail> {
    let x = Name::of(b"x").ok_or("no name")?;
    let mut names = SharedDirectory.empty_part(rt.alloc(), 0, 8)?;
    assert!(rt; names.get(&x) == None && names.remove(&x) == None && names.size() == 0);
    let state = names.state(rt.alloc())?;
    assert_eq!(rt; state.size(), 0);
    Ok(())
}

#[test]
fn both_layouts_step_the_directory_of_one_thread(rt: HostRuntime) -> Result<(), Fail> {
    let x = Name::of(b"x").ok_or("no name")?;
    let mut names = SharedDirectory.admit(SharedDirectory.empty(rt.alloc()));
    let bound = SharedDirectory.step(rt.alloc(), &mut names, &Op::Bind(x, 1))?;
    assert_eq!(rt; bound, Reply::Done);
    let mut names = SpreadDirectory.admit(names);
    let found = SpreadDirectory.step(rt.alloc(), &mut names, &Op::Find(x))?;
    assert_eq!(rt; found, Reply::Number(1));
    Ok(())
}
