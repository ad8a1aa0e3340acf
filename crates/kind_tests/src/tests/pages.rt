//! Both layouts at several processors, and pages that come back from the cells.
ghost use Rattle.std.specs.Prelude.{◌≡◌, ◌<◌, ◌≤◌, IsTrue, IfOk};
ghost use Rattle.k42_limits.specs.declared.TheConstants.{PROCESSORS};
ghost use Rattle.k42_shapes.specs.Shapes.{IsKnownTag};
ghost use Rattle.k42_kinds.specs.declared.operation.Op.{Op};
ghost use Rattle.k42_kinds.specs.Objects.{pages_object};

use co_pages::{SharedPages, SpreadPages};
use k42_kinds::{Kind, Layout, Op, Reach, Reply, Text, empty_row, step_row};
use k42_memory::Memory;
use std::alloc::Global;
use std::process::Abort;
use std::test::Fail;

/// Reads a page, writes it and reads it again; then counts what is dirty before and after a clean.
fn follow<L: Layout + Kind<Op = Op, Reply = Reply>>(
    rt: &impl Abort,
    alloc: Global,
    layout: &L,
    procs: u32,
    proc: u32,
    hello: &Text,
) -> Result<(), Memory>
    requires known { IsKnownTag (L.shapes layout.now) (L.tag_of layout.now) × (proc < procs) × (procs ≤ PROCESSORS) }
    requires takes { (op : Op) → IsTrue (pages_object.takes op) → IsTrue ((L.object layout.now).takes op) }
{
    let mut row = empty_row(layout, alloc, procs)?;
    let unread = step_row(layout, alloc, &mut row, &Op::Read(0), proc, procs)?;
    assert_eq!(rt; unread, Reply::Zero);
    let wrote = step_row(layout, alloc, &mut row, &Op::Write(0, *hello), proc, procs)?;
    assert_eq!(rt; wrote, Reply::Done);
    let read = step_row(layout, alloc, &mut row, &Op::Read(0), proc, procs)?;
    assert_eq!(rt; read, Reply::Text(*hello));
    let dirty = step_row(layout, alloc, &mut row, &Op::Dirty, proc, procs)?;
    assert_eq!(rt; dirty, Reply::Number(1));
    let cleaned = step_row(layout, alloc, &mut row, &Op::Clean, proc, procs)?;
    assert_eq!(rt; cleaned, Reply::Number(1));
    let dirty = step_row(layout, alloc, &mut row, &Op::Dirty, proc, procs)?;
    assert_eq!(rt; dirty, Reply::Number(0));
    Ok(())
}

#[test]
fn all_processors_see_the_same_pages(rt: HostRuntime) -> Result<(), Fail> {
    let hello = Text::of(b"hello").ok_or("no text")?;
    let places: [(u32, u32); 3] = [(1, 0), (8, 0), (8, 7)];
    for (procs, proc) in places {
        follow(&rt, rt.alloc(), &SharedPages, procs, proc, &hello)?;
        follow(&rt, rt.alloc(), &SpreadPages, procs, proc, &hello)?;
    }
    Ok(())
}

#[test]
fn a_page_is_read_and_written_in_the_cell_of_its_number(rt: HostRuntime) -> Result<(), Fail> {
    let hello = Text::of(b"hello").ok_or("no text")?;
    assert!(rt; SpreadPages.reach(&Op::Write(1023, hello), 0, 8) == Reach::One(7));
    assert!(rt; SpreadPages.reach(&Op::Read(17), 5, 8) == Reach::One(1));
    assert!(rt; SpreadPages.reach(&Op::Dirty, 5, 8) == Reach::All);
    assert!(rt; SpreadPages.reach(&Op::Clean, 0, 1) == Reach::All);
    assert!(rt; SharedPages.reach(&Op::Read(17), 5, 8) == Reach::One(0));
    Ok(())
}

/// Imports a state, and exports it again.
fn brought_back<L: Layout>(
    layout: &L,
    alloc: Global,
    state: &L::State,
    procs: u32,
) -> Result<L::State, Memory>
    requires known { IsKnownTag (L.shapes layout.now) (L.tag_of layout.now) × (0 < procs) × (procs ≤ PROCESSORS) }
    requires served { L.serves layout.now state.now }
    ensures { IfOk result (λ same. same ≡ state.now) }
{
    let mut row = layout.import(alloc, state, procs)?;
    layout.export(alloc, &mut row)
}

#[test]
fn three_dirty_pages_come_back_from_eight_cells(rt: HostRuntime) -> Result<(), Fail> {
    let text = Text::of(b"hi").ok_or("no text")?;
    let mut pages = SpreadPages.empty(rt.alloc());
    for number in [5, 13, 1023] {
        SpreadPages.step(rt.alloc(), &mut pages, &Op::Write(number, text))?;
    }
    let exported = brought_back(&SpreadPages, rt.alloc(), &pages, 8)?;
    assert!(rt; exported.iter().eq(pages.iter()));
    assert_eq!(rt; exported.dirty(), 3);
    Ok(())
}

#[test]
fn shared_pages_are_counted_at_all_their_cells_too(rt: HostRuntime) -> Result<(), Fail> {
    let mut row = empty_row(&SharedPages, rt.alloc(), 8)?;
    let dirty = SharedPages.step_all(rt.alloc(), &mut row, &Op::Dirty)?;
    assert_eq!(rt; dirty, Reply::Number(0));
    Ok(())
}
