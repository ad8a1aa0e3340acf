//! Each layout at one and at eight processors, and objects that move through all of them.
ghost use Rattle.std.specs.Prelude.{◌≡◌, ◌<◌, ◌≤◌, IsTrue, IfOk};
ghost use Rattle.k42_limits.specs.declared.TheConstants.{PROCESSORS};
ghost use Rattle.k42_kinds.specs.Operations.{takes_operation};
ghost use Rattle.co_any.specs.Layouts.{whole_of};

use co_any::{AnyLayout, AnyPart, AnyState};
use k42_kinds::{
    Act, KindName, Layout, LayoutName, Name, Op, Reply, Text, To, empty_row, kind_of, step_row,
};
use k42_memory::Memory;
use k42_stamp::{draw_keeps, hand_begins, merged_is_legal};
use std::alloc::Global;
use std::process::Abort;
use std::test::Fail;

/// Steps a new row through the operations, from the last and the first processor in turn, and
/// compares each reply.
fn follow(
    rt: &impl Abort,
    alloc: Global,
    layout: &AnyLayout,
    procs: u32,
    steps: &[(Op, Reply)],
) -> Result<(), Memory>
    requires { (layout.now.tag ≤ 2) × (0 < procs) × (procs ≤ PROCESSORS) }
{
    let mut row = empty_row(layout, alloc, procs)?;
    let mut proc = procs - 1;
    for (op, reply) in steps {
        if kind_of(op) == Some(layout.kind) {
            let replied = step_row(layout, alloc, &mut row, op, proc, procs)?;
            assert!(rt; replied == *reply, "{op:?} gave {replied:?}");
            proc = procs - 1 - proc;
        }
    }
    Ok(())
}

/// The same at 1 and at 8 processors, shared and spread.
fn follow_all(
    rt: &impl Abort,
    alloc: Global,
    kind: KindName,
    steps: &[(Op, Reply)],
) -> Result<(), Memory> {
    for layout in [LayoutName::Shared, LayoutName::Spread] {
        follow(rt, alloc, &AnyLayout::of(kind, layout), 1, steps)?;
        follow(rt, alloc, &AnyLayout::of(kind, layout), 8, steps)?;
    }
    Ok(())
}

#[test]
fn all_processors_count_together(rt: HostRuntime) -> Result<(), Fail> {
    let steps = [
        (Op::Add(4_294_967_295), Reply::Done),
        (Op::Add(4_294_967_295), Reply::Done),
        (Op::Drain, Reply::Number(8_589_934_590)),
        (Op::Get, Reply::Number(0)),
    ];
    follow_all(&rt, rt.alloc(), KindName::Counter, &steps)?;
    Ok(())
}

#[test]
fn all_processors_see_one_directory(rt: HostRuntime) -> Result<(), Fail> {
    let x = Name::of(b"x").ok_or("no name")?;
    let steps = [
        (Op::Bind(x, 1), Reply::Done),
        (Op::Bind(x, 2), Reply::Taken),
        (Op::Find(x), Reply::Number(1)),
        (Op::Unbind(x), Reply::Number(1)),
        (Op::Unbind(x), Reply::None),
        (Op::Size, Reply::Number(0)),
    ];
    follow_all(&rt, rt.alloc(), KindName::Directory, &steps)?;
    Ok(())
}

#[test]
fn all_processors_write_the_same_pages(rt: HostRuntime) -> Result<(), Fail> {
    let hello = Text::of(b"hello").ok_or("no text")?;
    let steps = [
        (Op::Read(0), Reply::Zero),
        (Op::Write(0, hello), Reply::Done),
        (Op::Read(0), Reply::Text(hello)),
        (Op::Dirty, Reply::Number(1)),
        (Op::Clean, Reply::Number(1)),
        (Op::Dirty, Reply::Number(0)),
    ];
    follow_all(&rt, rt.alloc(), KindName::Pages, &steps)?;
    Ok(())
}

#[test]
fn a_dead_object_is_gone_for_all_processors(rt: HostRuntime) -> Result<(), Fail> {
    let dead = AnyLayout::of(KindName::Counter, LayoutName::Spread).with_tag(2);
    let steps = [(Op::Add(1), Reply::Gone), (Op::Get, Reply::Gone)];
    follow(&rt, rt.alloc(), &dead, 8, &steps)?;
    assert!(rt; dead.act() == Act::Swap(To::Dead) && dead.kind == KindName::Counter);
    let mut row = dead.import(rt.alloc(), &AnyState::Dead, 8)?;
    assert!(rt; matches!(dead.export(rt.alloc(), &mut row)?, AnyState::Dead));
    Ok(())
}

/// The row of the next layout, made of what the parts of a row stand for.
fn moved(
    alloc: Global,
    from: &AnyLayout,
    to: &AnyLayout,
    parts: &mut Vec<AnyPart>,
) -> Result<Vec<AnyPart>, Memory>
    requires known { (from.now.tag ≤ 1) × (to.now.tag ≤ 2) }
    requires same { from.now.kind ≡ to.now.kind }
    requires row { whole_of from.now.kind from.now.tag 8 parts.old.items }
    ensures { IfOk result (λ next. whole_of to.now.kind to.now.tag 8 next.items) }
{
    let state = from.export(alloc, parts)?;
    let next = to.import(alloc, &to.admit(state), 8)?;
    Ok(next)
}

/// Changes an object, reads it in each layout to which it moves, and destroys it.
fn follow_moves(
    rt: &impl Abort,
    alloc: Global,
    kind: KindName,
    change: &Op,
    read: &Op,
    due: &Reply,
) -> Result<(), Memory>
    requires change { IsTrue (takes_operation kind change.now) }
    requires read { IsTrue (takes_operation kind read.now) }
{
    let shared = AnyLayout { kind, tag: 0 };
    let spread = AnyLayout { kind, tag: 1 };
    let dead = AnyLayout { kind, tag: 2 };
    let mut row = empty_row(&shared, alloc, 8)?;
    step_row(&shared, alloc, &mut row, change, 7, 8)?;
    let mut row = moved(alloc, &shared, &spread, &mut row)?;
    assert_eq!(rt; step_row(&spread, alloc, &mut row, read, 0, 8)?, *due);
    let mut row = moved(alloc, &spread, &shared, &mut row)?;
    assert_eq!(rt; step_row(&shared, alloc, &mut row, read, 7, 8)?, *due);
    let mut row = moved(alloc, &shared, &dead, &mut row)?;
    assert_eq!(rt; step_row(&dead, alloc, &mut row, read, 7, 8)?, Reply::Gone);
    Ok(())
}

#[test]
fn an_object_moves_from_layout_to_layout_until_it_is_dead(rt: HostRuntime) -> Result<(), Fail> {
    let x = Name::of(b"x").ok_or("no name")?;
    let hi = Text::of(b"hi").ok_or("no text")?;
    let cases = [
        (Op::Add(5), Op::Get, Reply::Number(5)),
        (Op::Bind(x, 1), Op::Find(x), Reply::Number(1)),
        (Op::Write(5, hi), Op::Read(5), Reply::Text(hi)),
        (Op::Write(5, hi), Op::Dirty, Reply::Number(1)),
    ];
    for (change, read, due) in cases {
        if let Some(kind) = kind_of(&change) {
            if kind_of(&read) == Some(kind) {
                follow_moves(&rt, rt.alloc(), kind, &change, &read, &due)?;
            }
        }
    }
    Ok(())
}

/// One operation of a new row at all its cells.
fn stepped_at_all(alloc: Global, layout: &AnyLayout, op: &Op) -> Result<Reply, Memory>
    requires tag { layout.now.tag ≤ 2 }
    requires takes { IsTrue (takes_operation layout.now.kind op.now) }
{
    let mut row = empty_row(layout, alloc, 8)?;
    layout.step_all(alloc, &mut row, op)
}

#[test]
fn every_layout_can_be_read_at_all_its_cells(rt: HostRuntime) -> Result<(), Fail> {
    let reads = [
        (KindName::Counter, Op::Get),
        (KindName::Directory, Op::Size),
        (KindName::Pages, Op::Dirty),
    ];
    for (kind, op) in reads {
        if kind_of(&op) == Some(kind) {
            for tag in 0..3 {
                let read = stepped_at_all(rt.alloc(), &AnyLayout { kind, tag }, &op)?;
                let due = if tag == 2 {
                    Reply::Gone
                } else {
                    Reply::Number(0)
                };
                assert_eq!(rt; read, due);
            }
        }
    }
    Ok(())
}

#[test]
fn the_laws_of_rows_hold_for_the_layouts_of_all_kinds(_rt: HostRuntime) {
    draw_keeps::<AnyLayout>(8);
    hand_begins::<AnyLayout>(8);
    merged_is_legal::<AnyLayout>(8);
}
