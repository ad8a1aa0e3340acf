//! Rows that are handed from pass to pass.
ghost use Rattle.table_crews.specs.Ready.{HoldsNoCell};

use crate::tests::crews::start;
use crate::tests::phases::{swap, wait_free};
use co_any::AnyLayout;
use k42_quiesce::collect;
use k42_rule::{Row, Sys, pop_row, push_row};
use std::alloc::Global;
use std::process::Abort;
use std::sync::Wait;
use table_crews::Walk;

/// Pushes the newest row that the pass holds.
fn push<R: Abort + Wait>(rt: &R, sys: &Sys<AnyLayout>, pass: &mut Walk)
    requires free { HoldsNoCell sys.now pass.old }
    ensures free { HoldsNoCell sys.now pass.new }
{
    assert!(rt; !pass.rows().is_empty());
    push_row(rt, sys, pass).expect(rt, "memory");
}

/// Pops a row, and answers whether there was one.
fn pop<R: Abort + Wait>(rt: &R, sys: &Sys<AnyLayout>, pass: &mut Walk) -> bool
    requires free { HoldsNoCell sys.now pass.old }
    ensures free { HoldsNoCell sys.now pass.new }
{
    assert!(rt; pass.row_room() >= 2);
    pop_row(rt, sys, pass)
}

#[test]
fn a_row_that_one_pass_pushed_is_freed_by_another(rt: HostRuntime) {
    let (sys, _zero, mut one, mut other) = start(&rt, rt.alloc());
    swap(&rt, rt.alloc(), &sys, &mut one, 0, 1, 0);
    assert!(rt; !pop(&rt, &sys, &mut other));
    push(&rt, &sys, &mut one);
    assert!(rt; one.rows().is_empty());
    assert!(rt; pop(&rt, &sys, &mut other));
    let row = Row {
        object: 0,
        incarnation: 0,
    };
    assert!(rt; other.rows() == [row].as_slice());
    assert!(rt; !pop(&rt, &sys, &mut one));
    wait_free(&rt, &sys, &mut other, 1);
    assert!(rt; other.rows().is_empty());
    wait_free(&rt, &sys, &mut one, 0);
}

/// Swaps the first object so often, and hands each old row over. Each grace but the first frees the row before.
fn hand_many<R: Abort + Wait>(
    rt: &R,
    alloc: Global,
    sys: &Sys<AnyLayout>,
    pass: &mut Walk,
    rows: u32,
)
    requires free { HoldsNoCell sys.now pass.old }
    ensures free { HoldsNoCell sys.now pass.new }
{
    for number in 0..rows {
        let freed = u32::from(number > 0);
        swap(rt, alloc, sys, pass, 0, 1 - number % 2, freed);
        push(rt, sys, pass);
    }
}

/// Collects so many rows, and frees those of them that were not freed yet.
fn collect_due<R: Abort + Wait>(
    rt: &R,
    sys: &Sys<AnyLayout>,
    pass: &mut Walk,
    rows: u32,
    freed: u32,
)
    requires free { HoldsNoCell sys.now pass.old }
    ensures free { HoldsNoCell sys.now pass.new }
{
    assert_eq!(rt; collect(rt, sys, pass), rows);
    wait_free(rt, sys, pass, freed);
    assert!(rt; pass.rows().is_empty());
}

#[test]
fn a_collect_takes_the_rows_that_there_is_room_for(rt: HostRuntime) {
    // A pass starts with room for 64 rows, and a collect leaves room for one. Only the youngest row was not freed yet.
    for (rows, rest) in [(64, 1), (100, 37)] {
        let (sys, _zero, mut one, mut other) = start(&rt, rt.alloc());
        hand_many(&rt, rt.alloc(), &sys, &mut one, rows);
        assert!(rt; one.rows().is_empty());
        collect_due(&rt, &sys, &mut other, 63, 0);
        collect_due(&rt, &sys, &mut other, rest, 1);
        collect_due(&rt, &sys, &mut one, 0, 0);
    }
}
