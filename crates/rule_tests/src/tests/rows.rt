//! Rows that are handed from pass to pass.
ghost use Rattle.table_crews.specs.Ready.{HoldsNoCell};

use k42_kinds::{Layout, LayoutName};
use k42_rule::{Pass, Sys, pop_row};
use std::sync::Wait;
use table_crews::{last, start_counter};

/// Pops a row, where there is room.
fn pop<L: Layout>(rt: &impl Wait, sys: &Sys<L>, pass: &mut Pass<L>) -> bool
    requires free { HoldsNoCell sys.now pass.old }
    ensures free { HoldsNoCell sys.now pass.new }
{
    pass.row_room() >= 2 && pop_row(rt, sys, pass)
}

#[test]
fn a_pop_finds_the_queue_empty_where_no_row_was_pushed(rt: HostRuntime) {
    let callers = vec![in rt.alloc(); 0, 0].expect(&rt, "memory");
    let started = start_counter(rt.alloc(), LayoutName::Shared, 1, callers);
    let (sys, mut passes) = started.expect(&rt, "memory");
    let mut one = last(&sys, &mut passes).expect(&rt, "a pass");
    let mut other = last(&sys, &mut passes).expect(&rt, "a pass");
    assert_eq!(rt; one.row_room(), 64);
    assert!(rt; !pop(&rt, &sys, &mut other));
    assert!(rt; !pop(&rt, &sys, &mut one));
    assert!(rt; one.rows().is_empty() && other.rows().is_empty());
    one.reserve().expect(&rt, "memory");
    assert!(rt; one.row_room() >= 64);
}
