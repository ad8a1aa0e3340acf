//! A pass that finds an object over draws that at a cell, which a caller may hold.
ghost use Rattle.std.specs.Prelude.{◌<◌, length};
ghost use Rattle.k42_kinds.specs.declared.entry.Act.TheVariants as Act;
ghost use Rattle.k42_kinds.specs.declared.entry.To.TheVariants as To;
ghost use Rattle.k42_board.specs.Seen.{HasRoom};
ghost use Rattle.k42_board.specs.Views.{object_begun};
ghost use Rattle.k42_mediator.specs.Marks.{MayMark};
ghost use Rattle.mediator_tests.specs.Ready.{IsHolding};
ghost use Rattle.table_crews.specs.Ready.{HoldsNoCell};

use crate::tests::calls::{end, end_activity, fill, hold, let_go, look_in_vain, start_activity};
use crate::tests::crews::{finish, start};
use crate::tests::phases::swap;
use co_any::AnyLayout;
use k42_kinds::{Act, Answer, Entry, KindName, Layout, LayoutName, Op, Reply, To};
use k42_limits::PASS_ENTRIES;
use k42_mediator::{Begun, Marked, begin, mark};
use k42_rule::{Pass, Sys};
use std::alloc::Global;
use std::process::Abort;
use std::sync::Wait;

/// Destroys the object.
fn destroy(rt: &impl Abort, alloc: Global, sys: &Sys<AnyLayout>, pass: &mut Pass<AnyLayout>)
    requires { HoldsNoCell sys.now pass.old }
    ensures { HoldsNoCell sys.now pass.new }
{
    assert!(rt; 0 < sys.objects());
    let dead = sys.declared(0).with_tag(2);
    swap(rt, alloc, sys, pass, &dead);
}

/// Begins a call that comes to the first cell of the row, and holds it.
fn come_in<R: Abort + Wait>(
    rt: &R,
    alloc: Global,
    sys: &Sys<AnyLayout>,
    pass: &mut Pass<AnyLayout>,
    cell: u32,
)
    requires { HoldsNoCell sys.now pass.old }
    ensures { IsHolding cell sys.now pass.new }
{
    start_activity(rt, sys, pass);
    look_in_vain(rt, sys, pass);
    fill(rt, alloc, sys, pass);
    hold(rt, sys, pass, cell);
}

/// Leaves the cell, and ends the call.
fn go_out(sys: &Sys<AnyLayout>, pass: &mut Pass<AnyLayout>, cell: u32)
    requires few { cell < 256 }
    requires holding { IsHolding cell sys.now pass.old }
    ensures { HoldsNoCell sys.now pass.new }
{
    let_go(sys, pass, cell);
    end(sys, pass);
    end_activity(sys, pass);
}

/// Would begin a destroy of an object that is dead.
fn find_dead(rt: &impl Abort, sys: &Sys<AnyLayout>, pass: &mut Pass<AnyLayout>)
    requires { HoldsNoCell sys.now pass.old }
    ensures free { HoldsNoCell sys.now pass.new }
    ensures may { MayMark (Act.Swap To.Dead) pass.new.view }
    ensures there { object_begun pass.new.view.last < length sys.now.layouts }
    ensures room { HasRoom pass.new }
{
    assert!(rt; pass.is_idle() && 0 < sys.objects());
    assert!(rt; begin(sys, pass, 0) == Begun::Gone);
    pass.reserve().expect(rt, "memory");
    assert!(rt; pass.drawn() < PASS_ENTRIES);
}

/// Tries to draw that at the cell, which that caller is to hold.
fn find_held(rt: &impl Abort, sys: &Sys<AnyLayout>, pass: &mut Pass<AnyLayout>, holder: u32)
    requires free { HoldsNoCell sys.now pass.old }
    requires may { MayMark (Act.Swap To.Dead) pass.old.view }
    requires there { object_begun pass.old.view.last < length sys.now.layouts }
    requires room { HasRoom pass.old }
    ensures free { HoldsNoCell sys.now pass.new }
    ensures may { MayMark (Act.Swap To.Dead) pass.new.view }
    ensures there { object_begun pass.new.view.last < length sys.now.layouts }
    ensures room { HasRoom pass.new }
{
    let answer = mark(sys, pass, Act::Swap(To::Dead));
    assert!(rt; answer == Marked::Held { holder });
}

/// Draws it.
fn draw(rt: &impl Abort, sys: &Sys<AnyLayout>, pass: &mut Pass<AnyLayout>)
    requires free { HoldsNoCell sys.now pass.old }
    requires may { MayMark (Act.Swap To.Dead) pass.old.view }
    requires there { object_begun pass.old.view.last < length sys.now.layouts }
    requires room { HasRoom pass.old }
    ensures { HoldsNoCell sys.now pass.new }
{
    let answer = mark(sys, pass, Act::Swap(To::Dead));
    assert!(rt; answer == Marked::Marked);
}

/// The entry of a destroy by a caller that had drawn none.
fn destroyed(caller: u32, stamp: u64, incarnation: u32, answer: Answer<Reply>) -> Entry<Op, Reply> {
    Entry {
        stamp,
        caller,
        index: 0,
        object: 0,
        incarnation,
        cell: 8,
        act: Act::Swap(To::Dead),
        answer,
        proc: 0,
        generation: None,
    }
}

#[test]
fn a_dead_object_is_told_at_its_cell_once_that_is_free(rt: HostRuntime) {
    let counter = AnyLayout::of(KindName::Counter, LayoutName::Shared);
    let (sys, mut zero, mut one) = start(&rt, rt.alloc(), counter);
    destroy(&rt, rt.alloc(), &sys, &mut zero);
    come_in(&rt, rt.alloc(), &sys, &mut zero, 8);
    find_dead(&rt, &sys, &mut one);
    find_held(&rt, &sys, &mut one, 0);
    go_out(&sys, &mut zero, 8);
    draw(&rt, &sys, &mut one);
    let lists = finish(&rt, rt.alloc(), sys, zero, one);
    assert_eq!(rt; lists.len(), 2);
    let first = destroyed(0, 1, 0, Answer::Swapped(1));
    assert!(rt; lists[0].as_slice() == [first].as_slice());
    let second = destroyed(1, 2, 1, Answer::Gone);
    assert!(rt; lists[1].as_slice() == [second].as_slice());
}
