//! Callers that miss an entry: one installs it, another finds it there or finds the cell held.
ghost use Rattle.std.specs.Prelude.{◌≡◌, true};
ghost use Rattle.k42_shapes.specs.Shapes.{IsLiveTag};
ghost use Rattle.phase_core.specs.Stages.{is_out, is_missed};
ghost use Rattle.k42_tables.specs.Entries.{LeadsTo, EndsAt};
ghost use Rattle.k42_tables.specs.declared.answers.Entered.TheVariants as Entered;
ghost use Rattle.k42_rule.specs.Tags.{HasTags};
ghost use Rattle.table_crews.specs.Ready.{HoldsNoCell};
ghost use Rattle.tables_tests.specs.Callers.{IsBusy};

use co_any::AnyLayout;
use k42_kinds::{KindName, Layout, LayoutName};
use k42_rule::{Keep, Pass, Sys, lock, root_step};
use k42_shapes::Shape;
use k42_tables::{
    Entered, Filled, Root, SharedRoot, SpreadRoot, Tried, finish_call, look_up, miss, try_miss,
};
use std::alloc::Global;
use std::process::Abort;
use std::sync::Wait;
use table_crews::{enter, last, may_enter};

/// Begins an activity, in which the caller misses the object.
fn come_in<L: Layout>(rt: &impl Abort, sys: &Sys<L>, pass: &mut Pass<L>)
    requires { HoldsNoCell sys.now pass.old }
    ensures busy { IsBusy sys.now pass.new }
    ensures missed { is_missed pass.new.view.visitor.place 0 ≡ true }
{
    assert!(rt; 0 < sys.objects() && may_enter::<L>(pass));
    enter(sys, pass);
    assert_eq!(rt; look_up(sys, pass, 0), Entered::Missed);
}

/// Has the miss handled, which is to answer so.
fn fill_in<L: Layout, R: Abort + Wait>(
    rt: &R,
    alloc: Global,
    sys: &Sys<L>,
    pass: &mut Pass<L>,
    expected: Filled,
)
    requires busy { IsBusy sys.now pass.old }
    requires missed { is_missed pass.old.view.visitor.place 0 ≡ true }
    ensures busy { IsBusy sys.now pass.new }
    ensures there { EndsAt expected 0 pass.new.view.visitor.place }
{
    let answer = miss(rt, alloc, sys, pass, 0).expect(rt, "memory");
    assert_eq!(rt; answer, expected);
}

/// Tries once to have the miss handled, which is to answer so.
fn try_in<L: Layout>(
    rt: &impl Abort,
    alloc: Global,
    sys: &Sys<L>,
    pass: &mut Pass<L>,
    expected: Tried,
)
    requires busy { IsBusy sys.now pass.old }
    requires missed { is_missed pass.old.view.visitor.place 0 ≡ true }
{
    let tried = try_miss(alloc, sys, pass, 0).expect(rt, "memory");
    assert!(rt; tried == expected);
}

/// Takes the lock of the first cell of the row that it missed.
fn hold_first<L: Layout>(rt: &impl Abort, sys: &Sys<L>, pass: &mut Pass<L>)
    requires busy { IsBusy sys.now pass.old }
    requires missed { is_missed pass.old.view.visitor.place 0 ≡ true }
{
    let word = root_step(sys, pass, 0);
    assert_eq!(rt; word, 0x1000_0000);
    assert!(rt; lock(sys, pass, 0) == 0);
}

/// Looks up again, which is to lead to the cell.
fn look_again<L: Layout>(rt: &impl Abort, sys: &Sys<L>, pass: &mut Pass<L>, cell: u32)
    requires busy { IsBusy sys.now pass.old }
    requires out { is_out pass.old.view.visitor.place ≡ true }
    ensures busy { IsBusy sys.now pass.new }
    ensures there { LeadsTo (Entered.Direct cell) 0 pass.new.view.visitor.place }
{
    assert_eq!(rt; look_up(sys, pass, 0), Entered::Direct { cell });
}

/// A system of one object on two processors, with two callers on the first and one on the second.
fn start<L: Layout>(
    rt: &impl Abort,
    alloc: Global,
    layout: L,
) -> (Sys<L>, Pass<L>, Pass<L>, Pass<L>)
    requires live { IsLiveTag (L.shapes layout) (L.tag_of layout) }
    requires tags { HasTags L.shapes L.has_tag layout }
    ensures first { HoldsNoCell result.0 result.1 }
    ensures second { HoldsNoCell result.0 result.2 }
    ensures third { HoldsNoCell result.0 result.3 }
{
    let mut layouts = Vec::new(alloc);
    layouts.push(layout).expect(rt, "memory");
    let callers = vec![in alloc; 0, 0, 1].expect(rt, "memory");
    let started = table_crews::start(alloc, layouts, 2, callers, Keep::All);
    let (sys, mut passes) = started.expect(rt, "memory");
    let third = last(&sys, &mut passes).expect(rt, "a pass");
    let second = last(&sys, &mut passes).expect(rt, "a pass");
    let first = last(&sys, &mut passes).expect(rt, "a pass");
    (sys, first, second, third)
}

/// Two callers of one processor miss, and one of them installs the entry of both.
fn meet_at_a_cell<L: Layout, R: Abort + Wait>(rt: &R, alloc: Global, layout: L)
    requires live { IsLiveTag (L.shapes layout) (L.tag_of layout) }
    requires tags { HasTags L.shapes L.has_tag layout }
{
    let (sys, mut first, mut second, mut third) = start(rt, alloc, layout);
    come_in(rt, &sys, &mut first);
    come_in(rt, &sys, &mut second);
    come_in(rt, &sys, &mut third);
    fill_in(rt, alloc, &sys, &mut first, Filled::Installed { cell: 0 });
    let elsewhere = Filled::Elsewhere { word: 0x11 };
    fill_in(rt, alloc, &sys, &mut second, elsewhere);
    fill_in(rt, alloc, &sys, &mut third, Filled::Installed { cell: 1 });
    look_again(rt, &sys, &mut second, 0);
    finish_call(&sys, &mut second);
}

/// A caller tries at a cell that another one holds.
fn meet_a_holder<L: Layout>(rt: &impl Abort, alloc: Global, layout: L)
    requires live { IsLiveTag (L.shapes layout) (L.tag_of layout) }
    requires tags { HasTags L.shapes L.has_tag layout }
{
    let (sys, mut first, mut second, _third) = start(rt, alloc, layout);
    come_in(rt, &sys, &mut first);
    come_in(rt, &sys, &mut second);
    hold_first(rt, &sys, &mut second);
    try_in(rt, alloc, &sys, &mut first, Tried::Held { holder: 1 });
}

#[test]
fn a_try_at_a_held_cell_names_its_holder(rt: HostRuntime) {
    let counter = AnyLayout::of(KindName::Counter, LayoutName::Spread);
    meet_a_holder(&rt, rt.alloc(), counter);
}

#[test]
fn an_entry_is_installed_once(rt: HostRuntime) {
    let counter = AnyLayout::of(KindName::Counter, LayoutName::Spread);
    meet_at_a_cell(&rt, rt.alloc(), counter);
}

#[test]
fn a_root_names_a_cell_for_each_processor_or_group(rt: HostRuntime) {
    assert!(rt; SharedRoot.cell_for(5) == 0 && SharedRoot.cells(8) == 1);
    assert!(rt; SpreadRoot.cell_for(5) == 5 && SpreadRoot.cells(8) == 8);
    assert!(rt; Shape::Each.cell_for(5) == 5 && Root::cells(&Shape::Each, 8) == 8);
    let threes = Shape::Groups(3);
    assert!(rt; threes.cell_for(5) == 1 && threes.cell_for(6) == 2);
    assert!(rt; Root::cells(&threes, 8) == 3);
}
