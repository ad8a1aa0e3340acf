//! What a system keeps of the calls of one pass.
ghost use Rattle.std.specs.Prelude.{◌≡◌, ◌<◌};
ghost use Rattle.k42_board.specs.Seen.{HasRoom};
ghost use Rattle.k42_board.specs.declared.keep.Keep.TheVariants as keeps;
ghost use Rattle.table_crews.specs.Ready.{HoldsNoCell};

use crate::tests::crews::{call, finish, kept, start};
use crate::tests::graces::{give, go_on, take};
use co_any::AnyLayout;
use k42_kinds::{Act, Answer, Entry, Op, Reply};
use k42_rule::{Keep, Sys};
use table_crews::Walk;

/// The entry of a call of object 0 by caller 0 on processor 0.
fn called(
    stamp: u64,
    index: u64,
    incarnation: u32,
    op: Op,
    reply: Reply,
    generation: u32,
) -> Entry<Op, Reply>
    requires { incarnation < 1_048_575 }
{
    Entry {
        stamp,
        caller: 0,
        index,
        object: 0,
        incarnation,
        cell: incarnation % 2 * 8,
        act: Act::Call(op),
        answer: Answer::Replied(reply),
        proc: 0,
        generation: Some(generation),
    }
}

#[test]
fn a_call_is_found_in_the_list_of_its_caller(rt: HostRuntime) {
    let (sys, mut pass) = start(&rt, rt.alloc(), Keep::All);
    assert!(rt; call(&rt, rt.alloc(), &sys, &mut pass, &Op::Add(5)) == 1);
    let lists = finish(&rt, rt.alloc(), sys, pass);
    let due = [called(1, 0, 0, Op::Add(5), Reply::Done, 0)];
    assert_eq!(rt; lists.len(), 1);
    assert!(rt; lists.iter().all(|list| list.as_slice() == due.as_slice()));
}

/// A grace by a pass that holds no row: true where it was quiet and noted nothing of the object.
fn graced(sys: &Sys<AnyLayout>, pass: &mut Walk) -> bool
    requires free { HoldsNoCell sys.now pass.old }
    ensures free { HoldsNoCell sys.now pass.new }
{
    let quiet = take(sys, pass) && go_on(sys, pass, 16);
    quiet && give(sys, pass, 0).is_none()
}

#[test]
fn a_call_after_a_grace_bears_the_next_generation(rt: HostRuntime) {
    let (sys, mut pass) = start(&rt, rt.alloc(), Keep::All);
    assert!(rt; call(&rt, rt.alloc(), &sys, &mut pass, &Op::Add(5)) == 1);
    assert!(rt; graced(&sys, &mut pass));
    assert!(rt; call(&rt, rt.alloc(), &sys, &mut pass, &Op::Get) == 2);
    let lists = finish(&rt, rt.alloc(), sys, pass);
    let due = [
        called(1, 0, 0, Op::Add(5), Reply::Done, 0),
        called(2, 1, 0, Op::Get, Reply::Number(5), 1),
    ];
    assert_eq!(rt; lists.len(), 1);
    assert!(rt; lists.iter().all(|list| list.as_slice() == due.as_slice()));
}

/// Makes room for the next entry of a pass that keeps none: there is no way to fail.
fn make_room(sys: &Sys<AnyLayout>, pass: &mut Walk)
    requires free { HoldsNoCell sys.now pass.old }
    requires nothing { sys.now.keep ≡ keeps.Nothing }
    ensures stays { pass.new ≡ pass.old }
    ensures room { HasRoom pass.new }
{
    if pass.reserve_entry().is_err() {
        unreachable!()
    }
}

#[test]
fn a_pass_that_keeps_nothing_draws_and_counts_without_room(rt: HostRuntime) {
    let (sys, mut pass) = start(&rt, rt.alloc(), Keep::Nothing);
    make_room(&sys, &mut pass);
    assert!(rt; call(&rt, rt.alloc(), &sys, &mut pass, &Op::Add(5)) == 1);
    assert!(rt; call(&rt, rt.alloc(), &sys, &mut pass, &Op::Get) == 2);
    assert_eq!(rt; pass.drawn(), 2);
    assert_eq!(rt; kept(&pass), 0);
    let lists = finish(&rt, rt.alloc(), sys, pass);
    assert_eq!(rt; lists.len(), 1);
    assert!(rt; lists.iter().all(|list| list.is_empty()));
}
