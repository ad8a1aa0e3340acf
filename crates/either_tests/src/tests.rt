//! Counters and directories as objects of one type, each with operations of its own.
ghost use Rattle.k42_shapes.specs.Shapes.{IsKnownTag};

use co_any::AnyLayout;
use k42_either::Either;
use k42_kinds::{Kind, KindName, Layout, LayoutName, Op, Packed, Reply, empty_row, step_row};
use std::alloc::Global;
use std::fmt::Debug;
use std::process::Abort;

type Both = Either<AnyLayout, AnyLayout>;

/// Each operation, asked of a new object on its processor, is to be replied so.
fn walk<L: Layout>(rt: &impl Abort, alloc: Global, layout: &L, calls: &[(u32, L::Op, L::Reply)])
where
    L::Reply: PartialEq + Debug,
    requires { IsKnownTag (L.shapes layout.now) (L.tag_of layout.now) }
{
    let mut row = empty_row(layout, alloc, 4).expect(rt, "memory");
    for (proc, op, due) in calls {
        assert!(rt; *proc < 4 && layout.takes(op));
        let told = step_row(layout, alloc, &mut row, op, *proc, 4).expect(rt, "memory");
        assert!(rt; told == *due, "{told:?} in place of {due:?}");
    }
}

#[test]
fn a_first_does_what_its_kind_does(rt: HostRuntime) {
    let first: Both = Either::First(AnyLayout::of(KindName::Counter, LayoutName::Spread));
    let calls = [
        (0, Either::First(Op::Add(3)), Either::First(Reply::Done)),
        (2, Either::First(Op::Add(4)), Either::First(Reply::Done)),
        (1, Either::First(Op::Get), Either::First(Reply::Number(7))),
    ];
    walk(&rt, rt.alloc(), &first, &calls);
}

#[test]
fn a_second_does_what_its_kind_does(rt: HostRuntime) {
    let second: Both = Either::Second(AnyLayout::of(KindName::Directory, LayoutName::Shared));
    let calls = [(
        3,
        Either::Second(Op::Size),
        Either::Second(Reply::Number(0)),
    )];
    walk(&rt, rt.alloc(), &second, &calls);
}

#[test]
fn no_object_takes_what_the_other_does(rt: HostRuntime) {
    let first: Both = Either::First(AnyLayout::of(KindName::Counter, LayoutName::Spread));
    let second: Both = Either::Second(AnyLayout::of(KindName::Counter, LayoutName::Spread));
    assert!(rt; first.takes(&Either::First(Op::Get)));
    assert!(rt; !first.takes(&Either::Second(Op::Get)));
    assert!(rt; !second.takes(&Either::First(Op::Get)));
    assert!(rt; !second.takes(&Either::Second(Op::Size)));
}

#[test]
fn the_tag_tells_the_kind(rt: HostRuntime) {
    let first: Either<Op, Op> = Either::First(Op::Drain);
    let second: Either<Op, Op> = Either::Second(Op::Add(9));
    assert!(rt; first.label().tag == 4);
    assert!(rt; second.label().tag == 1 && second.label().small == 9);
}

#[test]
fn one_of_both_may_be_of_both_itself(rt: HostRuntime) {
    let counter = AnyLayout::of(KindName::Counter, LayoutName::Shared);
    let of_three: Either<Both, AnyLayout> = Either::First(Either::Second(counter));
    let get = Either::First(Either::Second(Op::Get));
    let calls = [(2, get, Either::First(Either::Second(Reply::Number(0))))];
    walk(&rt, rt.alloc(), &of_three, &calls);
    assert!(rt; get.label().tag == 6);
}
