//! Watched objects of each kind, in each layout, and on their way from one to the other.
ghost use Rattle.std.specs.Prelude.{◌≡◌, ◌<◌, ◌≤◌};
ghost use Rattle.k42_limits.specs.declared.TheConstants.{PROCESSORS};
ghost use Rattle.k42_shapes.specs.Shapes.{IsKnownTag, IsLiveTag, shared_and_spread};
ghost use Rattle.k42_watch.specs.WatchedRows.{IsWatchedRow, within};
ghost use Rattle.co_any.specs.Layouts.{whole_of};

use co_any::{AnyLayout, AnyPart};
use k42_kinds::{
    Act, AnyState, Kind, KindName, Layout, Name, Op, Reach, Reply, Text, To, empty_row, kind_of,
    step_row,
};
use k42_stamp::{draw_keeps, hand_begins, merged_is_legal};
use k42_watch::{Layer, Watch, WatchPart};
use std::alloc::Global;
use std::process::Abort;

type Watched = Watch<AnyLayout>;

type Row = Vec<WatchPart<AnyPart>>;

fn layout(kind: KindName, tag: u32, layer: Layer) -> Watched
    ensures { result ≡ record { inner = record { kind = kind; tag = tag }; layer = layer } }
{
    Watch {
        inner: AnyLayout { kind, tag },
        layer,
    }
}

/// The row of the next layout, made of what the parts of a row stand for.
fn moved<L: Layout>(
    rt: &impl Abort,
    alloc: Global,
    from: &L,
    to: &L,
    parts: &mut Vec<L::Part>,
) -> Vec<L::Part>
    requires known { IsLiveTag (L.shapes from.now) (L.tag_of from.now) × IsKnownTag (L.shapes to.now) (L.tag_of to.now) }
    requires same { L.object from.now ≡ L.object to.now }
    requires row { L.whole from.now 8 parts.old.items }
    ensures { L.whole to.now 8 result.items }
{
    let state = from.export(alloc, parts).expect(rt, "memory");
    to.import(alloc, &to.admit(state), 8).expect(rt, "memory")
}

/// Makes the operations of the object's kind, for the last and the first processor in turn.
fn call(rt: &impl Abort, alloc: Global, layout: &Watched, row: &mut Row, ops: &[Op])
    requires known { layout.now.inner.tag ≤ 2 }
    requires row { IsWatchedRow (within shared_and_spread layout.now.inner.tag) (whole_of layout.now.inner.kind layout.now.inner.tag 8) row.old.items }
    ensures { IsWatchedRow (within shared_and_spread layout.now.inner.tag) (whole_of layout.now.inner.kind layout.now.inner.tag 8) row.new.items }
{
    let mut proc = 7;
    for op in ops {
        assert!(rt; kind_of(op) == Some(layout.inner.kind));
        step_row(layout, alloc, row, op, proc, 8).expect(rt, "memory");
        proc = 7 - proc;
    }
}

/// The object is to tell so of its calls.
fn expect_figure(rt: &impl Abort, alloc: Global, layout: &Watched, row: &mut Row, due: Reply)
    requires known { layout.now.inner.tag ≤ 2 }
    requires row { IsWatchedRow (within shared_and_spread layout.now.inner.tag) (whole_of layout.now.inner.kind layout.now.inner.tag 8) row.old.items }
    ensures { IsWatchedRow (within shared_and_spread layout.now.inner.tag) (whole_of layout.now.inner.kind layout.now.inner.tag 8) row.new.items }
{
    let told = step_row(layout, alloc, row, &Op::Seen, 3, 8).expect(rt, "memory");
    assert!(rt; told == due, "{told:?} in place of {due:?}");
}

/// The row of an object in its next layout, where it is to tell so of its calls.
fn carried(
    rt: &impl Abort,
    alloc: Global,
    from: &Watched,
    to: &Watched,
    row: &mut Row,
    due: Reply,
) -> Row
    requires known { (from.now.inner.tag ≤ 1) × (to.now.inner.tag ≤ 2) }
    requires same { from.now.inner.kind ≡ to.now.inner.kind }
    requires row { IsWatchedRow (within shared_and_spread from.now.inner.tag) (whole_of from.now.inner.kind from.now.inner.tag 8) row.old.items }
    ensures { IsWatchedRow (within shared_and_spread to.now.inner.tag) (whole_of to.now.inner.kind to.now.inner.tag 8) result.items }
{
    let mut row = moved(rt, alloc, from, to, row);
    expect_figure(rt, alloc, to, &mut row, due);
    row
}

/// Four calls of an object that is watched in its first layout, and four more in the other.
fn keeps_its_figure(
    rt: &impl Abort,
    alloc: Global,
    kind: KindName,
    calls: &[Op],
    first: u32,
    second: u32,
)
    requires { (first ≤ 1) × (second ≤ 1) }
{
    let bare = layout(kind, first, Layer::Keep);
    let placed = layout(kind, first, Layer::Place);
    let other = layout(kind, second, Layer::Keep);
    let taken = layout(kind, second, Layer::Take);
    let dead = layout(kind, 2, Layer::Keep);
    let mut row = empty_row(&bare, alloc, 8).expect(rt, "memory");
    call(rt, alloc, &bare, &mut row, calls);
    expect_figure(rt, alloc, &bare, &mut row, Reply::None);
    let mut row = carried(rt, alloc, &bare, &placed, &mut row, Reply::Number(0));
    call(rt, alloc, &placed, &mut row, calls);
    expect_figure(rt, alloc, &placed, &mut row, Reply::Number(4));
    let mut row = carried(rt, alloc, &placed, &other, &mut row, Reply::Number(4));
    call(rt, alloc, &other, &mut row, calls);
    let mut row = carried(rt, alloc, &other, &bare, &mut row, Reply::Number(8));
    let mut row = carried(rt, alloc, &bare, &placed, &mut row, Reply::Number(0));
    let mut row = carried(rt, alloc, &placed, &taken, &mut row, Reply::None);
    carried(rt, alloc, &taken, &dead, &mut row, Reply::Gone);
}

/// Calls of each kind, which need one cell, or all.
fn calls_of(kind: KindName, name: Name, text: Text) -> [Op; 4] {
    match kind {
        KindName::Counter => [Op::Add(5), Op::Get, Op::Drain, Op::Add(2)],
        KindName::Directory => [
            Op::Bind(name, 1),
            Op::Find(name),
            Op::Size,
            Op::Unbind(name),
        ],
        KindName::Pages => [Op::Write(5, text), Op::Read(5), Op::Dirty, Op::Clean],
    }
}

#[test]
fn a_watched_object_keeps_its_figure_across_layouts(rt: HostRuntime) {
    let name = Name::of(b"x").expect(&rt, "a name");
    let text = Text::of(b"hi").expect(&rt, "a text");
    for kind in [KindName::Counter, KindName::Directory, KindName::Pages] {
        let calls = calls_of(kind, name, text);
        for (first, second) in [(0, 0), (0, 1), (1, 0), (1, 1)] {
            keeps_its_figure(&rt, rt.alloc(), kind, &calls, first, second);
        }
    }
}

#[test]
fn a_layer_is_asked_for_by_its_act(rt: HostRuntime) {
    let cases = [
        (0, Layer::Keep, To::Layout(0)),
        (1, Layer::Keep, To::Layout(1)),
        (0, Layer::Place, To::Watch),
        (1, Layer::Place, To::Watch),
        (1, Layer::Take, To::Unwatch),
        (2, Layer::Keep, To::Dead),
        (2, Layer::Place, To::Dead),
    ];
    for (tag, layer, to) in cases {
        let asked = layout(KindName::Pages, tag, layer);
        assert!(rt; asked.act() == Act::Swap(to));
        assert!(rt; asked.tag() == tag && asked.with_tag(1).layer == Layer::Keep);
    }
}

#[test]
fn a_figure_is_read_where_it_is_kept(rt: HostRuntime) {
    for (tag, reach) in [(0, Reach::One(0)), (1, Reach::All), (2, Reach::One(0))] {
        let watched = layout(KindName::Counter, tag, Layer::Keep);
        assert!(rt; watched.reach(&Op::Seen, 7, 8) == reach);
    }
}

#[test]
fn a_count_wraps_at_2_to_the_64(rt: HostRuntime) {
    let alloc = rt.alloc();
    let watched = layout(KindName::Counter, 0, Layer::Keep);
    let mut state = watched.empty(alloc);
    state.seen = Some(u64::MAX);
    watched
        .step(alloc, &mut state, &Op::Get)
        .expect(&rt, "memory");
    let told = watched
        .step(alloc, &mut state, &Op::Seen)
        .expect(&rt, "memory");
    assert!(rt; told == Reply::Number(0));
    state.inner = AnyState::Dead;
    let told = watched
        .step(alloc, &mut state, &Op::Seen)
        .expect(&rt, "memory");
    assert!(rt; told == Reply::Gone);
}

#[test]
fn the_laws_of_rows_hold_for_watched_layouts(_rt: HostRuntime) {
    draw_keeps::<Watched>(8);
    hand_begins::<Watched>(8);
    merged_is_legal::<Watched>(8);
}
