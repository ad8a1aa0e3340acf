//! Objects of one thread, stepped through operations with known replies.
use k42_kinds::{AnyState, Kind, KindName, Name, Op, Plain, Reply, Text, kind_of};
use k42_memory::Memory;
use std::alloc::Global;
use std::process::Abort;
use std::test::Fail;

/// Steps the object through the operations, and compares each reply.
fn follow(
    rt: &impl Abort,
    alloc: Global,
    plain: &Plain,
    state: &mut AnyState,
    steps: &[(Op, Reply)],
) -> Result<(), Memory> {
    for (op, reply) in steps {
        assert!(rt; kind_of(op) == Some(plain.kind));
        let replied = plain.step(alloc, state, op)?;
        assert!(rt; replied == *reply, "{op:?} gave {replied:?}");
    }
    Ok(())
}

#[test]
fn a_counter_sums_and_drains(rt: HostRuntime) -> Result<(), Fail> {
    let plain = Plain {
        kind: KindName::Counter,
    };
    let mut state = plain.empty(rt.alloc());
    let steps = [
        (Op::Add(4_294_967_295), Reply::Done),
        (Op::Add(4_294_967_295), Reply::Done),
        (Op::Drain, Reply::Number(8_589_934_590)),
        (Op::Get, Reply::Number(0)),
    ];
    follow(&rt, rt.alloc(), &plain, &mut state, &steps)?;
    Ok(())
}

#[test]
fn a_counter_wraps_at_2_to_the_64(rt: HostRuntime) -> Result<(), Fail> {
    let plain = Plain {
        kind: KindName::Counter,
    };
    let mut state = AnyState::Counter(u64::MAX);
    let steps = [(Op::Add(3), Reply::Done), (Op::Get, Reply::Number(2))];
    follow(&rt, rt.alloc(), &plain, &mut state, &steps)?;
    Ok(())
}

#[test]
fn a_directory_binds_and_unbinds(rt: HostRuntime) -> Result<(), Fail> {
    let plain = Plain {
        kind: KindName::Directory,
    };
    let mut state = plain.empty(rt.alloc());
    let x = Name::of(b"x").ok_or("no name")?;
    let steps = [
        (Op::Bind(x, 1), Reply::Done),
        (Op::Bind(x, 2), Reply::Taken),
        (Op::Find(x), Reply::Number(1)),
        (Op::Unbind(x), Reply::Number(1)),
        (Op::Unbind(x), Reply::None),
        (Op::Size, Reply::Number(0)),
    ];
    follow(&rt, rt.alloc(), &plain, &mut state, &steps)?;
    Ok(())
}

#[test]
fn pages_are_written_and_cleaned(rt: HostRuntime) -> Result<(), Fail> {
    let plain = Plain {
        kind: KindName::Pages,
    };
    let mut state = plain.empty(rt.alloc());
    let hello = Text::of(b"hello").ok_or("no text")?;
    let steps = [
        (Op::Read(0), Reply::Zero),
        (Op::Write(0, hello), Reply::Done),
        (Op::Read(0), Reply::Text(hello)),
        (Op::Dirty, Reply::Number(1)),
        (Op::Clean, Reply::Number(1)),
        (Op::Dirty, Reply::Number(0)),
        (Op::Read(0), Reply::Text(hello)),
    ];
    follow(&rt, rt.alloc(), &plain, &mut state, &steps)?;
    Ok(())
}

#[test]
fn a_dead_object_is_gone(rt: HostRuntime) -> Result<(), Fail> {
    let plain = Plain {
        kind: KindName::Directory,
    };
    let mut state = AnyState::Dead;
    let x = Name::of(b"x").ok_or("no name")?;
    let steps = [
        (Op::Bind(x, 1), Reply::Gone),
        (Op::Find(x), Reply::Gone),
        (Op::Size, Reply::Gone),
    ];
    follow(&rt, rt.alloc(), &plain, &mut state, &steps)?;
    Ok(())
}
