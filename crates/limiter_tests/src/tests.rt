//! A bucket and a table of routes, each on its way from one way to the next.
ghost use Rattle.std.specs.Prelude.{◌<◌, ◌≤◌};
ghost use Rattle.k42_limits.specs.declared.TheConstants.{PROCESSORS};

use crate::rows::{begun, called, exported, imported};
use co_limiter::{Bucket, BucketOp, BucketReply, RouteOp, RouteReply, Routing};
use k42_choice::Way;
use k42_copies::{Apart, Copies, InPairs, Together};
use k42_kinds::{Kind, Reach};
use std::alloc::Global;
use std::fmt::Debug;
use std::process::Abort;

/// Each operation, asked on its processor, is to be replied so.
fn walk<W: Way>(
    rt: &impl Abort,
    alloc: Global,
    way: &W,
    row: &mut Vec<W::Part>,
    calls: &[(u32, W::Op, W::Reply)],
)
where
    W::Reply: PartialEq + Debug,
    requires { W.whole way.now 4 row.old.items }
    ensures { W.whole way.now 4 row.new.items }
{
    for (proc, op, due) in calls {
        assert!(rt; *proc < 4 && way.takes(op));
        let told = called(way, alloc, row, op, *proc, 4).expect(rt, "memory");
        assert!(rt; told == *due, "{told:?} in place of {due:?}");
    }
}

#[test]
fn every_way_keeps_a_bucket(rt: HostRuntime) {
    let alloc = rt.alloc();
    let kind = Bucket {
        capacity: 10,
        rate: 2,
    };
    let shared = Copies {
        kind,
        spacing: Together,
    };
    let paired = Copies {
        kind,
        spacing: InPairs,
    };
    let spread = Copies {
        kind,
        spacing: Apart,
    };
    let mut row = begun(&shared, alloc, 4).expect(&rt, "memory");
    let taken = [
        (0, BucketOp::Left, BucketReply::Tokens(10)),
        (3, BucketOp::Take(7), BucketReply::Granted),
        (1, BucketOp::Take(4), BucketReply::Refused),
        (2, BucketOp::Left, BucketReply::Tokens(3)),
    ];
    walk(&rt, alloc, &shared, &mut row, &taken);
    let state = exported(&shared, alloc, &mut row, 4).expect(&rt, "memory");
    let mut row = imported(&paired, alloc, &state, 4).expect(&rt, "memory");
    let filled = [
        (3, BucketOp::Left, BucketReply::Tokens(3)),
        (2, BucketOp::Take(3), BucketReply::Granted),
        (0, BucketOp::Refill(2), BucketReply::Done),
        (1, BucketOp::Left, BucketReply::Tokens(4)),
        (3, BucketOp::Refill(2), BucketReply::Done),
        (1, BucketOp::Refill(1), BucketReply::Done),
        (2, BucketOp::Left, BucketReply::Tokens(4)),
    ];
    walk(&rt, alloc, &paired, &mut row, &filled);
    let state = exported(&paired, alloc, &mut row, 4).expect(&rt, "memory");
    let mut row = imported(&spread, alloc, &state, 4).expect(&rt, "memory");
    let full = [
        (0, BucketOp::Left, BucketReply::Tokens(4)),
        (1, BucketOp::Refill(100), BucketReply::Done),
        (3, BucketOp::Left, BucketReply::Tokens(10)),
        (2, BucketOp::Take(10), BucketReply::Granted),
        (0, BucketOp::Take(1), BucketReply::Refused),
    ];
    walk(&rt, alloc, &spread, &mut row, &full);
}

#[test]
fn every_way_keeps_a_table(rt: HostRuntime) {
    let alloc = rt.alloc();
    let kind = Routing;
    let shared = Copies {
        kind,
        spacing: Together,
    };
    let paired = Copies {
        kind,
        spacing: InPairs,
    };
    let spread = Copies {
        kind,
        spacing: Apart,
    };
    let mut row = begun(&spread, alloc, 4).expect(&rt, "memory");
    // 10.0.0.0/8, 0.0.0.0/0 and 10.1.0.0/16, and the addresses 10.1.2.3, 10.2.0.0 and 11.0.0.1.
    let added = [
        (0, RouteOp::Find(0x0a01_0203), RouteReply::Hop(None)),
        (1, RouteOp::Add(0x0a00_0000, 8, 1), RouteReply::Done),
        (2, RouteOp::Add(0, 0, 9), RouteReply::Done),
        (3, RouteOp::Add(0x0a01_0000, 16, 2), RouteReply::Done),
        (0, RouteOp::Find(0x0a01_0203), RouteReply::Hop(Some(2))),
        (1, RouteOp::Find(0x0a02_0000), RouteReply::Hop(Some(1))),
        (2, RouteOp::Find(0x0b00_0001), RouteReply::Hop(Some(9))),
    ];
    walk(&rt, alloc, &spread, &mut row, &added);
    let state = exported(&spread, alloc, &mut row, 4).expect(&rt, "memory");
    let mut row = imported(&paired, alloc, &state, 4).expect(&rt, "memory");
    // What stands behind a prefix's bits counts for nothing.
    let replaced = [
        (0, RouteOp::Add(0x0a01_ffff, 16, 5), RouteReply::Done),
        (3, RouteOp::Find(0x0a01_0203), RouteReply::Hop(Some(5))),
        (2, RouteOp::Remove(0x0a01_0000, 16), RouteReply::Done),
        (1, RouteOp::Find(0x0a01_0203), RouteReply::Hop(Some(1))),
    ];
    walk(&rt, alloc, &paired, &mut row, &replaced);
    let state = exported(&paired, alloc, &mut row, 4).expect(&rt, "memory");
    let mut row = imported(&shared, alloc, &state, 4).expect(&rt, "memory");
    let removed = [
        (3, RouteOp::Remove(0, 0), RouteReply::Done),
        (2, RouteOp::Find(0x0b00_0001), RouteReply::Hop(None)),
        (1, RouteOp::Find(0x0a01_0203), RouteReply::Hop(Some(1))),
    ];
    walk(&rt, alloc, &shared, &mut row, &removed);
}

#[test]
fn a_caller_reads_at_its_own_cell(rt: HostRuntime) {
    let kind = Bucket {
        capacity: 1,
        rate: 1,
    };
    let shared = Copies {
        kind,
        spacing: Together,
    };
    let paired = Copies {
        kind,
        spacing: InPairs,
    };
    let spread = Copies {
        kind,
        spacing: Apart,
    };
    assert!(rt; shared.reach(&BucketOp::Left, 3, 4) == Reach::One(0));
    assert!(rt; shared.reach(&BucketOp::Take(1), 3, 4) == Reach::One(0));
    assert!(rt; paired.reach(&BucketOp::Left, 3, 4) == Reach::One(1));
    assert!(rt; paired.reach(&BucketOp::Take(1), 3, 4) == Reach::All);
    assert!(rt; spread.reach(&BucketOp::Left, 3, 4) == Reach::One(3));
    assert!(rt; spread.reach(&BucketOp::Take(1), 3, 4) == Reach::All);
}

#[test]
fn no_prefix_has_more_bits_than_an_address(rt: HostRuntime) {
    assert!(rt; Routing.takes(&RouteOp::Add(0, 32, 1)));
    assert!(rt; !Routing.takes(&RouteOp::Add(0, 33, 1)));
    assert!(rt; !Routing.takes(&RouteOp::Remove(0, 33)));
}
