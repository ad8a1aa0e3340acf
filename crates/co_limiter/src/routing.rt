//! A table of routes as a kind: an address goes by the longest prefix that it has.
ghost use Rattle.std.specs.Prelude.{◌≡◌, refl};
ghost use Rattle.co_limiter.specs.Routes.{route_object, route_reads, route_spares};
ghost use Rattle.co_limiter.specs.RouteLaws.{finds_leave};
ghost use Rattle.co_limiter.specs.declared.routing.RouteReply.TheVariants.{Gone};

use crate::table::{ADDRESS_BITS, Route, Table};
use k42_copies::Replicated;
use k42_kinds::Kind;
use k42_memory::Memory;
use std::alloc::Global;

#[derive(Clone, Copy, Debug, PartialEq, Eq)]
pub struct Routing;

#[derive(Clone, Copy, Debug, PartialEq, Eq)]
pub enum RouteOp {
    /// Where the address goes.
    Find(u32),
    /// That addresses which begin as the prefix does, in so many bits, go to this hop.
    Add(u32, u8, u32),
    /// That the prefix of so many bits have no route.
    Remove(u32, u8),
}

#[derive(Clone, Copy, Debug, PartialEq, Eq)]
pub enum RouteReply {
    Hop(Option<u32>),
    Done,
    Gone,
}

impl Kind for Routing {
    type State = Table;

    type Op = RouteOp;

    type Reply = RouteReply;

    ghost object = { λ _. route_object };

    fn empty(&self, alloc: Global) -> Table {
        Table::new(alloc)
    }

    fn takes(&self, op: &RouteOp) -> bool {
        match op {
            RouteOp::Find(_) => true,
            RouteOp::Add(_, bits, _) | RouteOp::Remove(_, bits) => *bits <= ADDRESS_BITS,
        }
    }

    fn step(&self, _alloc: Global, table: &mut Table, op: &RouteOp) -> Result<RouteReply, Memory> {
        let RouteOp::Add(prefix, bits, hop) = op else {
            return Ok(self.change(table, op));
        };
        table.add(&Route {
            prefix: *prefix,
            bits: *bits,
            hop: *hop,
        })?;
        Ok(RouteReply::Done)
    }
}

impl Replicated for Routing {
    ghost reads = { route_reads };

    ghost spares = { route_spares };

    ghost gone = { Gone };

    fn gone() -> RouteReply {
        RouteReply::Gone
    }

    fn reads(op: &RouteOp) -> bool {
        matches!(op, RouteOp::Find(_))
    }

    fn spares(op: &RouteOp) -> bool {
        !matches!(op, RouteOp::Add(_, _, _))
    }

    fn change(&self, table: &mut Table, op: &RouteOp) -> RouteReply {
        match op {
            RouteOp::Find(address) => RouteReply::Hop(table.hop_for(*address)),
            RouteOp::Remove(prefix, bits) => {
                table.remove(*prefix, *bits);
                RouteReply::Done
            }
            RouteOp::Add(_, _, _) => unreachable!(),
        }
    }

    ghost leaves = { λ _. finds_leave };

    ghost endless = { λ _ routes. refl };

    ghost stays = { λ _ routes to. refl };
}
