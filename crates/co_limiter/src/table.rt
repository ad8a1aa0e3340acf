//! A table of routes, the longest prefixes first.
ghost use Rattle.std.specs.Prelude.{◌≡◌, ◌≤◌, [], length, IfOk, OnOk, OnErr};
ghost use Rattle.co_limiter.specs.Routes.{first_bits, hop_for, is_for, is_of, place_of, with_route, without, yields};

use k42_copies::Replica;
use k42_memory::Memory;
use std::alloc::Global;
use std::marker::Model;

/// An address has this many bits.
pub const ADDRESS_BITS: u8 = 32;

/// Where the addresses go that begin as the prefix does, in so many bits.
#[derive(Clone, Copy, Debug, PartialEq, Eq)]
pub struct Route {
    pub prefix: u32,
    pub bits: u8,
    pub hop: u32,
}

/// A table, seen as the list of its routes.
#[derive(Debug, Drop)]
pub struct Table {
    routes: Vec<Route>,
}

impl Model for Table {
    ghost use Rattle.std.specs.Prelude.{List};
    ghost use Rattle.co_limiter.specs.declared.table.Route.{Route};

    ghost Value = { List Route };

    ghost view = { λ table. table.routes.items };
}

fn first_bits(bits: u8, address: u32) -> u64
    ensures { result ≡ first_bits bits address }
{
    u64::from(address) >> ADDRESS_BITS.saturating_sub(bits)
}

fn is_for(address: u32, route: &Route) -> bool
    ensures { result ≡ is_for address route.now }
{
    first_bits(route.bits, route.prefix) == first_bits(route.bits, address)
}

fn is_of(prefix: u32, bits: u8, route: &Route) -> bool
    ensures { result ≡ is_of prefix bits route.now }
{
    route.bits == bits && first_bits(bits, route.prefix) == first_bits(bits, prefix)
}

/// Whether the other route stands where this one is: it takes its place, or stands before it.
fn yields(first: &Route, route: &Route) -> bool
    ensures { result ≡ yields route.now first.now }
{
    is_of(route.prefix, route.bits, first) || first.bits < route.bits
}

/// How many routes stand before this one, or will.
fn place_of(routes: &[Route], route: &Route) -> usize
    ensures place { result ≡ place_of routes.now route.now }
    ensures within { result ≤ length routes.now }
{
    let mut place = 0;
    while place < routes.len() && !yields(&routes[place], route) {
        place += 1;
    }
    place
}

impl Table {
    /// It has no route.
    pub fn new(alloc: Global) -> Self
        ensures { result ≡ [] }
    {
        Table {
            routes: Vec::new(alloc),
        }
    }

    /// Where the address goes.
    pub fn hop_for(&self, address: u32) -> Option<u32>
        ensures { result ≡ hop_for self.now address }
    {
        for route in &self.routes {
            if is_for(address, route) {
                return Some(route.hop);
            }
        }
        None
    }

    /// Adds the route, in place of the one of the same prefix. Only a new prefix needs memory.
    pub fn add(&mut self, route: &Route) -> Result<(), Memory>
        ensures ok { OnOk result (self.new ≡ with_route self.old route.now) }
        ensures memory { OnErr result (self.new ≡ self.old) }
    {
        let place = place_of(&self.routes, route);
        if place < self.routes.len() && is_of(route.prefix, route.bits, &self.routes[place]) {
            self.routes[place] = *route;
        } else {
            self.routes.insert(place, *route)?;
        }
        Ok(())
    }

    /// Removes the route of the prefix, if there is one.
    pub fn remove(&mut self, prefix: u32, bits: u8)
        ensures { self.new ≡ without self.old prefix bits }
    {
        self.routes.retain(|route| !is_of(prefix, bits, route));
    }
}

impl Replica for Table {
    fn again(&self, alloc: Global) -> Result<Table, Memory> {
        let mut routes = Vec::new(alloc);
        routes.extend_from_slice(&self.routes)?;
        Ok(Table { routes })
    }
}
