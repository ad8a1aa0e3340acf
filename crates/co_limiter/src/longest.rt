//! What a table of routes promises.
ghost use Rattle.std.specs.Prelude.{◌≡◌, ℕ, Some, None, List, if◌then◌else◌};
ghost use Rattle.k42_copies.specs.Copies.{state_after};
ghost use Rattle.co_limiter.specs.declared.routing.RouteOp.{RouteOp};
ghost use Rattle.co_limiter.specs.declared.table.Route.{Route};
ghost use Rattle.co_limiter.specs.Routes.{hop_for, is_of, route_object, same_prefix, with_route, without};
ghost use Rattle.co_limiter.specs.Longest.{IsByLongest, hop_of};

/// Whatever was asked, an address goes by the longest of its prefixes that has a route. A prefix has the route that was
/// added last for it and not removed since, whatever is done to other prefixes.
pub fn longest_prefix_is_found()
    ensures longest { (ops : List RouteOp) (address : ℕ) → IsByLongest (state_after route_object ops) address (hop_for (state_after route_object ops) address) }
    ensures added { (routes : List Route) (route : Route) (prefix bits : ℕ) →
        hop_of (with_route routes route) prefix bits ≡ (if is_of prefix bits route then Some route.hop else hop_of routes prefix bits) }
    ensures removed { (routes : List Route) (gone_prefix gone_bits prefix bits : ℕ) →
        hop_of (without routes gone_prefix gone_bits) prefix bits ≡ (if same_prefix gone_prefix gone_bits prefix bits then None else hop_of routes prefix bits) }
{}
