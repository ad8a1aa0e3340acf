//! Two kinds of a library user's own: a token bucket, and a table of routes. Each is kept in three ways.
#![tactic(auto)]

mod bucket;
mod bucket_packed;
mod histories;
mod limits;
mod longest;
mod routing;
mod routing_packed;
mod table;
mod ways;

pub use bucket::{Bucket, BucketOp, BucketReply, Level};
pub use histories::histories_are_limited;
pub use limits::bucket_limits;
pub use longest::longest_prefix_is_found;
pub use routing::{RouteOp, RouteReply, Routing};
pub use table::{ADDRESS_BITS, Route, Table};
pub use ways::{
    PairedBucket, PairedRoutes, SharedBucket, SharedRoutes, SpreadBucket, SpreadRoutes,
};
