//! The three ways in which each kind is kept.
use crate::bucket::Bucket;
use crate::routing::Routing;
use k42_copies::{Apart, Copies, InPairs, Together};

/// One level for all processors.
pub type SharedBucket = Copies<Bucket, Together>;

/// A copy of the level for each two neighbouring processors.
pub type PairedBucket = Copies<Bucket, InPairs>;

/// A copy of the level for each processor.
pub type SpreadBucket = Copies<Bucket, Apart>;

/// One table for all processors.
pub type SharedRoutes = Copies<Routing, Together>;

/// A copy of the table for each two neighbouring processors.
pub type PairedRoutes = Copies<Routing, InPairs>;

/// A copy of the table for each processor.
pub type SpreadRoutes = Copies<Routing, Apart>;
