//! How the two objects are kept: in any of four shapes, or dead.
use co_counter::SpreadCounter;
use co_groups::AnyGroups;
use co_limiter::Bucket;
use k42_choice::Mortal;
use k42_copies::AnyCopies;
use k42_runtime::{Pass, System};

pub(crate) type BucketLayout = Mortal<AnyCopies<Bucket>>;

pub(crate) type BucketSystem = System<BucketLayout>;

pub(crate) type BucketPass = Pass<BucketLayout>;

pub(crate) type CounterLayout = Mortal<AnyGroups<SpreadCounter>>;

pub(crate) type CounterSystem = System<CounterLayout>;

pub(crate) type CounterPass = Pass<CounterLayout>;
