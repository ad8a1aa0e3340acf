//! A token bucket, which limits how much is done in a time.
ghost use Rattle.std.specs.Prelude.{◌≡◌, true, refl};
ghost use Rattle.co_limiter.specs.Buckets.{bucket_object, bucket_reads, bucket_after, bucket_reply, filled};
ghost use Rattle.co_limiter.specs.BucketLaws.{reads_leave};
ghost use Rattle.co_limiter.specs.declared.bucket.BucketReply.TheVariants.{Gone};

use k42_copies::{Replica, Replicated};
use k42_kinds::Kind;
use k42_memory::Memory;
use std::alloc::Global;

/// How many tokens a bucket holds, and how many each unit of time brings.
#[derive(Clone, Copy, Debug, PartialEq, Eq)]
pub struct Bucket {
    pub capacity: u64,
    pub rate: u64,
}

/// The tokens that are left, and the time up to which the bucket was filled.
#[derive(Clone, Copy, Debug, PartialEq, Eq)]
pub struct Level {
    pub left: u64,
    pub time: u64,
}

#[derive(Clone, Copy, Debug, PartialEq, Eq)]
pub enum BucketOp {
    /// So many tokens, or none.
    Take(u32),
    /// What the time up to this one brings.
    Refill(u64),
    /// How many tokens are left.
    Left,
}

#[derive(Clone, Copy, Debug, PartialEq, Eq)]
pub enum BucketReply {
    Granted,
    Refused,
    Done,
    Tokens(u64),
    Gone,
}

impl Bucket {
    /// Fills up to the time, if that is later than the one up to which it was filled.
    fn fill(&self, level: &mut Level, time: u64)
        ensures { level.new ≡ filled self.now level.old time }
    {
        if level.time < time {
            let brought = self.rate.saturating_mul(time - level.time);
            level.left = level.left.saturating_add(brought).min(self.capacity);
            level.time = time;
        }
    }
}

impl Kind for Bucket {
    type State = Level;

    type Op = BucketOp;

    type Reply = BucketReply;

    ghost object = { bucket_object };

    fn empty(&self, _alloc: Global) -> Level {
        Level {
            left: self.capacity,
            time: 0,
        }
    }

    fn takes(&self, _op: &BucketOp) -> bool {
        true
    }

    fn step(
        &self,
        _alloc: Global,
        level: &mut Level,
        op: &BucketOp,
    ) -> Result<BucketReply, Memory> {
        Ok(self.change(level, op))
    }
}

impl Replica for Level {
    fn again(&self, _alloc: Global) -> Result<Level, Memory> {
        Ok(*self)
    }
}

impl Replicated for Bucket {
    ghost reads = { bucket_reads };

    ghost spares = { λ _. true };

    ghost gone = { Gone };

    fn gone() -> BucketReply {
        BucketReply::Gone
    }

    fn reads(op: &BucketOp) -> bool {
        matches!(op, BucketOp::Left)
    }

    fn spares(_op: &BucketOp) -> bool {
        true
    }

    fn change(&self, level: &mut Level, op: &BucketOp) -> BucketReply {
        match op {
            BucketOp::Take(amount) if u64::from(*amount) <= level.left => {
                level.left -= u64::from(*amount);
                BucketReply::Granted
            }
            BucketOp::Take(_) => BucketReply::Refused,
            BucketOp::Refill(time) => {
                self.fill(level, *time);
                BucketReply::Done
            }
            BucketOp::Left => BucketReply::Tokens(level.left),
        }
    }

    ghost leaves = { reads_leave };

    ghost endless = { λ _ level. refl };

    ghost stays = { λ _ level to. refl };
}
