//! What a bucket promises.
ghost use Rattle.std.specs.Prelude.{◌≡◌, ◌+◌, ◌-◌, ◌*◌, ◌≤◌, ℕ, List};
ghost use Rattle.k42_copies.specs.Copies.{state_after};
ghost use Rattle.co_limiter.specs.declared.bucket.Bucket.{Bucket};
ghost use Rattle.co_limiter.specs.declared.bucket.BucketOp.{BucketOp};
ghost use Rattle.co_limiter.specs.declared.bucket.Level.{Level};
ghost use Rattle.co_limiter.specs.Buckets.{bucket_object, filled};
ghost use Rattle.co_limiter.specs.Given.{given_by, level_after};

/// Whatever is asked, and in whatever order: what calls are given, and what is left then, is no more than was there and
/// than the time between has brought; no bucket has more tokens than its capacity; and one time brings its tokens once.
pub fn bucket_limits()
    ensures limited { (bucket : Bucket) (level : Level) (ops : List BucketOp) →
        given_by bucket level ops + (level_after bucket level ops).left
        ≤ level.left + bucket.rate * ((level_after bucket level ops).time - level.time) }
    ensures capped { (bucket : Bucket) (ops : List BucketOp) → (state_after (bucket_object bucket) ops).left ≤ bucket.capacity }
    ensures once { (bucket : Bucket) (level : Level) (time : ℕ) → filled bucket (filled bucket level time) time ≡ filled bucket level time }
{}
