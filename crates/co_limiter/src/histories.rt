//! What a history of a bucket promises, whichever ways the bucket was kept in.
ghost use Rattle.std.specs.Prelude.{◌≡◌, ℕ, List, Some, slice_get};
ghost use Rattle.k42_kinds.specs.declared.entry.Entry.{Entry};
ghost use Rattle.k42_kinds.specs.Legal.{IsLegalHistoryOf};
ghost use Rattle.co_limiter.specs.declared.bucket.Bucket.{Bucket};
ghost use Rattle.co_limiter.specs.declared.bucket.BucketOp.{BucketOp};
ghost use Rattle.co_limiter.specs.declared.bucket.BucketReply.{BucketReply};
ghost use Rattle.co_limiter.specs.GivenIn.{GivesNoMore, mortal_bucket};

use crate::bucket::{BucketOp, BucketReply, Level};
use k42_choice::MortalState;
use k42_kinds::Layout;

/// In a legal history of any objects, a bucket among them gives no more tokens than it holds and than the latest time that it
/// was told has brought, across any number of swaps and whether it was destroyed or not.
pub fn histories_are_limited<
    L: Layout<State = MortalState<Level>, Op = BucketOp, Reply = BucketReply>,
>()
    ensures limited { (bucket : Bucket) (objects : List L) (layout : L) (number : ℕ) (history : List (Entry BucketOp BucketReply))
        → IsLegalHistoryOf L.object objects history → slice_get objects number ≡ Some layout → L.object layout ≡ mortal_bucket bucket
        → GivesNoMore bucket number history }
{}
