//! How a log keeps what a bucket is asked and what it replies.
ghost use Rattle.co_limiter.specs.PackedBuckets.{bucket_packing, bucket_reply_packing};

use crate::bucket::{BucketOp, BucketReply};
use k42_kinds::{Label, Packed, PackedReply, Size};

impl Packed for BucketOp {
    ghost packing = { bucket_packing };

    #[tactic(auto, using(crate::proofs::PackedBucketLemmas::packed_op))]
    fn label(&self) -> Label {
        let (tag, small) = match self {
            BucketOp::Take(amount) => (0, *amount),
            BucketOp::Refill(_) => (1, 0),
            BucketOp::Left => (2, 0),
        };
        Label { tag, small }
    }

    fn most() -> Size {
        Size { words: 1, bytes: 0 }
    }

    fn size(label: Label) -> Size {
        let words = if label.tag == 1 { 1 } else { 0 };
        Size { words, bytes: 0 }
    }

    fn pack(&self, words: &mut Vec<u64>, _bytes: &mut Vec<u8>) {
        if let BucketOp::Refill(time) = self {
            words.push_reserved(*time);
        }
    }

    fn unpack(label: Label, words: &[u64], _bytes: &[u8]) -> BucketOp {
        match label.tag {
            0 => BucketOp::Take(label.small),
            1 => BucketOp::Refill(words[0]),
            _ => BucketOp::Left,
        }
    }
}

impl Packed for BucketReply {
    ghost packing = { bucket_reply_packing };

    #[tactic(auto, using(crate::proofs::PackedBucketLemmas::packed_reply))]
    fn label(&self) -> Label {
        let tag = match self {
            BucketReply::Granted => 0,
            BucketReply::Refused => 1,
            BucketReply::Done => 2,
            BucketReply::Tokens(_) => 3,
            BucketReply::Gone => 4,
        };
        Label { tag, small: 0 }
    }

    fn most() -> Size {
        Size { words: 1, bytes: 0 }
    }

    fn size(label: Label) -> Size {
        let words = if label.tag == 3 { 1 } else { 0 };
        Size { words, bytes: 0 }
    }

    fn pack(&self, words: &mut Vec<u64>, _bytes: &mut Vec<u8>) {
        if let BucketReply::Tokens(left) = self {
            words.push_reserved(*left);
        }
    }

    fn unpack(label: Label, words: &[u64], _bytes: &[u8]) -> BucketReply {
        match label.tag {
            0 => BucketReply::Granted,
            1 => BucketReply::Refused,
            2 => BucketReply::Done,
            3 => BucketReply::Tokens(words[0]),
            _ => BucketReply::Gone,
        }
    }
}

impl PackedReply for BucketReply {
    #[tactic(auto, using(crate::proofs::PackedBucketLemmas::low_reply))]
    fn label_is_low(&self) {}
}
