//! What is asked of the two objects, and what their replies tell.
ghost use Rattle.std.specs.Prelude.{◌≡◌};
ghost use Rattle.co_limiter.specs.declared.bucket.BucketOp.TheVariants as buckets;
ghost use Rattle.k42_kinds.specs.declared.operation.Op.TheVariants as counters;
ghost use Rattle.ways_example.specs.Questions.{granted_by, value_by};

use crate::kept::{BucketLayout, CounterLayout};
use co_limiter::{BucketOp, BucketReply};
use k42_kinds::{Op, Reply};
use k42_runtime::Question;

/// Takes so many tokens, and tells whether they were granted; a dead bucket tells nothing.
#[derive(Clone, Copy)]
pub(crate) struct Take {
    pub(crate) amount: u32,
}

impl Question<BucketLayout> for Take {
    type Told = Option<bool>;

    ghost asks = { λ take. buckets.Take take.amount };

    ghost tells = { λ take. granted_by };

    fn op(&self) -> BucketOp {
        BucketOp::Take(self.amount)
    }

    fn told(&self, reply: BucketReply) -> Option<bool> {
        match reply {
            BucketReply::Granted => Some(true),
            BucketReply::Refused => Some(false),
            BucketReply::Gone => None,
            BucketReply::Done | BucketReply::Tokens(_) => unreachable!(),
        }
    }
}

/// The value of the counter; a dead one tells nothing.
#[derive(Clone, Copy)]
pub(crate) struct Value;

impl Question<CounterLayout> for Value {
    type Told = Option<u64>;

    ghost asks = { λ _. counters.Get };

    ghost tells = { λ _. value_by };

    fn op(&self) -> Op {
        Op::Get
    }

    fn told(&self, reply: Reply) -> Option<u64> {
        match reply {
            Reply::Number(value) => Some(value),
            Reply::Gone => None,
            Reply::Done | Reply::Taken | Reply::None | Reply::Text(_) | Reply::Zero => {
                unreachable!()
            }
        }
    }
}
