//! The object of one thread of the one kind or of the other.
ghost use Rattle.k42_either.specs.Eithers.{either_object};
ghost use Rattle.k42_either.specs.declared.either.Either.TheVariants.{First};

use crate::either::Either;
use crate::few_tags::FewTags;
use crate::gone::Gone;
use k42_kinds::Kind;
use k42_memory::Memory;
use std::alloc::Global;

impl<A: Kind, B: Kind> Kind for Either<A, B>
where
    A::Op: FewTags,
    A::Reply: FewTags + Gone,
    B::Op: FewTags,
    B::Reply: FewTags,
{
    type State = Either<A::State, B::State>;

    type Op = Either<A::Op, B::Op>;

    type Reply = Either<A::Reply, B::Reply>;

    ghost object = { either_object (First A.Reply.gone) A.object B.object };

    fn empty(&self, alloc: Global) -> Either<A::State, B::State> {
        match self {
            Either::First(kind) => Either::First(kind.empty(alloc)),
            Either::Second(kind) => Either::Second(kind.empty(alloc)),
        }
    }

    fn takes(&self, op: &Either<A::Op, B::Op>) -> bool {
        match (self, op) {
            (Either::First(kind), Either::First(op)) => kind.takes(op),
            (Either::Second(kind), Either::Second(op)) => kind.takes(op),
            _ => false,
        }
    }

    fn step(
        &self,
        alloc: Global,
        state: &mut Either<A::State, B::State>,
        op: &Either<A::Op, B::Op>,
    ) -> Result<Either<A::Reply, B::Reply>, Memory> {
        match (self, state, op) {
            (Either::First(kind), Either::First(state), Either::First(op)) => {
                Ok(Either::First(kind.step(alloc, state, op)?))
            }
            (Either::Second(kind), Either::Second(state), Either::Second(op)) => {
                Ok(Either::Second(kind.step(alloc, state, op)?))
            }
            _ => Ok(Either::First(A::Reply::gone())),
        }
    }
}
