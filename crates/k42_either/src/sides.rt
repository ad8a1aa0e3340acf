//! The parts of one kind where they stand among those of both.
ghost use Rattle.std.specs.Prelude.{refl};
ghost use Rattle.k42_either.specs.EitherRows as rows;

use crate::either::Either;
use k42_choice::Within;
use std::marker::PhantomData;

/// The parts of the first.
pub(crate) struct FirstParts<P, Q> {
    of: PhantomData<(P, Q)>,
}

impl<P: Drop, Q: Drop> Within for FirstParts<P, Q> {
    type Own = P;

    type Among = Either<P, Q>;

    ghost side = { rows.first_parts };

    fn stand(own: P) -> Either<P, Q> {
        Either::First(own)
    }

    fn own(part: Either<P, Q>) -> Option<P> {
        match part {
            Either::First(own) => Some(own),
            Either::Second(_) => None,
        }
    }

    ghost back = { λ part. refl };
}

/// Those of the second.
pub(crate) struct SecondParts<P, Q> {
    of: PhantomData<(P, Q)>,
}

impl<P: Drop, Q: Drop> Within for SecondParts<P, Q> {
    type Own = Q;

    type Among = Either<P, Q>;

    ghost side = { rows.second_parts };

    fn stand(own: Q) -> Either<P, Q> {
        Either::Second(own)
    }

    fn own(part: Either<P, Q>) -> Option<Q> {
        match part {
            Either::First(_) => None,
            Either::Second(own) => Some(own),
        }
    }

    ghost back = { λ part. refl };
}
