//! The parts of layouts side by side.
ghost use Rattle.std.specs.Prelude.{refl};
ghost use Rattle.k42_choice.specs.Choices as choices;

use crate::within::Within;
use std::marker::PhantomData;

/// A part of a layout of the first, or of one of the second.
#[derive(Debug, Drop)]
pub enum ChoicePart<P, Q> {
    First(P),
    Second(Q),
}

/// The parts of the first, among those of both.
pub(crate) struct FirstParts<P, Q> {
    of: PhantomData<(P, Q)>,
}

impl<P: Drop, Q: Drop> Within for FirstParts<P, Q> {
    type Own = P;

    type Among = ChoicePart<P, Q>;

    ghost side = { choices.first_parts };

    fn stand(own: P) -> ChoicePart<P, Q> {
        ChoicePart::First(own)
    }

    fn own(part: ChoicePart<P, Q>) -> Option<P> {
        match part {
            ChoicePart::First(own) => Some(own),
            ChoicePart::Second(_) => None,
        }
    }

    ghost back = { λ part. refl };
}

/// Those of the second.
pub(crate) struct SecondParts<P, Q> {
    of: PhantomData<(P, Q)>,
}

impl<P: Drop, Q: Drop> Within for SecondParts<P, Q> {
    type Own = Q;

    type Among = ChoicePart<P, Q>;

    ghost side = { choices.second_parts };

    fn stand(own: Q) -> ChoicePart<P, Q> {
        ChoicePart::Second(own)
    }

    fn own(part: ChoicePart<P, Q>) -> Option<Q> {
        match part {
            ChoicePart::First(_) => None,
            ChoicePart::Second(own) => Some(own),
        }
    }

    ghost back = { λ part. refl };
}
