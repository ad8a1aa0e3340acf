//! What is replied where there is no object.
ghost use Rattle.std.specs.Prelude.{◌≡◌};
ghost use Rattle.k42_kinds.specs.declared.operation.Reply.TheVariants as replies;
ghost use Rattle.k42_either.specs.declared.either.Either.TheVariants.{First};

use crate::either::Either;
use k42_kinds::Reply;

/// Replies of which one says that the object is gone.
pub trait Gone: Drop {
    ghost gone: { Self };

    fn gone() -> Self
        ensures { result ≡ gone };
}

impl Gone for Reply {
    ghost gone = { replies.Gone };

    fn gone() -> Reply {
        Reply::Gone
    }
}

impl<R: Gone, V: Drop> Gone for Either<R, V> {
    ghost gone = { First R.gone };

    fn gone() -> Either<R, V> {
        Either::First(R::gone())
    }
}
