//! How a log keeps values of two types.
ghost use Rattle.std.specs.Prelude.{◌≡◌, ◌<◌};
ghost use Rattle.k42_either.specs.EitherPackings.{either_packing, joined, parted};

use crate::either::Either;
use crate::few_tags::{FewTags, FewerTags};
use k42_kinds::{Label, Packed, PackedReply, Size};

/// Whose label it is, and which of theirs.
fn part(label: Label) -> Either<Label, Label>
    ensures { result ≡ parted label }
{
    let own = Label {
        tag: label.tag / 2,
        small: label.small,
    };
    if label.tag % 2 == 0 {
        Either::First(own)
    } else {
        Either::Second(own)
    }
}

impl<A: FewTags, B: FewTags> Packed for Either<A, B> {
    ghost packing = { either_packing A.packing B.packing };

    #[inline(always)]
    fn label(&self) -> Label {
        match self {
            Either::First(value) => {
                value.tag_is_low();
                let label = value.label();
                Label {
                    tag: 2 * label.tag,
                    small: label.small,
                }
            }
            Either::Second(value) => {
                value.tag_is_low();
                let label = value.label();
                Label {
                    tag: 2 * label.tag + 1,
                    small: label.small,
                }
            }
        }
    }

    fn most() -> Size {
        let one = A::most();
        let other = B::most();
        Size {
            words: one.words.max(other.words),
            bytes: one.bytes.max(other.bytes),
        }
    }

    fn size(label: Label) -> Size {
        match part(label) {
            Either::First(label) => A::size(label),
            Either::Second(label) => B::size(label),
        }
    }

    #[inline(always)]
    fn pack(&self, words: &mut Vec<u64>, bytes: &mut Vec<u8>) {
        match self {
            Either::First(value) => value.pack(words, bytes),
            Either::Second(value) => value.pack(words, bytes),
        }
    }

    fn unpack(label: Label, words: &[u64], bytes: &[u8]) -> Self {
        match part(label) {
            Either::First(label) => Either::First(A::unpack(label, words, bytes)),
            Either::Second(label) => Either::Second(B::unpack(label, words, bytes)),
        }
    }
}

impl<A: PackedReply + FewTags, B: PackedReply + FewTags> PackedReply for Either<A, B> {
    fn label_is_low(&self) {
        match self {
            Either::First(value) => {
                value.tag_is_low();
                value.label_is_low();
            }
            Either::Second(value) => {
                value.tag_is_low();
                value.label_is_low();
            }
        }
    }
}

impl<A: FewerTags, B: FewerTags> FewTags for Either<A, B> {
    fn tag_is_low(&self) {
        match self {
            Either::First(value) => value.tag_is_lower(),
            Either::Second(value) => value.tag_is_lower(),
        }
    }
}
