//! Of the one type or of the other.

/// Of the first or of the second: a layout, and what objects of the two are asked, reply, are in, and are kept in parts by.
#[derive(Clone, Copy, Debug, PartialEq, Eq, Drop)]
pub enum Either<A, B> {
    First(A),
    Second(B),
}
