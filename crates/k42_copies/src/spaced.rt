//! Shapes by number, so that an object can be kept in any of them.
ghost use Rattle.std.specs.Prelude.{◌≡◌};
ghost use Rattle.k42_copies.specs.Spaced.{number_of, shape_of, has_number};

use k42_shapes::Shape;

/// Which processors share a copy, numbered from 0 in this order.
#[derive(Clone, Copy, Debug, PartialEq, Eq)]
pub enum Spaced {
    Together,
    InPairs,
    InFours,
    Apart,
}

impl Spaced {
    pub fn shape(self) -> Shape
        ensures { result ≡ shape_of self }
    {
        match self {
            Spaced::Together => Shape::One,
            Spaced::InPairs => Shape::Groups(2),
            Spaced::InFours => Shape::Groups(4),
            Spaced::Apart => Shape::Each,
        }
    }

    pub fn number(self) -> u32
        ensures { result ≡ number_of self }
    {
        match self {
            Spaced::Together => 0,
            Spaced::InPairs => 1,
            Spaced::InFours => 2,
            Spaced::Apart => 3,
        }
    }

    /// That of the number, and the last for any number above.
    pub fn of(number: u32) -> Spaced
        ensures { has_number number → number_of result ≡ number }
    {
        match number {
            0 => Spaced::Together,
            1 => Spaced::InPairs,
            2 => Spaced::InFours,
            _ => Spaced::Apart,
        }
    }
}
