//! Shapes as types, so that all objects of one type are kept in one shape.
ghost use Rattle.std.specs.Prelude.{◌≡◌};
ghost use Rattle.k42_shapes.specs.declared.shape.Shape.{Shape};
ghost use Rattle.k42_shapes.specs.declared.shape.Shape.TheVariants.{One, Each, Groups};

use k42_shapes::Shape;

pub trait Spacing: Copy + Send + Sync {
    ghost shape: { Shape };

    fn shape() -> Shape
        ensures { result ≡ shape };
}

/// One copy for all processors.
#[derive(Clone, Copy, Debug, PartialEq, Eq)]
pub struct Together;

/// A copy for each two neighbouring processors.
#[derive(Clone, Copy, Debug, PartialEq, Eq)]
pub struct InPairs;

/// A copy for each four neighbouring processors.
#[derive(Clone, Copy, Debug, PartialEq, Eq)]
pub struct InFours;

/// A copy for each processor.
#[derive(Clone, Copy, Debug, PartialEq, Eq)]
pub struct Apart;

impl Spacing for Together {
    ghost shape = { One };

    fn shape() -> Shape {
        Shape::One
    }
}

impl Spacing for InPairs {
    ghost shape = { Groups 2 };

    fn shape() -> Shape {
        Shape::Groups(2)
    }
}

impl Spacing for InFours {
    ghost shape = { Groups 4 };

    fn shape() -> Shape {
        Shape::Groups(4)
    }
}

impl Spacing for Apart {
    ghost shape = { Each };

    fn shape() -> Shape {
        Shape::Each
    }
}
