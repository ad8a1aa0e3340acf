//! What a layout with a cell for each processor offers so that it can be kept in groups.
ghost use Rattle.std.specs.Prelude.{◌≡◌};
ghost use Rattle.k42_shapes.specs.Shapes.{IsLiveTag, shape_at};
ghost use Rattle.k42_shapes.specs.declared.shape.Shape.TheVariants.{Each};
ghost use Rattle.co_groups.specs.Grouped.{living};

use k42_kinds::Layout;

/// A live layout with a cell for each processor. It keeps its object in one way.
pub trait Spread: Layout {
    /// What every call is replied once the object is at its end.
    ghost gone: { Self.Reply };

    fn gone() -> Self::Reply
        ensures { result ≡ gone };

    /// It has a cell for each processor.
    ghost each: { (layout : Self) → shape_at (Self.shapes layout) (Self.tag_of layout) ≡ Each };

    /// It is not the dead one.
    ghost numbered: { (layout : Self) → IsLiveTag (Self.shapes layout) (Self.tag_of layout) };

    /// Two of this type that keep one object while it lives keep one object.
    ghost one_end: { (layout other : Self)
        → living (Self.object layout) ≡ living (Self.object other) → Self.object layout ≡ Self.object other };

    /// And they keep it in one way.
    ghost one_tag: { (layout other : Self) → Self.tag_of layout ≡ Self.tag_of other };
}
