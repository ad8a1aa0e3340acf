//! Layouts in which a system can keep an object.
ghost use Rattle.std.specs.Prelude.{ℕ, IsTrue};
ghost use Rattle.k42_shapes.specs.Shapes.{IsKnownTag};

use k42_kinds::Layout;

/// A layout in which a system can keep an object: its type has all layouts of that object, the live ones and the dead one.
pub trait Clustered: Layout {
    /// Some reply, which stands where a call is to leave its own.
    fn blank_reply() -> Self::Reply;

    /// No number of a layout of its object is missing.
    ghost has_all: { (layout : Self) (tag : ℕ) → IsKnownTag (Self.shapes layout) tag → IsTrue (Self.has_tag layout tag) };
}
