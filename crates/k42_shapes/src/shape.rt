//! The shape of a row.
ghost use Rattle.std.specs.Prelude.{◌≡◌, ◌<◌};
ghost use Rattle.k42_shapes.specs.Shapes.{width_of, cells_of, cell_called};

/// How many cells a row has, and which of them a processor calls.
#[derive(Clone, Copy, Debug, PartialEq, Eq)]
pub enum Shape {
    /// One cell for all.
    One,
    /// A cell for each.
    Each,
    /// A cell for each group of so many neighbouring processors, the last of which may have fewer. A
    /// group has at least one processor: `Groups(0)` is as `Groups(1)`.
    Groups(u32),
}

fn width_of(width: u32) -> u32
    ensures is { result ≡ width_of width }
    ensures some { 0 < result }
{
    if width == 0 { 1 } else { width }
}

impl Shape {
    /// How many cells a row has for so many processors.
    pub fn cells(self, procs: u32) -> u32
        ensures { result ≡ cells_of self procs }
    {
        match self {
            Shape::One => 1,
            Shape::Each => procs,
            Shape::Groups(width) => procs.saturating_sub(1) / width_of(width) + 1,
        }
    }

    /// The cell that a processor calls.
    pub fn cell_called(self, proc: u32) -> u32
        ensures { result ≡ cell_called self proc }
    {
        match self {
            Shape::One => 0,
            Shape::Each => proc,
            Shape::Groups(width) => proc / width_of(width),
        }
    }
}
