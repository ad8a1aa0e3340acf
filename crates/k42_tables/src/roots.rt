//! Roots, which decide at which cell a processor is served.
ghost use Rattle.std.specs.Prelude.{◌≡◌, ◌<◌, ℕ};
ghost use Rattle.k42_shapes.specs.Shapes.{cells_of, cell_called};
ghost use Rattle.k42_shapes.specs.declared.shape.Shape.TheVariants as shapes;
ghost use Rattle.k42_tables.specs.RootLaws.{shared_serves, shape_serves};

use k42_shapes::Shape;

pub trait Root {
    /// The cell for a processor, and how many cells so many processors have.
    ghost named: { Self → ℕ → ℕ };

    ghost many: { Self → ℕ → ℕ };

    fn cell_for(&self, proc: u32) -> u32
        ensures { result ≡ named self.now proc };

    fn cells(&self, procs: u32) -> u32
        ensures { result ≡ many self.now procs };

    /// Each processor has a cell.
    ghost serves: { (root : Self) (proc procs : ℕ) → proc < procs → named root proc < many root procs };
}

/// One cell serves all processors.
#[derive(Clone, Copy, Debug)]
pub struct SharedRoot;

/// Each processor has its own cell.
#[derive(Clone, Copy, Debug)]
pub struct SpreadRoot;

impl Root for SharedRoot {
    ghost named = { λ _ proc. cell_called shapes.One proc };

    ghost many = { λ _ procs. cells_of shapes.One procs };

    fn cell_for(&self, _proc: u32) -> u32 {
        0
    }

    fn cells(&self, _procs: u32) -> u32 {
        1
    }

    ghost serves = { λ root proc procs there. shared_serves proc procs };
}

impl Root for SpreadRoot {
    ghost named = { λ _ proc. cell_called shapes.Each proc };

    ghost many = { λ _ procs. cells_of shapes.Each procs };

    fn cell_for(&self, proc: u32) -> u32 {
        proc
    }

    fn cells(&self, procs: u32) -> u32 {
        procs
    }

    ghost serves = { λ root proc procs there. there };
}

/// The root of a layout is its shape.
impl Root for Shape {
    ghost named = { λ shape proc. cell_called shape proc };

    ghost many = { λ shape procs. cells_of shape procs };

    fn cell_for(&self, processor: u32) -> u32 {
        self.cell_called(processor)
    }

    fn cells(&self, procs: u32) -> u32 {
        Shape::cells(*self, procs)
    }

    ghost serves = { λ shape proc procs there. shape_serves shape proc procs there };
}
