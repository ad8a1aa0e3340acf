//! What shapes promise.
ghost use Rattle.std.specs.Prelude.{◌≡◌, ◌<◌, ◌↔◌, ℕ};
ghost use Rattle.k42_shapes.specs.declared.shape.Shape.{Shape};
ghost use Rattle.k42_shapes.specs.Shapes.{cells_of, cell_called, AreTogether, IsCalled};

/// The processors share the cells of a row out: each calls one of them, those who are together and
/// no others call the same, and each cell is called.
pub fn shapes_share_cells_out()
    ensures within { (shape : Shape) (proc procs : ℕ) → proc < procs → cell_called shape proc < cells_of shape procs }
    ensures together { (shape : Shape) (one other : ℕ)
        → (cell_called shape one ≡ cell_called shape other) ↔ AreTogether shape one other }
    ensures called { (shape : Shape) (procs cell : ℕ) → 0 < procs → cell < cells_of shape procs → IsCalled shape procs cell }
{}
