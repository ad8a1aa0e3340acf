//! Shapes, which say how the processors of a system share the cells of a row.
#![tactic(auto)]

mod laws;
mod shape;

pub use laws::shapes_share_cells_out;
pub use shape::Shape;
