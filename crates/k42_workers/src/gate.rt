/// Where a run may be held: it is told of each line of a worker before and after the line is
/// carried out. A gate answers nothing, so no reply depends on it.
pub trait Gate {
    /// `worker` counts from 0, `line` is the number of the script's line.
    fn at(&self, worker: u32, line: u32, before: bool);
}

/// The gate that holds nothing.
#[derive(Clone, Copy, Debug, PartialEq, Eq)]
pub struct FreeGate;

impl Gate for FreeGate {
    fn at(&self, _worker: u32, _line: u32, _before: bool) {}
}
