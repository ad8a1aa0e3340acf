//! What a table is made for.

/// What the table is told when it is made: the declared layouts, and the callers' processors.
#[derive(Drop)]
pub struct Setup<L> {
    pub procs: u32,
    pub layouts: Vec<L>,
    pub callers: Vec<u32>,
}
