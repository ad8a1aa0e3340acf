//! Tests of the counter, the directory and the pages in groups of processors.
#![tactic(auto)]

#[cfg(test)]
mod rows;
#[cfg(test)]
mod tests;
