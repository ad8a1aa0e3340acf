//! Tests of the calls on the tables. They stand apart, so that these are proved once.
#![tactic(auto)]

#[cfg(test)]
mod tests;
