//! Tests of objects and their layouts. They stand apart, so that what they test is proved once.
#![tactic(auto)]

#[cfg(test)]
mod tests;
