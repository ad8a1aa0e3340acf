//! Tests of the library on one thread. They stand apart, so that what they test is proved once.
#![tactic(auto)]

#[cfg(test)]
mod tests;
