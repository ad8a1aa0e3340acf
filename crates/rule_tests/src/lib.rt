//! Tests of the running table. They stand apart, so that it is proved once.
#![tactic(auto)]

#[cfg(test)]
mod tests;
