//! Tests of tables and swaps. They stand apart, so that the machine is proved once.
#![tactic(auto)]

#[cfg(test)]
mod tests;
