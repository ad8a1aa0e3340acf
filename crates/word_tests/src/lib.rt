//! A test of the words of the table. It stands apart, so that what it tests is proved once.
#![tactic(auto)]

#[cfg(test)]
mod tests;
