//! Tests of layouts of two kinds as those of one type.
#![tactic(auto)]

#[cfg(test)]
mod tests;
