//! Tests of the layer. They stand apart, so that the layer is proved once.
#![tactic(auto)]

#[cfg(test)]
mod tests;
