//! Tests of the limiter and of the table of routes, in each of their ways.
#![tactic(auto)]

#[cfg(test)]
mod rows;
#[cfg(test)]
mod tests;
