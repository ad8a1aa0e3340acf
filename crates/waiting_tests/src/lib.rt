//! Tests of calls that are held up, stepped on one thread and waiting on two. They stand apart, so that what they test is proved once.
#![tactic(auto)]

#[cfg(test)]
mod tests;
