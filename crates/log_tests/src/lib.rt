//! Tests of logs. They stand apart, so that what they test is proved once.
#![tactic(auto)]

mod badge;
#[cfg(test)]
mod tests;

pub use badge::{BadgeOp, BadgeReply};
