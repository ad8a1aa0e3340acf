//! Calls, graces and rows of one system, each step by a call of its own.
mod crews;
mod graces;
mod kept;
mod rows;
