//! Events of machines that follow one another, and which of them are possible.
mod generations;
mod turns;
