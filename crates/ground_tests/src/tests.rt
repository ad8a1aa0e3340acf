//! Limits, items, and sources and sinks.
mod items;
mod limits;
mod streams;
