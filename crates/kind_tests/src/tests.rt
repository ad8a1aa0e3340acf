//! Objects of one thread, their layouts, and the merge of their histories.
mod any;
mod counters;
mod directories;
mod kinds;
mod merges;
mod pages;
