//! What holds of a list place by place: after one place was written, with more behind it, and in counts.
#![tactic(auto)]
