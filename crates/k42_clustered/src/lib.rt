//! What a system asks of the layouts of its objects.
#![tactic(auto)]

mod clustered;

pub use clustered::Clustered;
