//! The counter, the directory and the pages in groups of processors, by what they prove with a cell for each.
#![tactic(auto)]

mod any_groups;
mod grouped;
mod kinds;
mod spread;
mod ways;

pub use any_groups::AnyGroups;
pub use grouped::Grouped;
pub use spread::Spread;
pub use ways::{
    CounterApart, CounterInFours, CounterInPairs, CounterTogether, DirectoryApart,
    DirectoryInFours, DirectoryInPairs, DirectoryTogether, PagesApart, PagesInFours, PagesInPairs,
    PagesTogether,
};
