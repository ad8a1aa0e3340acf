//! The four ways of each kind.
use crate::grouped::Grouped;
use co_counter::SpreadCounter;
use co_directory::SpreadDirectory;
use co_pages::SpreadPages;
use k42_copies::{Apart, InFours, InPairs, Together};

/// One amount for all processors.
pub type CounterTogether = Grouped<SpreadCounter, Together>;

/// An amount for each two neighbouring processors.
pub type CounterInPairs = Grouped<SpreadCounter, InPairs>;

/// An amount for each four neighbouring processors.
pub type CounterInFours = Grouped<SpreadCounter, InFours>;

/// An amount for each processor.
pub type CounterApart = Grouped<SpreadCounter, Apart>;

/// One copy for all processors.
pub type DirectoryTogether = Grouped<SpreadDirectory, Together>;

/// A copy for each two neighbouring processors.
pub type DirectoryInPairs = Grouped<SpreadDirectory, InPairs>;

/// A copy for each four neighbouring processors.
pub type DirectoryInFours = Grouped<SpreadDirectory, InFours>;

/// A copy for each processor.
pub type DirectoryApart = Grouped<SpreadDirectory, Apart>;

/// All pages in one cell.
pub type PagesTogether = Grouped<SpreadPages, Together>;

/// Pages spread over a cell for each two neighbouring processors.
pub type PagesInPairs = Grouped<SpreadPages, InPairs>;

/// Pages spread over a cell for each four neighbouring processors.
pub type PagesInFours = Grouped<SpreadPages, InFours>;

/// Pages spread over a cell for each processor.
pub type PagesApart = Grouped<SpreadPages, Apart>;
