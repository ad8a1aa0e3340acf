//! Where bytes come from and go to, with counted faults, and loops that read and write all of them.
#![tactic(auto)]

mod mem_sink;
mod mem_source;
mod quiet;
mod reading;
mod remaining;
mod schedule;
mod sink;
mod source;
mod standard;
mod storage;
mod writing;

pub use mem_sink::MemSink;
pub use mem_source::MemSource;
pub use quiet::{QuietSink, QuietSource};
pub use reading::{ReadEnd, read_all};
pub use sink::Sink;
pub use source::{Failed, Source};
pub use standard::{InputSource, OutputSink};
pub use writing::write_all;
