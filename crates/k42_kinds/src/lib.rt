//! The objects of one thread, their operations and replies, and what a lawful history of them is.
#![tactic(auto)]

mod counter;
mod directory;
mod entry;
mod figures;
mod kind;
mod layout;
mod name;
mod operation;
mod packed;
mod packed_calls;
mod page;
mod pages;
mod plain;
mod row;
mod states;
mod text;
mod watch;

pub use counter::step_counter;
pub use directory::{DirectoryState, step_directory};
pub use entry::{Act, Answer, Entry, Reach, To};
pub use figures::what_is_told_is_the_figure;
pub use kind::Kind;
pub use layout::Layout;
pub use name::Name;
pub use operation::{KindName, LayoutName, Op, Reply, belongs_to, kind_of};
pub use packed::{Label, Packed, PackedReply, REPLY_TAGS, Size};
pub use page::Page;
pub use pages::{PagesState, step_pages};
pub use plain::Plain;
pub use row::{empty_row, step_row};
pub use states::AnyState;
pub use text::Text;
pub use watch::{WatchState, counted, is_seen, told};
