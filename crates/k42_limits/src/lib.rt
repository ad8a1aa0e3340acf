//! The limits of the system and the two bytes that part its texts, each said once.
#![tactic(auto)]

/// A system has 1 to this many processors.
pub const PROCESSORS: u32 = 8;

/// A script declares at most this many objects; a running system has 1 to this many.
pub const OBJECTS: usize = 16;

/// A script declares at most this many workers; a running system has 1 to this many callers.
pub const CALLERS: usize = 16;

/// The number of an object's last incarnation, counted from 0, and so how many swaps it can go
/// through. The next one is answered `spent`.
pub const LAST_INCARNATION: u32 = 1_048_575;

/// An object has at most this many live layouts. The dead one comes after them, and all their numbers
/// fit into four bits.
pub const LIVE_LAYOUTS: usize = 15;

/// A pass draws at most this many entries.
pub const PASS_ENTRIES: u64 = 288_230_376_151_711_744;

/// No stamp is above it: there are no more entries than all passes draw.
pub const LAST_STAMP: u64 = 4_611_686_018_427_387_904;

/// A pass begins at most this many graces, so that a generation, which the graces of all passes raise, stays below 2^32.
pub const PASS_GRACES: u32 = 134_217_728;

/// The pages of an object are numbered from 0 to below this.
pub const PAGES: u32 = 1_024;

/// The amount that a call adds to a counter is below this.
pub const AMOUNTS: u64 = 4_294_967_296;

/// A name has 1 to this many bytes.
pub const NAME_BYTES: usize = 16;

/// A text has 1 to this many bytes.
pub const TEXT_BYTES: usize = 32;

/// A script has at most this many call, swap and destroy lines.
pub const CALL_LINES: usize = 65_536;

/// A script has at most this many bytes.
pub const SCRIPT_BYTES: usize = 1_048_576;

/// The input of `check`, a script and a record, has at most this many bytes.
pub const INPUT_BYTES: usize = 16_777_216;

/// Lines end with it.
pub const LINE_FEED: u8 = b'\n';

/// Tokens are parted by it.
pub const SPACE: u8 = b' ';
