//! Where the words and the slots of the table lie, and what the fields of a word are.
ghost use Rattle.std.specs.Prelude.{◌≡◌, ◌<◌, ◌≤◌, ◌+◌, ◌-◌, ◌*◌, ◌^◌};
ghost use Rattle.k42_joined.specs.Numbers.{cell_of};
ghost use Rattle.phase_core.specs.Effects.{entry_to};
ghost use Rattle.phase_core.specs.State.{empty_entry, mediator_entry};
ghost use Rattle.k42_board.specs.Gracing.{entries_in, exits_in};
ghost use Rattle.k42_board.specs.Tabling.{entry_in, is_over_in};
ghost use Rattle.k42_board.specs.Values.{generation_in, incarnation_in, layout_in, count_in, has_bit, local_value};
ghost use Rattle.k42_board.specs.Words.{generation_word, exits_word, local_word, lock_word, object_word, freed_word, slot_of};

use k42_limits::LAST_INCARNATION;

/// The word of the role.
pub(crate) const ROLE_WORD: usize = 1040;

/// The bits of a swap, in an object's word.
pub const SWAP: u64 = 16_777_216;

pub const BLOCK: u64 = 33_554_432;

pub const MOVE: u64 = 67_108_864;

pub const COMPLETE: u64 = 134_217_728;

const LAYOUT: u64 = 268_435_456;

const INCARNATION: u64 = 4_294_967_296;

/// One entry, in a processor's word.
pub(crate) const ENTRY: u64 = 4_294_967_296;

/// The word of a processor's generation and entries.
pub(crate) fn generation_word(proc: usize) -> usize
    requires { proc < 8 }
    ensures { result ≡ generation_word proc }
{
    16 + 64 * proc
}

/// The word of a processor's exits of even or of odd generations.
pub(crate) fn exits_word(proc: usize, parity: usize) -> usize
    requires { (proc < 8) × (parity < 2) }
    ensures { result ≡ exits_word proc parity }
{
    17 + 64 * proc + parity
}

/// The word of a processor's entry of an object.
pub(crate) fn local_word(proc: usize, object: usize) -> usize
    requires { (proc < 8) × (object < 16) }
    ensures { result ≡ local_word proc object }
{
    32 + 64 * proc + object
}

/// The word of a cell's lock.
pub(crate) fn lock_word(cell: usize) -> usize
    requires { cell < 320 }
    ensures { result ≡ lock_word cell }
{
    48 + 64 * (cell % 8) + cell / 8
}

/// The slot of a cell.
pub(crate) fn slot_of(cell: usize) -> usize
    requires { cell < 320 }
    ensures { result ≡ slot_of cell }
{
    40 * (cell % 8) + cell / 8
}

/// An object's word.
pub(crate) fn object_word(object: usize) -> usize
    requires { object < 16 }
    ensures { result ≡ object_word object }
{
    528 + 16 * object
}

/// The word of an object's mark: how many of its rows are freed.
pub(crate) fn freed_word(object: usize) -> usize
    requires { object < 16 }
    ensures { result ≡ freed_word object }
{
    784 + 16 * object
}

/// The number of the cell at a place of a row.
pub fn cell_number(object: u32, row: u32, place: u32) -> u32
    requires { (object < 16) × (place < 8) }
    ensures { result ≡ cell_of object row place }
{
    (object * 2 + row % 2) * 8 + place
}

/// A processor's generation, in its word.
pub fn generation_in(word: u64) -> u32
    ensures { result ≡ generation_in word }
{
    (word % ENTRY) as u32
}

/// The lower 32 bits of a processor's entries, in the same word.
pub fn entries_in(word: u64) -> u32
    ensures { result ≡ entries_in word }
{
    (word / ENTRY) as u32
}

/// And of its exits, in the word of these.
pub fn exits_in(word: u64) -> u32
    ensures { result ≡ exits_in word }
{
    (word % ENTRY) as u32
}

/// The word of a processor in a generation, with so many entries.
pub fn generation_with(generation: u32, entries: u32) -> u64
    ensures { result ≡ generation + 2 ^ 32 * entries }
{
    u64::from(generation) + ENTRY * u64::from(entries)
}

/// The incarnation, in an object's word or in that of an entry.
pub fn incarnation_in(word: u64) -> u32
    ensures { result ≡ incarnation_in word }
{
    (word >> 32) as u32
}

/// The layout, in an object's word.
pub fn layout_in(word: u64) -> u32
    ensures is { result ≡ layout_in word }
    ensures few { result < 16 }
{
    (word / LAYOUT % 16) as u32
}

/// How many callers the mediator counts, in an object's word.
pub fn count_in(word: u64) -> u32
    ensures { result ≡ count_in word }
{
    (word % SWAP) as u32
}

/// Whether a swap is under way, by an object's word.
pub fn is_swapped(word: u64) -> bool
    ensures { result ≡ has_bit word 24 }
{
    word / SWAP % 2 == 1
}

/// Whether it keeps newcomers out.
pub fn is_blocked(word: u64) -> bool
    ensures { result ≡ has_bit word 25 }
{
    word / BLOCK % 2 == 1
}

/// Whether it moves the state.
pub fn is_moving(word: u64) -> bool
    ensures { result ≡ has_bit word 26 }
{
    word / MOVE % 2 == 1
}

/// Whether the object was turned over.
pub fn is_complete(word: u64) -> bool
    ensures { result ≡ has_bit word 27 }
{
    word / COMPLETE % 2 == 1
}

/// Whether the object, which has so many live layouts, is dead, or at its last incarnation.
pub fn is_over(word: u64, live: u32) -> bool
    ensures { result ≡ is_over_in live word }
{
    layout_in(word) == live || word / INCARNATION == u64::from(LAST_INCARNATION)
}

/// The word of an object that blocks while nobody is counted, by the word that its swap began with.
pub fn blocked_word(begun: u64) -> u64
    ensures { result ≡ 2 ^ 24 * 3 + 2 ^ 28 * layout_in begun + 2 ^ 32 * incarnation_in begun }
{
    SWAP + BLOCK + begun / LAYOUT % 16 * LAYOUT + begun / INCARNATION * INCARNATION
}

/// What turns an object over, as it is added to its word: one incarnation, COMPLETE for BLOCK and MOVE, and the new layout
/// for the one that its swap began with.
pub fn turn_amount(layout: u32, begun: u64) -> u64
    requires { layout < 16 }
    ensures { result ≡ 2 ^ 32 + 2 ^ 28 * layout + 2 ^ 25 - 2 ^ 28 * layout_in begun }
{
    INCARNATION + LAYOUT * u64::from(layout) + BLOCK - LAYOUT * (begun / LAYOUT % 16)
}

/// An entry's tag: 0 empty, 1 direct, 2 a mediator.
pub fn tag_in(word: u64) -> u64
    ensures { result ≡ (entry_in word).tag }
{
    word % 4
}

/// The layout of a direct entry.
pub fn entry_layout(word: u64) -> u32
    ensures { result ≡ (entry_in word).layout }
{
    (word / 16 % 16) as u32
}

/// The place to which a direct entry leads.
pub fn entry_cell(word: u64) -> u32
    ensures { result ≡ (entry_in word).cell }
{
    (word / 256 % 256) as u32
}

/// An empty entry.
pub fn empty_word(incarnation: u32) -> u64
    ensures { result ≡ local_value (empty_entry incarnation) }
{
    u64::from(incarnation) * INCARNATION
}

/// An entry that leads to the mediator.
pub fn mediator_word(incarnation: u32) -> u64
    ensures { result ≡ local_value (mediator_entry incarnation) }
{
    u64::from(incarnation) * INCARNATION + 2
}

/// An entry that leads to a cell of a row with the layout.
pub fn direct_word(layout: u32, cell: u32, incarnation: u32) -> u64
    requires { (layout < 16) × (cell < 8) }
    ensures { result ≡ local_value (entry_to layout cell incarnation) }
{
    u64::from(incarnation) * INCARNATION + 1 + u64::from(16 * layout + 256 * cell)
}
