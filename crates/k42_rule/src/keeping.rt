//! What a pass keeps of its entries.
ghost use Rattle.std.specs.Prelude.{◌≡◌, ◌<◌, ◌≤◌};
ghost use Rattle.k42_board.specs.Seen.{kept_with, room_due, IsRoomLeft};
ghost use Rattle.k42_limits.specs.declared.TheConstants.{OBJECTS, PASS_ENTRIES};
ghost use Rattle.k42_log.specs.Logs.{call_entry, next_index};
ghost use Rattle.k42_log.specs.declared.head.TheConstants.{CELLS};
ghost use Rattle.k42_rule.specs.Keeping.{MayKeep};

use k42_board::Keep;
use k42_kinds::{Entry, Packed, PackedReply};
use k42_log::Log;

/// Keeps the entry, where any are kept.
pub(crate) fn store<O: Packed, R: PackedReply>(
    keep: Keep,
    kept: &mut Log<O, R>,
    entry: &Entry<O, R>,
)
    requires room { room_due keep ≤ kept.old.room }
    requires may { MayKeep keep kept.old entry.now }
    ensures entries { kept.new.entries ≡ kept_with keep kept.old.entries entry.now }
    ensures owner { kept.new.owner ≡ kept.old.owner }
    ensures first { kept.new.first ≡ kept.old.first }
    ensures room { IsRoomLeft keep kept.old.room kept.new.room }
{
    match keep {
        Keep::All | Keep::Sections => kept.push(entry),
        Keep::Nothing => {}
    }
}

/// Keeps the entry of a call, which is not made before.
#[inline(always)]
pub(crate) fn store_call<O: Packed, R: PackedReply>(
    keep: Keep,
    kept: &mut Log<O, R>,
    stamp: u64,
    object: u32,
    row: u32,
    cell: u32,
    generation: Option<u32>,
    op: &O,
    reply: &R,
)
    requires room { room_due keep ≤ kept.old.room }
    requires few { next_index kept.old < PASS_ENTRIES }
    requires object { object < OBJECTS }
    requires cell { cell < CELLS }
    ensures entries { kept.new.entries ≡ kept_with keep kept.old.entries (call_entry kept.old stamp object row cell generation op.now reply.now) }
    ensures owner { kept.new.owner ≡ kept.old.owner }
    ensures first { kept.new.first ≡ kept.old.first }
    ensures room { IsRoomLeft keep kept.old.room kept.new.room }
{
    match keep {
        Keep::All | Keep::Sections => {
            kept.push_call(stamp, object, row, cell, generation, op, reply);
        }
        Keep::Nothing => {}
    }
}
