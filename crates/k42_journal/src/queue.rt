//! Which log has the next entry.
ghost use Rattle.std.specs.Prelude.{◌≡◌, ◌<◌, ◌≤◌, ◌+◌, None, length, vec_len, vec_capacity, IfSome};
ghost use Rattle.k42_stamp.specs.Orders.{Ordered};
ghost use Rattle.k42_stamp.specs.Lists.{AreLists};
ghost use Rattle.k42_stamp.specs.Merging.{AreEmpty};
ghost use Rattle.k42_journal.specs.Keys.{stands_before};
ghost use Rattle.k42_journal.specs.Queues.{HasEntered, HasEnteredFirst, IsBehind, IsQueueOf, IsTaken, front_of};

use k42_kinds::{Entry, Packed, PackedReply};
use k42_log::{Standing, Unread};

/// Whether one stands before the other, by stamp, object, cell and caller.
fn stands_before(one: &Standing, other: &Standing) -> bool
    ensures { result ≡ stands_before one.now other.now }
{
    if one.stamp != other.stamp {
        return one.stamp < other.stamp;
    }
    if one.object != other.object {
        return one.object < other.object;
    }
    if one.cell != other.cell {
        return one.cell < other.cell;
    }
    one.caller < other.caller
}

/// Puts it in the last one's stead, and moves those that are to be read earlier behind it.
fn enter_for_last(queue: &mut [Standing], standing: Standing)
    requires some { 0 < length queue.old }
    requires ordered { Ordered IsBehind (front_of queue.old) }
    ensures { HasEntered standing (front_of queue.old) queue.new }
{
    let mut place = queue.len() - 1;
    while place > 0 && stands_before(&queue[place - 1], &standing) {
        queue[place] = queue[place - 1];
        place -= 1;
    }
    queue[place] = standing;
}

/// Puts the first entry that was not read yet into the queue, if there is one.
pub(crate) fn enter_first<O: Packed, R: PackedReply>(
    queue: &mut Vec<Standing>,
    unread: &Unread<'_, O, R>,
)
    requires ordered { Ordered IsBehind queue.old.items }
    requires room { vec_len queue.old < vec_capacity queue.old }
    ensures entered { HasEnteredFirst unread.now queue.old.items queue.new.items }
    ensures len { vec_len queue.new ≤ vec_len queue.old + 1 }
    ensures capacity { vec_capacity queue.new ≡ vec_capacity queue.old }
{
    if let Some(standing) = unread.standing() {
        queue.push_reserved(standing);
        enter_for_last(queue.as_mut_slice(), standing);
    }
}

/// Puts the first entry that was not read yet in the last one's stead, or nothing, if there is none.
fn follow_last<O: Packed, R: PackedReply>(queue: &mut Vec<Standing>, unread: &Unread<'_, O, R>)
    requires some { 0 < length queue.old.items }
    requires ordered { Ordered IsBehind (front_of queue.old.items) }
    ensures { HasEnteredFirst unread.now (front_of queue.old.items) queue.new.items }
{
    match unread.standing() {
        None => {
            let _read = queue.pop();
        }
        Some(standing) => enter_for_last(queue.as_mut_slice(), standing),
    }
}

/// Takes the next entry from its log.
pub(crate) fn take_next<O: Packed, R: PackedReply>(
    unread: &mut Vec<Unread<'_, O, R>>,
    queue: &mut Vec<Standing>,
) -> Option<Entry<O, R>>
    requires lists { AreLists unread.old.items }
    requires queue { IsQueueOf unread.old.items queue.old.items }
    ensures none { result ≡ None → AreEmpty unread.old.items × (unread.new.items ≡ unread.old.items) }
    ensures taken { IfSome result (IsTaken unread.old.items unread.new.items) }
    ensures queue { IsQueueOf unread.new.items queue.new.items }
{
    let standing = queue.last()?;
    let rest = &mut unread[standing.caller as usize];
    let entry = rest.next();
    follow_last(queue, rest);
    entry
}
