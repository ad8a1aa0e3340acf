//! The lists of all callers become one history, in the order of their stamps.
ghost use Rattle.std.specs.Prelude.{◌≡◌, ◌+◌, ◌≤◌, ◌^◌, true, false, None, [], map, vec_items, vec_len, vec_capacity, length, IfOk, IfSome};
ghost use Rattle.k42_stamp.specs.Lists.{AreLists, IsMerged, IsMergedFrom, IsTrace, numbered_from};
ghost use Rattle.k42_stamp.specs.Merging.{HasRoom, HasMoved, AreEmpty, IsAlone, entries_in};

use crate::rests::{Rest, next_entry};
use k42_kinds::Entry;
use k42_memory::Memory;
use std::alloc::Global;
use std::marker::Model;

/// Gives each entry its place as stamp, counted from the first.
fn number<O: Copy + Drop, R: Copy + Drop>(first: u64, entries: &mut Vec<Entry<O, R>>)
    requires { first + length entries.old.items ≤ 2 ^ 64 }
    ensures { entries.new.items ≡ numbered_from first entries.old.items }
{
    for place in 0..entries.len() {
        entries[place].stamp = first + place as u64;
    }
}

/// Room in which lists are merged.
#[derive(Drop)]
pub struct Room<O, R> {
    rests: Vec<Rest<O, R>>,
    entries: Vec<Entry<O, R>>,
}

impl<O, R> Model for Room<O, R> {
    ghost use Rattle.std.specs.Prelude.{◌≡◌, [], vec_capacity};
    ghost use Rattle.k42_stamp.specs.Merging.{RoomSeen};

    ghost Value = { RoomSeen };

    ghost view = { λ r. record { lists = vec_capacity r.rests; entries = vec_capacity r.entries } };

    ghost invariant = { λ r. (r.rests.items ≡ []) × (r.entries.items ≡ []) };
}

impl<O: Copy + Drop, R: Copy + Drop> Room<O, R> {
    /// Room for so many lists, which have so many entries in all.
    pub fn new(alloc: Global, lists: usize, entries: usize) -> Result<Room<O, R>, Memory>
        ensures { IfOk result (λ room. room ≡ record { lists = lists; entries = entries }) }
    {
        Ok(Room {
            rests: Vec::with_capacity(alloc, lists)?,
            entries: Vec::with_capacity(alloc, entries)?,
        })
    }
}

/// Moves the next entry behind the others, and answers whether there was one.
fn move_next<O: Copy + Drop, R: Copy + Drop>(
    rests: &mut Vec<Rest<O, R>>,
    entries: &mut Vec<Entry<O, R>>,
) -> bool
    requires room { vec_len entries.old + entries_in rests.old.items ≤ vec_capacity entries.old }
    ensures capacity { vec_capacity entries.new ≡ vec_capacity entries.old }
    ensures room { vec_len entries.new + entries_in rests.new.items ≡ vec_len entries.old + entries_in rests.old.items }
    ensures fewer { result ≡ true → entries_in rests.new.items + 1 ≡ entries_in rests.old.items }
    ensures moved { result ≡ true → HasMoved rests.old.items rests.new.items entries.old.items entries.new.items }
    ensures all { result ≡ false → AreEmpty rests.old.items × (entries.new.items ≡ entries.old.items) }
{
    let Some((place, _)) = next_entry(rests.as_slice()) else {
        return false;
    };
    entries.push_reserved(rests[place].pop());
    true
}

/// Moves all entries, each time the next one.
fn move_all<O: Copy + Drop, R: Copy + Drop>(
    rests: &mut Vec<Rest<O, R>>,
    entries: &mut Vec<Entry<O, R>>,
)
    requires lists { AreLists rests.old.items }
    requires room { entries_in rests.old.items ≤ vec_capacity entries.old }
    requires none { entries.old.items ≡ [] }
    ensures trace { IsTrace rests.old.items entries.new.items }
    ensures all { length entries.new.items ≡ entries_in rests.old.items }
{
    while move_next(rests, entries) {}
}

/// Whether no list has entries.
fn are_empty<O: Copy + Drop, R: Copy + Drop>(lists: &[Vec<Entry<O, R>>]) -> bool
    ensures { result ≡ true → AreEmpty (map vec_items lists.now) }
{
    let Some((list, others)) = lists.split_first() else {
        return true;
    };
    list.is_empty() && are_empty(others)
}

/// The place of the list that alone has entries.
pub(crate) fn only_place<O: Copy + Drop, R: Copy + Drop>(
    lists: &[Vec<Entry<O, R>>],
) -> Option<usize>
    ensures { IfSome result (λ place. IsAlone (map vec_items lists.now) place) }
{
    let (list, others) = lists.split_first()?;
    if are_empty(others) {
        return Some(0);
    }
    if !list.is_empty() {
        return None;
    }
    Some(only_place(others)? + 1)
}

/// What is left of the lists before the first entry has moved.
fn rests_of<O: Copy + Drop, R: Copy + Drop>(
    mut rests: Vec<Rest<O, R>>,
    lists: Vec<Vec<Entry<O, R>>>,
) -> Vec<Rest<O, R>>
    requires none { rests.items ≡ [] }
    requires room { length lists.items ≤ vec_capacity rests }
    ensures { result.items ≡ map vec_items lists.items }
{
    for list in lists {
        rests.push_reserved(Rest::of(list));
    }
    rests
}

/// The list at that place, which alone has entries, numbered anew from the first number. It is not
/// copied.
pub fn take_alone_from<O: Copy + Drop, R: Copy + Drop>(
    first: u64,
    place: usize,
    mut lists: Vec<Vec<Entry<O, R>>>,
) -> Vec<Entry<O, R>>
    requires lists { AreLists (map vec_items lists.items) }
    requires alone { IsAlone (map vec_items lists.items) place }
    requires fits { first + entries_in (map vec_items lists.items) ≤ 2 ^ 64 }
    ensures { IsMergedFrom first (map vec_items lists.items) result.items }
{
    let mut list = lists.swap_remove(place);
    number(first, &mut list);
    list
}

/// The same from 1.
pub fn take_alone<O: Copy + Drop, R: Copy + Drop>(
    place: usize,
    mut lists: Vec<Vec<Entry<O, R>>>,
) -> Vec<Entry<O, R>>
    requires lists { AreLists (map vec_items lists.items) }
    requires alone { IsAlone (map vec_items lists.items) place }
    ensures { IsMerged (map vec_items lists.items) result.items }
{
    take_alone_from(1, place, lists)
}

/// The entries of all lists in the order of stamp, object, cell and caller, numbered anew from the
/// first number.
pub fn merge_from<O: Copy + Drop, R: Copy + Drop>(
    first: u64,
    room: Room<O, R>,
    lists: Vec<Vec<Entry<O, R>>>,
) -> Vec<Entry<O, R>>
    requires lists { AreLists (map vec_items lists.items) }
    requires room { HasRoom room (map vec_items lists.items) }
    requires fits { first + entries_in (map vec_items lists.items) ≤ 2 ^ 64 }
    ensures { IsMergedFrom first (map vec_items lists.items) result.items }
{
    let Room { rests, mut entries } = room;
    let mut rests = rests_of(rests, lists);
    move_all(&mut rests, &mut entries);
    number(first, &mut entries);
    entries
}

/// The same from 1.
pub fn merge_into<O: Copy + Drop, R: Copy + Drop>(
    room: Room<O, R>,
    lists: Vec<Vec<Entry<O, R>>>,
) -> Vec<Entry<O, R>>
    requires lists { AreLists (map vec_items lists.items) }
    requires room { HasRoom room (map vec_items lists.items) }
    ensures { IsMerged (map vec_items lists.items) result.items }
{
    merge_from(1, room, lists)
}

/// How many entries the lists have.
pub(crate) fn total_of<O: Copy + Drop, R: Copy + Drop>(lists: &[Vec<Entry<O, R>>]) -> Option<usize>
    ensures { IfSome result (λ total. total ≡ entries_in (map vec_items lists.now)) }
{
    let Some((list, others)) = lists.split_first() else {
        return Some(0);
    };
    total_of(others)?.checked_add(list.len())
}

/// The same, with room of its own, which it needs only where several lists have entries.
pub fn merge<O: Copy + Drop, R: Copy + Drop>(
    alloc: Global,
    lists: Vec<Vec<Entry<O, R>>>,
) -> Result<Vec<Entry<O, R>>, Memory>
    requires { AreLists (map vec_items lists.items) }
    ensures { IfOk result (λ merged. IsMerged (map vec_items lists.items) merged.items) }
{
    if let Some(place) = only_place(lists.as_slice()) {
        return Ok(take_alone(place, lists));
    }
    let Some(total) = total_of(lists.as_slice()) else {
        return Err(Memory);
    };
    let room = Room::new(alloc, lists.len(), total)?;
    Ok(merge_into(room, lists))
}
