//! What is left of lists that are merged, and which entry comes next.
ghost use Rattle.std.specs.Prelude.{◌≡◌, ◌↔◌, ◌<◌, ◌∷◌, [], true, Some, None, IfSome, length, slice_get};
ghost use Rattle.k42_stamp.specs.Merging.{IsNext, AreEmpty};
ghost use Rattle.k42_stamp.specs.Orders.{IsBefore};

use k42_kinds::Entry;
use std::collections::VecDeque;
use std::marker::Model;

/// What is left of a list.
#[derive(Drop)]
pub(crate) struct Rest<O, R> {
    entries: VecDeque<Entry<O, R>>,
}

impl<O, R> Model for Rest<O, R> {
    ghost use Rattle.std.specs.Prelude.{List};
    ghost use Rattle.k42_kinds.specs.declared.entry.Entry.{Entry};

    ghost Value = { List (Entry O R) };

    ghost view = { λ r. r.entries.items };
}

impl<O: Copy + Drop, R: Copy + Drop> Rest<O, R> {
    /// The whole list.
    pub(crate) fn of(list: Vec<Entry<O, R>>) -> Rest<O, R>
        ensures { result ≡ list.items }
    {
        Rest {
            entries: VecDeque::from(list),
        }
    }

    fn first(&self) -> Option<&Entry<O, R>>
        ensures none { result ≡ None → self.now ≡ [] }
        ensures some { IfSome result (λ entry. slice_get self.now 0 ≡ Some entry.now) }
    {
        self.entries.front()
    }

    /// Takes the first entry out.
    pub(crate) fn pop(&mut self) -> Entry<O, R>
        requires { 0 < length self.old }
        ensures { self.old ≡ result ∷ self.new }
    {
        match self.entries.pop_front() {
            Some(entry) => entry,
            None => unreachable!(),
        }
    }
}

/// Whether the entry stands before the other, by stamp, object, cell and caller.
fn is_before<O: Copy + Drop, R: Copy + Drop>(one: &Entry<O, R>, other: &Entry<O, R>) -> bool
    ensures { (result ≡ true) ↔ IsBefore one.now other.now }
{
    if one.stamp != other.stamp {
        return one.stamp < other.stamp;
    }
    if one.object != other.object {
        return one.object < other.object;
    }
    if one.cell != other.cell {
        return one.cell < other.cell;
    }
    one.caller < other.caller
}

/// The next entry, and the place of its list.
pub(crate) fn next_entry<O: Copy + Drop, R: Copy + Drop>(
    rests: &[Rest<O, R>],
) -> Option<(usize, &Entry<O, R>)>
    ensures none { result ≡ None → AreEmpty rests.now }
    ensures next { IfSome result (λ found. IsNext rests.now found.0 found.1.now) }
{
    let (rest, others) = rests.split_first()?;
    match (rest.first(), next_entry(others)) {
        (None, None) => None,
        (None, Some((place, other))) => Some((place + 1, other)),
        (Some(entry), None) => Some((0, entry)),
        (Some(entry), Some((place, other))) => {
            if is_before(other, entry) {
                Some((place + 1, other))
            } else {
                Some((0, entry))
            }
        }
    }
}
