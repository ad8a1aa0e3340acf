//! The value, and who has it.
ghost use Rattle.std.specs.Prelude.{◌≡◌, Some, IfOk, IfSome, IsSomeAnd};
ghost use Rattle.k42_desk.specs.Kept.{Guarded, Seized};

use atomic_table::{Play, Refused, Seat, Table, TableRule};
use k42_memory::Memory;
use std::alloc::Global;
use std::marker::{Model, PhantomData};

/// Which values fit a key, and which may be put back where another was taken. No value of it is made.
pub trait Fits<K, T> {
    ghost fits: { K → T → Type 0 };

    ghost follows: { K → T → T → Type 0 };
}

/// The rule of the desk's table.
pub struct Guard<F> {
    marker: PhantomData<F>,
}

impl<K, T, F: Fits<K, T>> TableRule<Option<T>, (K, Option<T>), K> for Guard<F> {
    ghost holds = { λ key. Guarded (F.fits key) };

    ghost use Rattle.std.specs.Prelude.{None};

    // A step cannot read the key, so that a view is told it. With it stands what was taken.
    ghost first = { λ key. (key, None) };
}

impl<K, T, F: Fits<K, T>> Play<Option<T>, (K, Option<T>)> for Guard<F> {
    ghost then = { λ step me found new. found ≡ 0 → Seized (F.fits me.0.0) new };
}

struct Release;

impl<K, T> Play<Option<T>, (K, Option<T>)> for Release {
    ghost then = { λ step me found new. Unit {0} };
}

/// A value that fits a key, where nobody has taken it.
#[derive(Drop)]
pub struct Desk<K, T: Drop, F: Fits<K, T>> {
    table: Table<Option<T>, (K, Option<T>), K, Guard<F>, Global>,
}

impl<K, T: Drop, F: Fits<K, T>> Model for Desk<K, T, F> {
    ghost use Rattle.std.specs.Prelude.{◌≡◌};
    ghost use Rattle.k42_desk.specs.Kept.{DeskSeen};

    ghost Value = { DeskSeen K };

    ghost view = { λ d. record { key = d.table.shared.key; table = d.table.shared.table_id } };

    ghost invariant = { λ d. (d.table.shared.table_id.words ≡ 1) × (d.table.shared.table_id.slots ≡ 1) };
}

/// That the value is out. It ends where a value is put back.
pub struct Loan<K, T> {
    seat: Seat<Option<T>, (K, Option<T>)>,
}

impl<K, T> Model for Loan<K, T> {
    ghost use Rattle.k42_desk.specs.Kept.{HasOnly, LoanSeen};

    ghost Value = { LoanSeen T };

    ghost view = { λ l. record { table = l.seat.table_id; taken = l.seat.me.0.1 } };

    ghost invariant = { λ l. HasOnly l.seat.me };
}

impl<K, T: Drop, F: Fits<K, T>> Desk<K, T, F> {
    /// A desk with this value.
    pub fn new(alloc: Global, value: T, key: &K) -> Result<Desk<K, T, F>, Memory>
        requires { F.fits key.now value }
        ensures { IfOk result (λ desk. desk.key ≡ key.now) }
    {
        let mut slots = Vec::with_capacity(alloc, 1)?;
        slots.push_reserved(Some(value));
        match Table::new(alloc, &[0], slots, key) {
            Ok((table, _seat)) => Ok(Desk { table }),
            Err(Refused { slots: _ }) => Err(Memory),
        }
    }

    /// Takes the value, if nobody has it.
    pub fn take(&self) -> Option<(T, Loan<K, T>)>
        ensures fits { IfSome result (λ taken. F.fits self.now.key taken.0) }
        ensures loan { IfSome result (λ taken. taken.1 ≡ record { table = self.now.table; taken = Some taken.0 }) }
    {
        let shared = &self.table.shared;
        let (found, mut seat) = shared.swap_new_seat::<Guard<F>>(0, 1);
        if found != 0 {
            return None;
        }
        let value = shared.exchange(&mut seat, 0, None).unwrap();
        Some((value, Loan { seat }))
    }

    /// Puts a value back in place of what was taken, for the next to take.
    pub fn put_back(&self, value: T, loan: Loan<K, T>)
        requires fits { F.fits self.now.key value }
        requires loan { loan.table ≡ self.now.table }
        requires follows { IsSomeAnd loan.taken (λ taken. F.follows self.now.key taken value) }
    {
        let Loan { mut seat } = loan;
        let shared = &self.table.shared;
        drop(shared.exchange(&mut seat, 0, Some(value)));
        shared.store::<Release>(&mut seat, 0, 0);
    }
}
