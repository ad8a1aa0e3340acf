//! A seat's box as a pointer.
ghost use Rattle.std.specs.Prelude.{◌≡◌, ℕ};
ghost use Rattle.k42_handles.specs.declared.seat.Seat.{Seat};
ghost use Rattle.k42_handles.specs.Holding.{seat_coded};

pub(crate) mod parts;

use crate::seat::Seat;
use parts::Parts;
use std::alloc::Global;
use std::marker::Model;

/// A pointer to a seat, or one that means nothing. Its type names no other, so that it may lie in a struct of C.
#[repr(C)]
#[derive(Drop)]
pub struct Inner {
    at: *mut u8,
    alloc: Global,
    pub(crate) ghost full: { ℕ },
    pub(crate) ghost seat: { Seat } by { seat_coded },
}

impl Model for Inner {
    ghost use Rattle.k42_handles.specs.Holding.{seat_owned};
    ghost use Rattle.k42_handles.specs.contracts.seat.Seat as seat_row;
    ghost use Rattle.std_heap.specs.contracts.GlobalAllocator.TheImpl.{ghosts};

    ghost also_owns = { λ h. seat_owned (ghosts.dealloc_token h.alloc) seat_row.the_row h.full h.at h.seat };
}

impl Inner {
    pub(crate) fn of_parts(parts: Parts<Seat, Global>) -> Inner
        ensures { (result.full ≡ 1) × (result.seat ≡ parts.value) }
    {
        let Parts { ptr, alloc } = parts;
        Inner {
            at: ptr as *mut u8,
            alloc,
        }
    }

    pub(crate) fn into_parts(self) -> Parts<Seat, Global>
        requires { self.full ≡ 1 }
        ensures { result.value ≡ self.seat }
    {
        let Inner { at, alloc } = self;
        Parts {
            ptr: at as *mut Seat,
            alloc,
        }
    }

    /// One that means nothing.
    pub(crate) fn empty(at: *mut u8, alloc: Global) -> Inner
        ensures { result.full ≡ 0 }
    {
        Inner { at, alloc }
    }
}

unsafe impl Send for Inner {}
