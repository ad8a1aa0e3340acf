//! Seats are taken out of handles and put in.
ghost use Rattle.std.specs.Prelude.{◌≡◌, MatchOption};
ghost use Rattle.k42_handles.specs.Handles.{seat_of};
ghost use Rattle.k42_handles.specs.declared.seat.Seat.TheVariants as seats;

use crate::handle::Inner;
use crate::handle::parts::Parts;
use crate::held::K42Pass;
use crate::seat::Seat;
use std::alloc::Global;
use std::mem::replace;
use std::ptr::null_mut;

/// Takes the seat out, and leaves the handle empty.
#[inline(always)]
pub fn take(alloc: Global, handle: &mut K42Pass) -> Option<Box<Seat, Global>>
    ensures taken { MatchOption result (seat_of handle.old ≡ seats.Gone) (λ held. held.value ≡ seat_of handle.old) }
    ensures empty { seat_of handle.new ≡ seats.Gone }
{
    if handle.full != 1 {
        return None;
    }
    let nowhere: *mut u8 = null_mut();
    let empty = K42Pass {
        full: 0,
        inner: Inner::empty(nowhere, alloc),
    };
    let K42Pass { inner, .. } = replace(handle, empty);
    Some(inner.into_parts().into_box())
}

/// Puts the seat into a handle that is empty.
#[inline(always)]
pub fn put(handle: &mut K42Pass, seat: Box<Seat, Global>)
    requires { seat_of handle.old ≡ seats.Gone }
    ensures { seat_of handle.new ≡ seat.value }
{
    let inner = Inner::of_parts(Parts::of(seat));
    let _old = replace(handle, K42Pass { full: 1, inner });
}

/// The same, unless it is gone.
pub fn settle(handle: &mut K42Pass, seat: Box<Seat, Global>)
    requires { seat_of handle.old ≡ seats.Gone }
    ensures { seat_of handle.new ≡ seat.value }
{
    match seat.as_ref() {
        Seat::Gone => drop(seat),
        _ => put(handle, seat),
    }
}
