//! A handle of C: empty, or with a seat in it.
ghost use Rattle.std.specs.Prelude.{◌≡◌};

use crate::handle::Inner;

/// C sets all of it to 0, and then only passes it by its address.
#[repr(C)]
#[derive(Drop)]
pub struct K42Pass {
    pub(crate) full: u64,
    pub(crate) inner: Inner,
    ghost same: { inner.full ≡ full },
}

unsafe impl Send for K42Pass {}
