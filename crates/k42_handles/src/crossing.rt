//! A handle may change its thread.
ghost use Rattle.std.specs.Prelude.{◌≡◌};

use crate::held::K42Pass;

/// Gives back what it is given, whose thread may change.
fn crossed<T: Send>(value: T) -> T
    ensures { result ≡ value }
{
    value
}

/// A handle is such a value.
pub fn a_handle_may_change_its_thread(pass: K42Pass) -> K42Pass
    ensures { result ≡ pass }
{
    crossed(pass)
}
