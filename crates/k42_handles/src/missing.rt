//! Which passes of a system are not at its desk.
ghost use Rattle.std.specs.Prelude.{◌≡◌, ◌<◌, ◌≤◌, ◌+◌, ◌^◌, length};
ghost use Rattle.k42_crews.specs.Ready.{callers_of};
ghost use Rattle.k42_handles.specs.Missing.{is_there, missing_from, missing_in};

use co_system::{Pass, System};

/// Whether the pass of this number is among them.
fn is_there(passes: &[Pass], number: u32) -> bool
    ensures { result ≡ is_there (callers_of passes.now) number }
{
    let Some((pass, others)) = passes.split_first() else {
        return false;
    };
    pass.caller() == number || is_there(others, number)
}

/// A bit for each of so many passes from the first on that is not among these: of the first it is 1.
fn missing_from(passes: &[Pass], first: u32, count: u32) -> u32
    requires { first + count ≤ 16 }
    ensures bits { result ≡ missing_from (callers_of passes.now) first count }
    ensures few { result < 2 ^ count }
{
    if count == 0 {
        return 0;
    }
    let others = missing_from(passes, first + 1, count - 1);
    others * 2 + u32::from(!is_there(passes, first))
}

/// A bit for each pass of the system that is not among these: of pass 0 it is 1.
pub(crate) fn missing_of(system: &System, passes: &[Pass]) -> u32
    requires { length system.now.plan.callers ≤ 16 }
    ensures { result ≡ missing_in system.now passes.now }
{
    missing_from(passes, 0, system.callers())
}
