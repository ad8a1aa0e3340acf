//! The parts of one layout where they stand among others: taken out, and put back.
ghost use Rattle.std.specs.Prelude.{◌≡◌, ◌+◌, ◌++◌, ◌≤◌, Some, [], map, vec_len, vec_capacity, IfOk, OnOk, OnErr};
ghost use Rattle.k42_choice.specs.Lifting.{Side, own_parts};

use k42_memory::Memory;
use std::alloc::Global;
use std::mem::replace;

/// How parts stand among others.
pub trait Within {
    type Own: Drop;

    type Among: Drop;

    ghost side: { Side Self.Own Self.Among };

    fn stand(own: Self::Own) -> Self::Among
        ensures { result ≡ side.part_of own };

    /// The part, if it is one's own.
    fn own(part: Self::Among) -> Option<Self::Own>
        ensures { result ≡ side.own_part part };

    /// What stands among others is still one's own.
    ghost back: { (part : Self.Own) → side.own_part (side.part_of part) ≡ Some part };
}

/// Takes the parts out, and puts them behind those that were taken.
fn take_out<W: Within>(parts: Vec<W::Among>, own: &mut Vec<W::Own>)
    requires { vec_len own.old + vec_len parts ≤ vec_capacity own.old }
    ensures { own.new.items ≡ own.old.items ++ own_parts W.side parts.items }
{
    for part in parts {
        if let Some(taken) = W::own(part) {
            own.push_reserved(taken);
        }
    }
}

/// All parts, taken out; what is left has room for them. Want of memory leaves them.
pub fn taken<W: Within>(alloc: Global, parts: &mut Vec<W::Among>) -> Result<Vec<W::Own>, Memory>
    ensures taken { IfOk result (λ own. own.items ≡ own_parts W.side parts.old.items) }
    ensures empty { OnOk result (parts.new.items ≡ []) }
    ensures room { OnOk result (vec_len parts.old ≤ vec_capacity parts.new) }
    ensures memory { OnErr result (parts.new.items ≡ parts.old.items) }
{
    let mut own = Vec::with_capacity(alloc, parts.len())?;
    let room = Vec::with_capacity(alloc, parts.len())?;
    take_out::<W>(replace(parts, room), &mut own);
    Ok(own)
}

/// Puts them behind those that are there.
pub fn put_back<W: Within>(own: Vec<W::Own>, parts: &mut Vec<W::Among>)
    requires { vec_len parts.old + vec_len own ≤ vec_capacity parts.old }
    ensures { parts.new.items ≡ parts.old.items ++ map W.side.part_of own.items }
{
    for part in own {
        parts.push_reserved(W::stand(part));
    }
}

/// The parts, each where it stands.
pub fn among<W: Within>(alloc: Global, own: Vec<W::Own>) -> Result<Vec<W::Among>, Memory>
    ensures { IfOk result (λ parts. parts.items ≡ map W.side.part_of own.items) }
{
    let mut parts = Vec::with_capacity(alloc, own.len())?;
    put_back::<W>(own, &mut parts);
    Ok(parts)
}
