//! A row of parts of any kind, used as a row of one layout's own parts.
ghost use Rattle.std.specs.Prelude.{◌≡◌, ◌+◌, ◌++◌, ◌≤◌, IsTrue, map, length, vec_len, vec_capacity, IfOk, OnOk, OnErr};
ghost use Rattle.k42_shapes.specs.Shapes.{IsKnownTag};
ghost use Rattle.k42_kinds.specs.LayoutLaws.{IsWholeRow};

use crate::own::Own;
use crate::part::AnyPart;
use k42_kinds::Layout;
use k42_memory::Memory;
use std::alloc::Global;
use std::mem::replace;

/// The parts, each as one of any layout.
pub(crate) fn in_parts<P: Own>(alloc: Global, own: Vec<P>) -> Result<Vec<AnyPart>, Memory>
    ensures { IfOk result (λ parts. parts.items ≡ map P.part_of own.items) }
{
    let mut parts = Vec::new(alloc);
    for part in own {
        parts.push(part.stand())?;
    }
    Ok(parts)
}

/// Takes the parts out, and puts them behind those that were taken.
fn take_out<P: Own>(alloc: Global, parts: &mut [AnyPart], own: &mut Vec<P>)
    requires { vec_len own.old + length parts.old ≤ vec_capacity own.old }
    ensures taken { own.new.items ≡ own.old.items ++ map P.own_part parts.old }
    ensures left { length parts.new ≡ length parts.old }
{
    if let Some((part, others)) = parts.split_first_mut() {
        own.push_reserved(P::own(alloc, replace(part, AnyPart::Dead)));
        take_out(alloc, others, own);
    }
}

/// Puts the parts back, from the last to the first.
fn put_back<P: Own>(parts: &mut [AnyPart], own: &mut Vec<P>)
    requires { length parts.old ≡ length own.old.items }
    ensures { parts.new ≡ map P.part_of own.old.items }
{
    if let Some((part, others)) = parts.split_last_mut() {
        if let Some(taken) = own.pop() {
            *part = taken.stand();
            put_back(others, own);
        }
    }
}

/// An operation at all cells of one layout's row. The parts are moved, and not copied.
pub(crate) fn step_own<L: Layout>(
    layout: &L,
    alloc: Global,
    parts: &mut Vec<AnyPart>,
    op: &L::Op,
) -> Result<L::Reply, Memory>
where
    L::Part: Own,
    requires known { IsKnownTag (L.shapes layout.now) (L.tag_of layout.now) }
    requires takes { IsTrue ((L.object layout.now).takes op.now) }
    requires own { parts.old.items ≡ map L.Part.part_of (map L.Part.own_part parts.old.items) }
    requires whole { IsWholeRow (L.whole layout.now) (map L.Part.own_part parts.old.items) }
    ensures replied { IfOk result (λ reply.
        reply ≡ (L.ways layout.now).row_reply (map L.Part.own_part parts.old.items) op.now) }
    ensures moved { OnOk result (
        parts.new.items ≡ map L.Part.part_of ((L.ways layout.now).row_after (map L.Part.own_part parts.old.items) op.now)) }
    ensures memory { OnErr result (parts.new.items ≡ parts.old.items) }
{
    let mut own = Vec::with_capacity(alloc, parts.len())?;
    take_out(alloc, parts, &mut own);
    let replied = layout.step_all(alloc, &mut own, op);
    put_back(parts, &mut own);
    replied
}
