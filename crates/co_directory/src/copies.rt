//! The copies of a spread directory change together, or none does.
ghost use Rattle.std.specs.Prelude.{◌≡◌, ℕ, map, replicate, IfOk, OnOk, OnErr};
ghost use Rattle.std.specs.List.{AllByRecursion};
ghost use Rattle.std.specs.FinMap as finite;
ghost use Rattle.k42_kinds.specs.Objects.{Directory};

use k42_kinds::{DirectoryState, Name};
use k42_memory::Memory;
use std::alloc::Global;

/// The same names and numbers, in a map of their own.
pub fn copied(alloc: Global, names: &DirectoryState) -> Result<DirectoryState, Memory>
    ensures { IfOk result (λ copy. copy ≡ names.now) }
{
    let mut copy = DirectoryState::new(alloc);
    for (name, number) in names.iter() {
        copy.insert(name, *number)?;
    }
    Ok(copy)
}

/// So many copies of the directory.
#[tactic(auto, using(crate::proofs::CopyLemmas::replicate_push))]
pub(crate) fn copies(
    alloc: Global,
    names: &DirectoryState,
    many: u32,
) -> Result<Vec<DirectoryState>, Memory>
    ensures { IfOk result (λ copies. copies.items ≡ replicate many names.now) }
{
    let mut copies = Vec::new(alloc);
    for _ in 0..many {
        copies.push(copied(alloc, names)?)?;
    }
    Ok(copies)
}

/// Binds a name that no copy binds, in all copies or in none.
pub(crate) fn bind_in_all(
    copies: &mut [DirectoryState],
    name: &Name,
    number: u64,
) -> Result<(), Memory>
    requires unbound { AllByRecursion (λ (names : Directory). finite.get names name.now ≡ None) copies.old }
    ensures ok { OnOk result (copies.new ≡ map (λ (names : Directory). finite.insert names name.now number) copies.old) }
    ensures memory { OnErr result (copies.new ≡ copies.old) }
{
    let Some((first, rest)) = copies.split_first_mut() else {
        return Ok(());
    };
    first.insert(name, number)?;
    match bind_in_all(rest, name, number) {
        Ok(()) => Ok(()),
        Err(wanted) => {
            first.remove(name);
            Err(wanted)
        }
    }
}

/// Unbinds the name in all copies.
pub(crate) fn unbind_in_all(copies: &mut [DirectoryState], name: &Name)
    ensures { copies.new ≡ map (λ (names : Directory). finite.remove names name.now) copies.old }
{
    if let Some((first, rest)) = copies.split_first_mut() {
        first.remove(name);
        unbind_in_all(rest, name);
    }
}
