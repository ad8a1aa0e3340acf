//! The map of a shared directory, in which a name is found by its hash.
ghost use Rattle.std.specs.Prelude.{◌≡◌, IfOk, OnOk, OnErr};
ghost use Rattle.std.specs.FinMap as map;
ghost use Rattle.k42_kinds.specs.Objects.{directory_after, directory_reply, found_number};

use indexmap::IndexMap;
use k42_kinds::{DirectoryState, Name, Op, Reply};
use k42_memory::Memory;
use std::alloc::Global;
use std::marker::Model;

/// What a directory binds, in the order of binding until a name is unbound, seen as a finite map.
#[derive(Drop)]
pub struct IndexedNames {
    alloc: Global,
    /// Behind a box, so that a part is small wherever it moves. There is none before the first bind.
    bound: Option<Box<IndexMap<Name, u64>>>,
}

impl Model for IndexedNames {
    ghost use Rattle.std.specs.FinMap as map;
    ghost use Rattle.std.specs.Option.{unwrap_or, option_map};
    ghost use Rattle.std.specs.Ordering.{nat_cmp};
    ghost use Rattle.std.specs.Cmp.Lexicographic.{slice_cmp};
    ghost use Rattle.std.specs.Prelude.{ℕ, []};
    ghost use Rattle.std.specs.Coded.{coded_ℕ, coded_list};

    ghost Value = { map.FinMap (slice_cmp nat_cmp) ℕ };

    ghost coded = { map.code (coded_list coded_ℕ) coded_ℕ };

    ghost view = { λ names.
        map.from_entries (unwrap_or (option_map (λ bound. bound.value.entries) names.bound) []) };
}

impl IndexedNames {
    /// No name is bound. It asks for no memory yet.
    pub fn new(alloc: Global) -> Self
        ensures { result ≡ map.empty }
    {
        IndexedNames { alloc, bound: None }
    }

    /// The names and numbers of a directory.
    pub fn of(alloc: Global, state: &DirectoryState) -> Result<Self, Memory>
        ensures { IfOk result (λ names. names ≡ state.now) }
    {
        let mut names = IndexedNames::new(alloc);
        for (name, number) in state.iter() {
            names.insert(name, *number)?;
        }
        Ok(names)
    }

    /// The same names and numbers as a directory of one thread keeps them.
    pub fn state(&self, alloc: Global) -> Result<DirectoryState, Memory>
        ensures { IfOk result (λ state. state ≡ self.now) }
    {
        let mut state = DirectoryState::new(alloc);
        let Some(bound) = &self.bound else {
            return Ok(state);
        };
        for (name, number) in bound.iter() {
            state.insert(name, *number)?;
        }
        Ok(state)
    }

    /// How many names are bound.
    pub fn size(&self) -> usize
        ensures { result ≡ map.len self.now }
    {
        let Some(bound) = &self.bound else {
            return 0;
        };
        bound.len()
    }

    /// The number to which the name is bound.
    pub fn get(&self, name: &Name) -> Option<u64>
        ensures { result ≡ map.get self.now name.now }
    {
        let Some(bound) = &self.bound else {
            return None;
        };
        bound.get(name).copied()
    }

    /// Binds the name to the number, in place of what it was bound to.
    pub fn insert(&mut self, name: &Name, number: u64) -> Result<(), Memory>
        ensures ok { OnOk result (self.new ≡ map.insert self.old name.now number) }
        ensures memory { OnErr result (self.new ≡ self.old) }
    {
        if let Some(bound) = &mut self.bound {
            bound.insert(*name, number)?;
            return Ok(());
        }
        let mut bound = IndexMap::new(self.alloc);
        bound.insert(*name, number)?;
        self.bound = Some(Box::new(self.alloc, bound)?);
        Ok(())
    }

    /// Unbinds the name, and gives the number to which it was bound. The name that was bound last
    /// takes its place, so that no other one moves.
    pub fn remove(&mut self, name: &Name) -> Option<u64>
        ensures found { result ≡ map.get self.old name.now }
        ensures gone { self.new ≡ map.remove self.old name.now }
    {
        let Some(bound) = &mut self.bound else {
            return None;
        };
        bound.swap_remove(name)
    }
}

/// The reply to a name that was looked for.
pub(crate) fn reply_with(found: Option<u64>) -> Reply
    ensures { result ≡ found_number found }
{
    match found {
        Some(number) => Reply::Number(number),
        None => Reply::None,
    }
}

/// One operation of a directory. Another kind's operation leaves it, and so does want of memory.
pub(crate) fn step_indexed(names: &mut IndexedNames, op: &Op) -> Result<Reply, Memory>
    ensures replied { IfOk result (λ reply. reply ≡ directory_reply names.old op.now) }
    ensures moved { OnOk result (names.new ≡ directory_after names.old op.now) }
    ensures memory { OnErr result (names.new ≡ names.old) }
{
    match op {
        Op::Bind(name, number) => {
            if names.get(name).is_some() {
                return Ok(Reply::Taken);
            }
            names.insert(name, *number)?;
            Ok(Reply::Done)
        }
        Op::Find(name) => Ok(reply_with(names.get(name))),
        Op::Unbind(name) => Ok(reply_with(names.remove(name))),
        Op::Size => Ok(Reply::Number(names.size() as u64)),
        _ => Ok(Reply::Gone),
    }
}
