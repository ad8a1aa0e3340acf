//! The directory of one thread, as a map.
ghost use Rattle.std.specs.Prelude.{◌≡◌, IfOk, OnOk, OnErr};
ghost use Rattle.std.specs.FinMap as map;
ghost use Rattle.k42_kinds.specs.Objects.{BindsNew, directory_after, directory_reply, found_number};

use crate::name::Name;
use crate::operation::{Op, Reply};
use k42_memory::Memory;
use std::alloc::Global;
use std::collections::{BTreeMap, btree_map};
use std::marker::Model;

/// What a directory binds, seen as a finite map from names to numbers.
#[derive(Debug, Drop)]
pub struct DirectoryState {
    bound: BTreeMap<Name, u64>,
}

impl Model for DirectoryState {
    ghost use Rattle.std.specs.FinMap as map;
    ghost use Rattle.std.specs.Ordering.{nat_cmp};
    ghost use Rattle.std.specs.Cmp.Lexicographic.{slice_cmp};
    ghost use Rattle.std.specs.Prelude.{ℕ};
    ghost use Rattle.std.specs.Coded.{coded_ℕ, coded_list};

    ghost Value = { map.FinMap (slice_cmp nat_cmp) ℕ };

    ghost coded = { map.code (coded_list coded_ℕ) coded_ℕ };

    ghost view = { λ directory. map.from_entries directory.bound.entries };
}

impl DirectoryState {
    /// No name is bound.
    pub fn new(alloc: Global) -> Self
        ensures { result ≡ map.empty }
    {
        DirectoryState {
            bound: BTreeMap::new(alloc),
        }
    }

    /// The names and their numbers, in the order of the names.
    pub fn iter(&self) -> btree_map::Iter<'_, Name, u64>
        ensures { result ≡ map.entries self.now }
    {
        self.bound.iter()
    }

    /// How many names are bound.
    pub fn size(&self) -> usize
        ensures { result ≡ map.len self.now }
    {
        self.bound.len()
    }

    /// The number to which the name is bound.
    pub fn get(&self, name: &Name) -> Option<u64>
        ensures { result ≡ map.get self.now name.now }
    {
        self.bound.get(name).copied()
    }

    /// Binds the name to the number, in place of what it was bound to. Only a name that was unbound
    /// needs memory.
    pub fn insert(&mut self, name: &Name, number: u64) -> Result<(), Memory>
        ensures ok { OnOk result (self.new ≡ map.insert self.old name.now number) }
        ensures memory { OnErr result (self.new ≡ self.old) }
        ensures needed { OnErr result (map.get self.old name.now ≡ None) }
    {
        self.bound.insert(*name, number)?;
        Ok(())
    }

    /// Unbinds the name, and gives the number to which it was bound.
    pub fn remove(&mut self, name: &Name) -> Option<u64>
        ensures found { result ≡ map.get self.old name.now }
        ensures gone { self.new ≡ map.remove self.old name.now }
    {
        self.bound.remove(name)
    }
}

fn reply_with(found: Option<u64>) -> Reply
    ensures { result ≡ found_number found }
{
    match found {
        Some(number) => Reply::Number(number),
        None => Reply::None,
    }
}

/// One operation of a directory. Another kind's operation leaves it, and so does want of memory.
pub fn step_directory(names: &mut DirectoryState, op: &Op) -> Result<Reply, Memory>
    ensures replied { IfOk result (λ reply. reply ≡ directory_reply names.old op.now) }
    ensures moved { OnOk result (names.new ≡ directory_after names.old op.now) }
    ensures memory { OnErr result (names.new ≡ names.old) }
    ensures needed { OnErr result (BindsNew names.old op.now) }
{
    match op {
        Op::Bind(name, number) => {
            if names.get(name).is_some() {
                return Ok(Reply::Taken);
            }
            names.insert(name, *number)?;
            Ok(Reply::Done)
        }
        Op::Find(name) => Ok(reply_with(names.get(name))),
        Op::Unbind(name) => Ok(reply_with(names.remove(name))),
        Op::Size => Ok(Reply::Number(names.size() as u64)),
        _ => Ok(Reply::Gone),
    }
}
