//! Declared names and their numbers, so that a line finds its object.
ghost use Rattle.std.specs.Prelude.{◌≡◌, false, ◌∷◌, ◌<◌, ◌++◌, [], length, IfSome, OnOk, Some};
ghost use Rattle.script_text.specs.Offences.{is_among, place_among};

use indexmap::IndexSet;
use k42_kinds::Name;
use k42_memory::Memory;
use std::alloc::Global;
use std::marker::Model;

/// Names, each once, numbered in the order in which they were declared.
#[derive(Debug, Drop)]
pub struct Names {
    declared: IndexSet<Name>,
}

impl Model for Names {
    ghost use Rattle.std.specs.Prelude.{ℕ, List};
    ghost use Rattle.std.specs.Coded.{coded_ℕ, coded_list};

    ghost Value = { List (List ℕ) };

    ghost coded = { coded_list (coded_list coded_ℕ) };

    ghost view = { λ names. names.declared.keys };
}

impl Names {
    pub fn new(alloc: Global) -> Names
        ensures { result ≡ [] }
    {
        Names {
            declared: IndexSet::new(alloc),
        }
    }

    pub fn len(&self) -> usize
        ensures { result ≡ length self.now }
    {
        self.declared.len()
    }

    pub fn contains(&self, name: &Name) -> bool
        ensures { result ≡ is_among self.now (Some name.now) }
    {
        self.declared.contains(name)
    }

    /// The number of the name.
    pub fn place_of(&self, name: &Name) -> Option<usize>
        ensures place { result ≡ place_among self.now (Some name.now) }
        ensures within { IfSome result (λ place. place < length self.now) }
    {
        self.declared.get_index_of(name)
    }

    /// Declares a name that is not declared yet.
    pub fn declare(&mut self, name: &Name) -> Result<(), Memory>
        requires { is_among self.old (Some name.now) ≡ false }
        ensures { OnOk result (self.new ≡ self.old ++ name.now ∷ []) }
    {
        self.declared.insert(*name)?;
        Ok(())
    }
}
