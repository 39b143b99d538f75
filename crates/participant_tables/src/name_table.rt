//! Names that are looked up by a hash.
ghost use Rattle.std.specs.Prelude.{◌≡◌, ◌<◌, ◌++◌, ◌∷◌, [], IsFalse, OnOk, IfSome, length};
ghost use Rattle.std.specs.List.{list_any};
ghost use Rattle.std.specs.Str.{bytes_eq};
ghost use Rattle.participant_tables.specs.Named.{place_of_name};

use fixed_num::{Memory, Name};
use indexmap::IndexSet;
use std::alloc::Global;
use std::marker::Model;

/// Names, none of them twice, which contracts see as their list.
#[derive(Drop)]
pub(crate) struct NameTable {
    names: IndexSet<String>,
}

impl Model for NameTable {
    ghost use Rattle.std.specs.Prelude.{List, ℕ, map, string_bytes};

    ghost Value = { List (List ℕ) };

    ghost view = { λ t. map string_bytes t.names.keys };
}

impl NameTable {
    /// No names. Takes no memory.
    pub(crate) fn new(alloc: Global) -> NameTable
        ensures { result ≡ [] }
    {
        NameTable {
            names: IndexSet::new(alloc),
        }
    }

    /// Adds a new name after the others.
    pub(crate) fn add(&mut self, alloc: Global, name: &Name) -> Result<(), Memory>
        requires { IsFalse (list_any (bytes_eq name.now) self.old) }
        ensures { OnOk result (self.new ≡ self.old ++ name.now ∷ []) }
    {
        self.names.insert(String::from_str(alloc, name.as_str())?)?;
        Ok(())
    }

    /// The place of a name among the others, from 0.
    pub(crate) fn place(&self, name: &str) -> Option<usize>
        ensures place { result ≡ place_of_name self.now name.now }
        ensures within { IfSome result (λ place. place < length self.now) }
    {
        self.names.get_index_of(name)
    }
}
