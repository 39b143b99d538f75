//! Names that are looked up by a hash.
ghost use Rattle.std.specs.Prelude.{◌≡◌, ◌<◌, ◌≤◌, ◌++◌, ◌∷◌, [], IsFalse, OnOk, IfSome, length, position};
ghost use Rattle.std.specs.List.{list_any};
ghost use Rattle.std.specs.Str.{bytes_eq};
ghost use Rattle.mesh_rules.specs.Named.{is_among};
ghost use Rattle.scheme_parts.specs.Names.{number_in};

use fixed_num::{Memory, Name};
use indexmap::IndexSet;
use std::alloc::Global;
use std::marker::Model;

/// Names, none of them twice, which contracts see as their list.
#[derive(Drop)]
pub struct NameTable {
    names: IndexSet<String>,
}

impl Model for NameTable {
    ghost use Rattle.std.specs.Prelude.{List, ℕ, map, string_bytes};

    ghost Value = { List (List ℕ) };

    ghost view = { λ t. map string_bytes t.names.keys };
}

impl NameTable {
    /// No names. Takes no memory.
    pub fn new(alloc: Global) -> NameTable
        ensures { result ≡ [] }
    {
        NameTable {
            names: IndexSet::new(alloc),
        }
    }

    /// Adds a new name after the others.
    pub fn add(&mut self, alloc: Global, name: &Name) -> Result<(), Memory>
        requires { IsFalse (is_among name.now self.old) }
        ensures { OnOk result (self.new ≡ self.old ++ name.now ∷ []) }
    {
        self.names.insert(String::from_str(alloc, name.as_str())?)?;
        Ok(())
    }

    /// The place of a name among the others, from 0.
    pub fn place(&self, name: &Name) -> Option<usize>
        ensures place { result ≡ position (λ other. bytes_eq other name.now) self.now }
        ensures within { IfSome result (λ place. place < length self.now) }
    {
        self.names.get_index_of(name.as_str())
    }

    /// The number of a name: its place from 0, and 0 where it is not there.
    pub fn number(&self, name: &Name) -> u32
        requires { length self.now ≤ 64 }
        ensures { result ≡ number_in self.now name.now }
    {
        match self.place(name) {
            Some(place) => place as u32,
            None => 0,
        }
    }
}
