ghost use Rattle.std.specs.Prelude.{◌≡◌, ℕ, OnOk, OnErr, Some};
ghost use Rattle.std.specs.FinMap as finite;

use crate::files::{Files, LoadErr};
use crate::shelf::{Shelf, append_file};
use fixed_num::Memory;
use std::alloc::Global;
use std::marker::Model;

/// Files in memory of which no load fails, since only names that are held may be asked for.
#[derive(Debug, Drop)]
pub struct NeverFiles {
    shelf: Shelf,
}

impl Model for NeverFiles {
    ghost use Rattle.io_edge.specs.FileTable.{FileTable, table_code};

    ghost Value = { FileTable };

    ghost coded = { table_code };

    ghost view = { λ f. f.shelf };
}

impl NeverFiles {
    /// No file.
    pub fn new(alloc: Global) -> NeverFiles
        ensures { result ≡ finite.empty }
    {
        NeverFiles {
            shelf: Shelf::new(alloc),
        }
    }

    /// Puts a file in its place, instead of the one that had its name.
    pub fn insert(&mut self, name: &str, bytes: &[u8]) -> Result<(), Memory>
        ensures ok { OnOk result (self.new ≡ finite.insert self.old name.now bytes.now) }
        ensures err { OnErr result (self.new ≡ self.old) }
    {
        self.shelf.insert(name, bytes)
    }
}

impl Files for NeverFiles {
    ghost told = { λ f. Some (finite.get f) };

    ghost may_ask = { finite.contains_key };

    ghost faults = { λ _. 0 };

    fn load(&mut self, name: &str, most: usize, into: &mut Vec<u8>) -> Result<(), LoadErr> {
        match self.shelf.get(name) {
            Some(file) => append_file(file, most, into),
            None => unreachable!(),
        }
    }
}
