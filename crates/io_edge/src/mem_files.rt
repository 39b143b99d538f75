ghost use Rattle.std.specs.Prelude.{◌≡◌, ℕ, ◌≤◌, ◌↔◌, [], ◌∷◌, ◌++◌, IsTrue, OnOk, OnErr, IsErrOf, Some, true};
ghost use Rattle.std.specs.FinMap as finite;
ghost use Rattle.io_edge.specs.Loads.{Loads};
ghost use Rattle.io_edge.specs.MemoryFiles.{load_fails, after_load};
ghost use Rattle.io_edge.specs.Rose.{Rose};

use crate::files::{Files, LoadErr};
use crate::shelf::{Shelf, append_file};
use fixed_num::Memory;
use std::alloc::Global;
use std::marker::Model;

/// Files in memory, for tests: every name may be asked, and chosen loads fail.
#[derive(Debug, Drop)]
pub struct MemFiles {
    shelf: Shelf,
    failing: Vec<u64>,
    loads: u64,
    faults: u64,
}

impl Model for MemFiles {
    ghost use Rattle.io_edge.specs.MemoryFiles.{MemoryFiles, memory_files_code};

    ghost Value = { MemoryFiles };

    ghost coded = { memory_files_code };

    ghost view = { λ m. record {
      files = m.shelf;
      failing = m.failing.items;
      loads = m.loads;
      faults = m.faults;
    } };
}

impl MemFiles {
    /// No file, no load that is to fail, and both counts at 0.
    pub fn new(alloc: Global) -> MemFiles
        ensures { result ≡ record { files = finite.empty; failing = []; loads = 0; faults = 0 } }
    {
        MemFiles {
            shelf: Shelf::new(alloc),
            failing: Vec::new(alloc),
            loads: 0,
            faults: 0,
        }
    }

    /// Puts a file in its place, instead of the one that had its name.
    pub fn insert(&mut self, name: &str, bytes: &[u8]) -> Result<(), Memory>
        ensures ok { OnOk result (self.new
            ≡ record self.old { files = finite.insert self.old.files name.now bytes.now }) }
        ensures err { OnErr result (self.new ≡ self.old) }
    {
        self.shelf.insert(name, bytes)
    }

    /// Lets the load with this number fail; a load's number is the count of loads before it, from 0.
    pub fn fail_at(&mut self, call: u64) -> Result<(), Memory>
        ensures ok { OnOk result (self.new
            ≡ record self.old { failing = self.old.failing ++ call ∷ [] }) }
        ensures err { OnErr result (self.new ≡ self.old) }
    {
        self.failing.push(call)?;
        Ok(())
    }
}

impl Files for MemFiles {
    ghost told = { λ m. Some (finite.get m.files) };

    ghost may_ask = { λ _ _. true };

    ghost faults = { λ m. m.faults };

    /// Failed exactly where the load's number is listed or no file has the name.
    fn load(&mut self, name: &str, most: usize, into: &mut Vec<u8>) -> Result<(), LoadErr>
        ensures ok { let map = Some (finite.get self.old.files) in
            OnOk result (Loads map name.now most into.old.items into.new.items) }
        ensures failed { IsErrOf result LoadErr.Failed → Rose self.old.faults self.new.faults }
        ensures err { OnErr result (into.new.items ≡ into.old.items) }
        ensures same_told { finite.get self.new.files ≡ finite.get self.old.files }
        ensures never_falls { self.old.faults ≤ self.new.faults }

        // When it fails, and what it counts:
        ensures exactly { IsErrOf result LoadErr.Failed ↔ IsTrue (load_fails self.old name.now) }
        ensures after { self.new ≡ after_load self.old name.now }
    {
        let number = self.loads;
        self.loads = self.loads.saturating_add(1);
        let is_listed = self.failing.contains(&number);
        match self.shelf.get(name) {
            Some(file) if !is_listed => append_file(file, most, into),
            _ => {
                self.faults = self.faults.saturating_add(1);
                Err(LoadErr::Failed)
            }
        }
    }
}
