ghost use Rattle.std.specs.Prelude.{◌≡◌, ℕ, ◌+◌, ◌++◌, take, OnOk, OnErr, IfOk, IsErrOf, ◌≢◌};
ghost use Rattle.std.specs.Option.{option_map};
ghost use Rattle.std.specs.FinMap as finite;
ghost use Rattle.io_edge.specs.Loads.{AppendsFile};

use crate::files::LoadErr;
use fixed_num::Memory;
use std::alloc::Global;
use std::collections::BTreeMap;
use std::marker::Model;

/// Files in memory, which contracts see as the finite map from names to bytes.
#[derive(Debug, Drop)]
pub struct Shelf {
    files: BTreeMap<String, Vec<u8>>,
    alloc: Global,
}

impl Model for Shelf {
    ghost use Rattle.io_edge.specs.FileTable.{FileTable, table_code};
    ghost use Rattle.io_edge.specs.Shelved.{shelved};

    ghost Value = { FileTable };

    ghost coded = { table_code };

    ghost view = { λ s. shelved s.files };
}

impl Shelf {
    /// No files.
    pub fn new(alloc: Global) -> Shelf
        ensures { result ≡ finite.empty }
    {
        Shelf {
            files: BTreeMap::new(alloc),
            alloc,
        }
    }

    /// Puts a file in its place, instead of the one that had its name.
    pub fn insert(&mut self, name: &str, bytes: &[u8]) -> Result<(), Memory>
        ensures ok { OnOk result (self.new ≡ finite.insert self.old name.now bytes.now) }
        ensures err { OnErr result (self.new ≡ self.old) }
    {
        let key = String::from_str(self.alloc, name)?;
        let file = Vec::from_slice(self.alloc, bytes)?;
        self.files.insert(key, file)?;
        Ok(())
    }

    /// The bytes of the file with this name, or None where there is none.
    pub fn get(&self, name: &str) -> Option<&[u8]>
        ensures { option_map (λ file. file.now) result ≡ finite.get self.now name.now }
    {
        let file = self.files.get(name)?;
        Some(file.as_slice())
    }
}

/// Appends the bytes of a file, up to one more than asked for.
pub fn append_file(file: &[u8], most: usize, into: &mut Vec<u8>) -> Result<(), LoadErr>
    ensures ok { OnOk result (AppendsFile file.now most into.old.items into.new.items) }
    ensures err { OnErr result (into.new.items ≡ into.old.items) }
    ensures never_failed { result ≢ Err LoadErr.Failed }
{
    let end = file.len().min(most.saturating_add(1));
    into.extend_from_slice(&file[..end])?;
    Ok(())
}
