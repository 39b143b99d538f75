//! The names of the tables that were looked at.
ghost use Rattle.std.specs.Prelude.{◌≡◌, ◌&&◌, ◌||◌, ◌++◌, ◌∷◌, [], ℕ, List, not, IfOk, OnOk, option_copied, codes, string_bytes};
ghost use Rattle.std.specs.Str.{bytes_eq};
ghost use Rattle.cpl_tables.specs.declared.kinds.TableKind.{TableKind};
ghost use Rattle.cpl_rules.specs.Seen.{Seen, seen_of, text_at};
ghost use Rattle.cpl_rules.specs.BrokenRules.{have_own_names, is_second};
ghost use Rattle.cpl_rules.specs.KnownNames.{knows, AreNamesOf};

use crate::spots::{TableSpot, value_at};
use cpl_tables::TableKind;
use fixed_num::Memory;
use std::alloc::Global;
use std::collections::BTreeSet;
use toml::Value;

/// The names of tables, kind by kind; of other kinds none is kept.
#[derive(Drop)]
pub struct Names {
    pub of_data: BTreeSet<String>,
    pub of_meshes: BTreeSet<String>,
    pub of_participants: BTreeSet<String>,
    pub of_watches: BTreeSet<String>,
    pub of_case_meshes: BTreeSet<String>,
}

impl Names {
    /// No names. Takes no memory.
    pub fn new(alloc: Global) -> Names
        ensures { AreNamesOf [] result }
    {
        Names {
            of_data: BTreeSet::new(alloc),
            of_meshes: BTreeSet::new(alloc),
            of_participants: BTreeSet::new(alloc),
            of_watches: BTreeSet::new(alloc),
            of_case_meshes: BTreeSet::new(alloc),
        }
    }

    /// Adds the name of a table of this kind, and answers whether it was new.
    fn add(&mut self, kind: TableKind, name: String) -> Result<bool, Memory>
        ensures new { IfOk result (λ new. new ≡ not (knows self.old kind (string_bytes name))) }
        ensures known { OnOk result ((other : TableKind) (text : List ℕ) →
            knows self.new other text ≡ (knows self.old other text || (have_own_names other kind && bytes_eq text (string_bytes name)))) }
    {
        match kind {
            TableKind::Data => Ok(self.of_data.insert(name)?),
            TableKind::Mesh => Ok(self.of_meshes.insert(name)?),
            TableKind::Participant(_) => Ok(self.of_participants.insert(name)?),
            TableKind::Watch => Ok(self.of_watches.insert(name)?),
            TableKind::CaseMesh => Ok(self.of_case_meshes.insert(name)?),
            _ => Ok(true),
        }
    }

    /// Adds the name of a table, and answers whether an earlier table of the kind has it.
    pub fn is_second(&mut self, alloc: Global, spot: TableSpot) -> Result<bool, Memory>
        ensures second { IfOk result (λ second. (before : List Seen) → AreNamesOf before self.old → second ≡ is_second before (seen_of spot.entry)) }
        ensures names { OnOk result ((before : List Seen) → AreNamesOf before self.old → AreNamesOf (before ++ seen_of spot.entry ∷ []) self.new) }
    {
        match name_of(spot) {
            Some(name) => Ok(!self.add(spot.kind, String::from_str(alloc, name)?)?),
            None => Ok(false),
        }
    }
}

/// The name of a table.
fn name_of(spot: TableSpot<'_>) -> Option<&str>
    ensures { option_copied result ≡ text_at (seen_of spot.entry) (codes "name") }
{
    match value_at(spot.table, "name") {
        Some(Value::String(name)) => Some(name.as_str()),
        _ => None,
    }
}
