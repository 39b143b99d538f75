//! What the tables of a participant mean.
ghost use Rattle.cpl_config.specs.ConfigOf.{receives_of, data_entry_of, map_of, watch_of, action_of, participant_of};

use crate::config::{ActionEntry, DataEntry, MapEntry, PartTable, ReceivesEntry, WatchEntry};
use crate::fields::{name_at, names_at, text_at, units_list_at};
use crate::tables_of::{FromTable, tables_at};
use crate::words_of::{action_kind_of, constraint_of, direction_of, map_method_of};
use fixed_num::Memory;
use std::alloc::Global;
use toml::Table;

impl FromTable for PartTable {
    ghost of_table = { participant_of };

    fn from_table(alloc: Global, table: &Table) -> Result<PartTable, Memory> {
        Ok(PartTable {
            name: name_at(alloc, table, "name")?,
            case: name_at(alloc, table, "case")?,
            provides: names_at(alloc, table, "provides")?,
            receives: tables_at(alloc, table, "receives")?,
            write: tables_at(alloc, table, "write")?,
            read: tables_at(alloc, table, "read")?,
            map: tables_at(alloc, table, "map")?,
            watch: tables_at(alloc, table, "watch")?,
            action: tables_at(alloc, table, "action")?,
        })
    }
}

impl FromTable for ReceivesEntry {
    ghost of_table = { receives_of };

    fn from_table(alloc: Global, table: &Table) -> Result<ReceivesEntry, Memory> {
        Ok(ReceivesEntry {
            mesh: name_at(alloc, table, "mesh")?,
            from: name_at(alloc, table, "from")?,
        })
    }
}

impl FromTable for DataEntry {
    ghost of_table = { data_entry_of };

    fn from_table(alloc: Global, table: &Table) -> Result<DataEntry, Memory> {
        Ok(DataEntry {
            data_name: name_at(alloc, table, "data")?,
            mesh: name_at(alloc, table, "mesh")?,
        })
    }
}

impl FromTable for MapEntry {
    ghost of_table = { map_of };

    fn from_table(alloc: Global, table: &Table) -> Result<MapEntry, Memory> {
        Ok(MapEntry {
            direction: direction_of(text_at(table, "direction")),
            from: name_at(alloc, table, "from")?,
            to: name_at(alloc, table, "to")?,
            constraint: constraint_of(text_at(table, "constraint")),
            method: map_method_of(text_at(table, "method")),
        })
    }
}

impl FromTable for WatchEntry {
    ghost of_table = { watch_of };

    fn from_table(alloc: Global, table: &Table) -> Result<WatchEntry, Memory> {
        Ok(WatchEntry {
            name: name_at(alloc, table, "name")?,
            mesh: name_at(alloc, table, "mesh")?,
            at: units_list_at(alloc, table, "at")?,
        })
    }
}

impl FromTable for ActionEntry {
    ghost of_table = { action_of };

    fn from_table(alloc: Global, table: &Table) -> Result<ActionEntry, Memory> {
        Ok(ActionEntry {
            kind: action_kind_of(text_at(table, "kind")),
            mesh: name_at(alloc, table, "mesh")?,
            sources: names_at(alloc, table, "sources")?,
            target: name_at(alloc, table, "target")?,
        })
    }
}
