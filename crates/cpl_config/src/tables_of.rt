//! What tables of a configuration mean: its own, data and meshes.
ghost use Rattle.std.specs.Prelude.{◌≡◌, map, IfOk};
ghost use Rattle.toml.specs.Data.{Members};
ghost use Rattle.toml.specs.View.{view, table_view};
ghost use Rattle.cpl_config.specs.TreeValues.{members_of, tables_at};
ghost use Rattle.cpl_config.specs.ConfigOf.{data_of, mesh_of, config_of};

use crate::config::{Config, DataTable, MeshTable};
use crate::fields::{integer_at, integer_if, integer_or, list_at, name_at, names_at, text_at};
use crate::words_of::{data_kind_of, window_method_of};
use fixed_num::{Items, Memory};
use std::alloc::Global;
use toml::{Table, Value};

/// What a table of TOML means one of.
pub trait FromTable: Drop {
    ghost of_table: { Members → Self };

    /// What the table means.
    fn from_table(alloc: Global, table: &Table) -> Result<Self, Memory>
        ensures { IfOk result (λ made. made ≡ of_table (table_view table.now)) };
}

/// What the table that a value is means; of any other value, what a table without keys means.
pub fn from_value<T: FromTable>(alloc: Global, value: &Value) -> Result<T, Memory>
    ensures { IfOk result (λ made. made ≡ T.of_table (members_of (view value.now))) }
{
    match value {
        Value::Table(table) => T::from_table(alloc, table),
        _ => T::from_table(alloc, &Table::new(alloc)),
    }
}

/// What the tables of a key's list mean.
pub fn tables_at<T: FromTable>(alloc: Global, table: &Table, key: &str) -> Result<Items<T>, Memory>
    ensures { IfOk result (λ made. made ≡ map T.of_table (tables_at key.now (table_view table.now))) }
{
    tables_in(alloc, list_at(table, key))
}

/// What the tables that a list's items are mean.
fn tables_in<T: FromTable>(alloc: Global, values: &[Value]) -> Result<Items<T>, Memory>
    ensures { IfOk result (λ made. made ≡ map T.of_table (map members_of (map view values.now))) }
{
    let mut made = Vec::with_capacity(alloc, values.len())?;
    for value in values {
        made.push(from_value(alloc, value)?)?;
    }
    Ok(Items::from_vec(made))
}

impl FromTable for Config {
    ghost of_table = { config_of };

    fn from_table(alloc: Global, table: &Table) -> Result<Config, Memory> {
        Ok(Config {
            format: integer_at(table, "format"),
            window_method: window_method_of(text_at(table, "window-method")),
            window: integer_at(table, "window"),
            max_time: integer_if(table, "max-time"),
            max_windows: integer_if(table, "max-windows"),
            data_list: tables_at(alloc, table, "data")?,
            mesh: tables_at(alloc, table, "mesh")?,
            participant: tables_at(alloc, table, "participant")?,
            scheme: tables_at(alloc, table, "scheme")?,
        })
    }
}

impl FromTable for DataTable {
    ghost of_table = { data_of };

    fn from_table(alloc: Global, table: &Table) -> Result<DataTable, Memory> {
        Ok(DataTable {
            name: name_at(alloc, table, "name")?,
            kind: data_kind_of(text_at(table, "kind")),
            degree: integer_or(1, table, "degree"),
        })
    }
}

impl FromTable for MeshTable {
    ghost of_table = { mesh_of };

    fn from_table(alloc: Global, table: &Table) -> Result<MeshTable, Memory> {
        Ok(MeshTable {
            name: name_at(alloc, table, "name")?,
            dimensions: integer_at(table, "dimensions"),
            data_list: names_at(alloc, table, "data")?,
        })
    }
}
