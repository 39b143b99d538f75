//! What the tables of a case file's lists mean, for types of the solvers: rows and records.
ghost use Rattle.std.specs.Prelude.{◌≡◌, map, option_map, IfOk};
ghost use Rattle.toml.specs.Data.{Members, get_member};
ghost use Rattle.toml.specs.View.{view, table_view};
ghost use Rattle.cpl_tables.specs.Values.{list_of};
ghost use Rattle.cpl_config.specs.TreeValues.{members_of};
ghost use Rattle.case_files.specs.CaseOf.{row_of, record_of};

use crate::keys::{pairs_at, units_or_zero};
use cpl_config::fields::{integer_at, units_list_at};
use cpl_rules::value_at;
use cpl_tables::list_of;
use fixed_num::{Items, Memory};
use line_solvers::{RecordEntry, RowParts};
use std::alloc::Global;
use toml::{Table, Value};

/// What a table means one of.
pub(crate) trait OfTable: Drop {
    ghost meaning: { Members → Self };

    /// What the table means.
    fn of_table(alloc: Global, table: &Table) -> Result<Self, Memory>
        ensures { IfOk result (λ made. made ≡ meaning (table_view table.now)) };
}

impl OfTable for RowParts {
    ghost meaning = { row_of };

    fn of_table(alloc: Global, table: &Table) -> Result<RowParts, Memory> {
        Ok(RowParts {
            add: units_or_zero(table, "add"),
            states: pairs_at(alloc, table, "states")?,
            reads: pairs_at(alloc, table, "reads")?,
        })
    }
}

impl OfTable for RecordEntry {
    ghost meaning = { record_of };

    fn of_table(alloc: Global, table: &Table) -> Result<RecordEntry, Memory> {
        Ok(RecordEntry {
            dt: integer_at(table, "dt"),
            writes: units_list_at(alloc, table, "writes")?,
        })
    }
}

/// What the tables of a key's list mean, or None where the key is left out.
pub(crate) fn parts_if<T: OfTable>(
    alloc: Global,
    table: &Table,
    key: &str,
) -> Result<Option<Items<T>>, Memory>
    ensures { IfOk result (λ parts. parts ≡ option_map (λ value. map T.meaning (map members_of (list_of value)))
        (get_member key.now (table_view table.now))) }
{
    match value_at(table, key) {
        Some(value) => Ok(Some(parts_in(alloc, list_of(value))?)),
        None => Ok(None),
    }
}

/// What the tables that a list's items are mean.
fn parts_in<T: OfTable>(alloc: Global, values: &[Value]) -> Result<Items<T>, Memory>
    ensures { IfOk result (λ parts. parts ≡ map T.meaning (map members_of (map view values.now))) }
{
    let mut parts = Vec::with_capacity(alloc, values.len())?;
    for value in values {
        parts.push(part_of(alloc, value)?)?;
    }
    Ok(Items::from_vec(parts))
}

/// What the table that a value is means; of any other value, what a table without keys means.
fn part_of<T: OfTable>(alloc: Global, value: &Value) -> Result<T, Memory>
    ensures { IfOk result (λ part. part ≡ T.meaning (members_of (view value.now))) }
{
    match value {
        Value::Table(table) => T::of_table(alloc, table),
        _ => T::of_table(alloc, &Table::new(alloc)),
    }
}
