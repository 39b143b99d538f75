//! The values of a case file's keys.
ghost use Rattle.std.specs.Prelude.{◌≡◌, IfOk};
ghost use Rattle.toml.specs.View.{table_view};
ghost use Rattle.case_files.specs.CaseOf.{units_if, units_or_zero, units_list_if, integers_if, pairs_at};

use crate::lists::{integers_in, pairs_in};
use cpl_config::fields::{list_at, units_in};
use cpl_config::values::units_of;
use cpl_rules::value_at;
use cpl_tables::list_of;
use fixed_num::{Items, Memory};
use line_solvers::Pair;
use std::alloc::Global;
use toml::Table;

/// The units of a key's number, or None where the key is left out.
pub(crate) fn units_if(table: &Table, key: &str) -> Option<i64>
    ensures { result ≡ units_if key.now (table_view table.now) }
{
    match value_at(table, key) {
        Some(value) => Some(units_of(value)),
        None => None,
    }
}

/// The units of a key's number, or zero where the key is left out.
pub(crate) fn units_or_zero(table: &Table, key: &str) -> i64
    ensures { result ≡ units_or_zero key.now (table_view table.now) }
{
    match value_at(table, key) {
        Some(value) => units_of(value),
        None => 0,
    }
}

/// The units of the numbers of a key's list, or None where the key is left out.
pub(crate) fn units_list_if(
    alloc: Global,
    table: &Table,
    key: &str,
) -> Result<Option<Items<i64>>, Memory>
    ensures { IfOk result (λ units. units ≡ units_list_if key.now (table_view table.now)) }
{
    match value_at(table, key) {
        Some(value) => Ok(Some(units_in(alloc, list_of(value))?)),
        None => Ok(None),
    }
}

/// The integers of a key's list, or None where the key is left out.
pub(crate) fn integers_if(
    alloc: Global,
    table: &Table,
    key: &str,
) -> Result<Option<Items<i64>>, Memory>
    ensures { IfOk result (λ integers. integers ≡ integers_if key.now (table_view table.now)) }
{
    match value_at(table, key) {
        Some(value) => Ok(Some(integers_in(alloc, list_of(value))?)),
        None => Ok(None),
    }
}

/// The pairs of a key's list; none where the key is left out.
pub(crate) fn pairs_at(alloc: Global, table: &Table, key: &str) -> Result<Items<Pair>, Memory>
    ensures { IfOk result (λ pairs. pairs ≡ pairs_at key.now (table_view table.now)) }
{
    pairs_in(alloc, list_at(table, key))
}
