//! The values of a table's keys.
ghost use Rattle.std.specs.Prelude.{◌≡◌, map, IfOk};
ghost use Rattle.toml.specs.View.{view, table_view};
ghost use Rattle.cpl_tables.specs.Values.{text_of};
ghost use Rattle.cpl_config.specs.TreeValues.{text_at, integer_at, units_at, list_at, texts_at, units_list_at, integer_or, truth_or, text_if, integer_if, texts_if, units_of};

use crate::values::{integer_of, truth_of, units_of};
use cpl_rules::value_at;
use cpl_tables::{list_of, text_of};
use fixed_num::{Items, Memory, Name};
use std::alloc::Global;
use toml::{Table, Value};

/// The text of a key.
pub fn text_at<'a>(table: &'a Table, key: &str) -> &'a str
    ensures { result.now ≡ text_at key.now (table_view table.now) }
{
    match value_at(table, key) {
        Some(value) => text_of(value),
        None => "",
    }
}

/// The text of a key, in memory of its own.
pub fn name_at(alloc: Global, table: &Table, key: &str) -> Result<Name, Memory>
    ensures { IfOk result (λ name. name ≡ text_at key.now (table_view table.now)) }
{
    name_of(alloc, text_at(table, key))
}

/// The integer of a key.
pub fn integer_at(table: &Table, key: &str) -> i64
    ensures { result ≡ integer_at key.now (table_view table.now) }
{
    integer_or(0, table, key)
}

/// The units of a key's number.
pub fn units_at(table: &Table, key: &str) -> i64
    ensures { result ≡ units_at key.now (table_view table.now) }
{
    match value_at(table, key) {
        Some(value) => units_of(value),
        None => 0,
    }
}

/// The items of a key's list; none where the key is left out.
pub fn list_at<'a>(table: &'a Table, key: &str) -> &'a [Value]
    ensures { map view result.now ≡ list_at key.now (table_view table.now) }
{
    match value_at(table, key) {
        Some(value) => list_of(value),
        None => &[],
    }
}

/// The texts of a key's list.
pub fn names_at(alloc: Global, table: &Table, key: &str) -> Result<Items<Name>, Memory>
    ensures { IfOk result (λ names. names ≡ texts_at key.now (table_view table.now)) }
{
    names_in(alloc, list_at(table, key))
}

/// The units of the numbers of a key's list.
pub fn units_list_at(alloc: Global, table: &Table, key: &str) -> Result<Items<i64>, Memory>
    ensures { IfOk result (λ units. units ≡ units_list_at key.now (table_view table.now)) }
{
    units_in(alloc, list_at(table, key))
}

/// The integer of a key, or the default where the key is left out.
pub fn integer_or(default: i64, table: &Table, key: &str) -> i64
    ensures { result ≡ integer_or default key.now (table_view table.now) }
{
    match value_at(table, key) {
        Some(value) => integer_of(value),
        None => default,
    }
}

/// The truth of a key, or the default where the key is left out.
pub fn truth_or(default: bool, table: &Table, key: &str) -> bool
    ensures { result ≡ truth_or default key.now (table_view table.now) }
{
    match value_at(table, key) {
        Some(value) => truth_of(value, default),
        None => default,
    }
}

/// The text of a key, or None where the key is left out.
pub fn name_if(alloc: Global, table: &Table, key: &str) -> Result<Option<Name>, Memory>
    ensures { IfOk result (λ name. name ≡ text_if key.now (table_view table.now)) }
{
    match value_at(table, key) {
        Some(value) => Ok(Some(name_of(alloc, text_of(value))?)),
        None => Ok(None),
    }
}

/// The integer of a key, or None where the key is left out.
pub fn integer_if(table: &Table, key: &str) -> Option<i64>
    ensures { result ≡ integer_if key.now (table_view table.now) }
{
    match value_at(table, key) {
        Some(value) => Some(integer_of(value)),
        None => None,
    }
}

/// The texts of a key's list, or None where the key is left out.
pub fn names_if(alloc: Global, table: &Table, key: &str) -> Result<Option<Items<Name>>, Memory>
    ensures { IfOk result (λ names. names ≡ texts_if key.now (table_view table.now)) }
{
    match value_at(table, key) {
        Some(value) => Ok(Some(names_in(alloc, list_of(value))?)),
        None => Ok(None),
    }
}

/// The texts of a list's items.
fn names_in(alloc: Global, values: &[Value]) -> Result<Items<Name>, Memory>
    ensures { IfOk result (λ names. names ≡ map text_of (map view values.now)) }
{
    let mut names = Vec::with_capacity(alloc, values.len())?;
    for value in values {
        names.push(name_of(alloc, text_of(value))?)?;
    }
    Ok(Items::from_vec(names))
}

/// The units of the numbers that a list's items are.
pub fn units_in(alloc: Global, values: &[Value]) -> Result<Items<i64>, Memory>
    ensures { IfOk result (λ units. units ≡ map units_of (map view values.now)) }
{
    let mut units = Vec::with_capacity(alloc, values.len())?;
    for value in values {
        units.push(units_of(value))?;
    }
    Ok(Items::from_vec(units))
}

/// The name with this text, in memory of its own.
fn name_of(alloc: Global, text: &str) -> Result<Name, Memory>
    ensures { IfOk result (λ name. name ≡ text.now) }
{
    Ok(Name::from_string(String::from_str(alloc, text)?))
}
