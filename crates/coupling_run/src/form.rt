//! The few files that are accepted: those of `base`, with any number of windows and any `add`.
//!
//! Whatever else a file says, and whatever is wrong with it, it is refused.
ghost use Rattle.std.specs.Prelude.{◌≡◌, IfOk, IfSome, option_map, option_and_then};
ghost use Rattle.fixed_num.specs.Numbers.{IsValue};
ghost use Rattle.toml.specs.Data.{integer, as_table};
ghost use Rattle.toml.specs.Parse.{parse_document};
ghost use Rattle.toml.specs.View.{view, table_view};
ghost use Rattle.coupling_run.specs.Form.{tree_of, is_tree_of, value_beside, window_count, IsWindowCount, only_item, number_units, windows_of, add_of, is_second_case};

#[cfg(test)]
mod tests;

use crate::base::{CONFIGURATION, FIRST_CASE, FIRST_ROW, SECOND_CASE};
use crate::tree::is_same_table;
use cpl_config::read::MOST_BYTES;
use fixed_num::Memory;
use line_text::read_value;
use std::alloc::Global;
use toml::{Table, Value};

/// The most windows that a configuration may ask for.
const MOST_WINDOWS: u32 = 1_000_000;

/// The greatest absolute value of a whole number that is added.
const MOST_ADDED: i64 = 10_000_000;

const UNITS_OF_ONE: i64 = 1_000_000;

/// How many windows the configuration in a file asks for, or None where the file is refused.
pub fn accepted_windows(alloc: Global, bytes: &[u8]) -> Result<Option<u32>, Memory>
    ensures windows { IfOk result (λ windows. windows ≡ windows_of bytes.now) }
    ensures range { IfOk result (λ windows. IfSome windows IsWindowCount) }
{
    let Some(tree) = file_tree(alloc, bytes)? else {
        return Ok(None);
    };
    let Some(number) = value_beside(alloc, tree, "max-windows", CONFIGURATION)? else {
        return Ok(None);
    };
    Ok(window_count(&number))
}

/// What the one row of participant A's case adds, in units, or None where the file is refused.
pub fn accepted_first(alloc: Global, bytes: &[u8]) -> Result<Option<i64>, Memory>
    ensures add { IfOk result (λ units. units ≡ add_of bytes.now) }
    ensures range { IfOk result (λ units. IfSome units IsValue) }
{
    let Some(tree) = file_tree(alloc, bytes)? else {
        return Ok(None);
    };
    let Some(rows) = value_beside(alloc, tree, "row", FIRST_CASE)? else {
        return Ok(None);
    };
    let Some(row) = only_table(rows) else {
        return Ok(None);
    };
    let Some(add) = value_beside(alloc, row, "add", FIRST_ROW)? else {
        return Ok(None);
    };
    Ok(number_units(&add))
}

/// Whether the file is participant B's case.
pub fn accepts_second(alloc: Global, bytes: &[u8]) -> Result<bool, Memory>
    ensures { IfOk result (λ accepted. accepted ≡ is_second_case bytes.now) }
{
    match file_tree(alloc, bytes)? {
        Some(tree) => is_read_from(alloc, &tree, SECOND_CASE),
        None => Ok(false),
    }
}

/// The tree of a file.
fn file_tree(alloc: Global, bytes: &[u8]) -> Result<Option<Table>, Memory>
    ensures { IfOk result (λ tree. option_map table_view tree ≡ tree_of bytes.now) }
{
    if bytes.len() > MOST_BYTES {
        return Ok(None);
    }
    match std::str::from_utf8(bytes) {
        Ok(text) => read_tree(alloc, text),
        Err(_) => Ok(None),
    }
}

/// The tree of a text, or None where TOML refuses it.
fn read_tree(alloc: Global, text: &str) -> Result<Option<Table>, Memory>
    ensures { IfOk result (λ tree. option_map table_view tree ≡ parse_document text.now) }
{
    match toml::table_from_str(alloc, text) {
        Ok(table) => Ok(Some(table)),
        Err(error) if error.is_memory() => Err(Memory),
        Err(_) => Ok(None),
    }
}

/// Whether the text reads as the table.
fn is_read_from(alloc: Global, table: &Table, text: &str) -> Result<bool, Memory>
    ensures { IfOk result (λ same. same ≡ is_tree_of text.now (table_view table.now)) }
{
    match read_tree(alloc, text)? {
        Some(base) => Ok(is_same_table(table, &base)),
        None => Ok(false),
    }
}

/// The value at the key, where the rest of the table is what the text reads as.
fn value_beside(
    alloc: Global,
    mut table: Table,
    key: &str,
    text: &str,
) -> Result<Option<Value>, Memory>
    ensures { IfOk result (λ value. option_map view value ≡ value_beside key.now text.now (table_view table)) }
{
    let value = table.remove(key);
    if is_read_from(alloc, &table, text)? {
        Ok(value)
    } else {
        Ok(None)
    }
}

/// The number of windows that a value is.
fn window_count(value: &Value) -> Option<u32>
    ensures count { result ≡ window_count (view value.now) }
    ensures range { IfSome result IsWindowCount }
{
    match value.as_integer() {
        Some(number) => count_of(number),
        None => None,
    }
}

/// The table that is the only item of a list.
fn only_table(value: Value) -> Option<Table>
    ensures { option_map table_view result ≡ option_and_then as_table (only_item (view value)) }
{
    match only_item(value) {
        Some(item) => into_table(item),
        None => None,
    }
}

/// The only item of a list.
fn only_item(value: Value) -> Option<Value>
    ensures { option_map view result ≡ only_item (view value) }
{
    let Value::Array(mut items) = value else {
        return None;
    };
    if items.len() != 1 {
        return None;
    }
    items.pop()
}

/// The table that a value is.
fn into_table(value: Value) -> Option<Table>
    ensures { option_map table_view result ≡ as_table (view value) }
{
    match value {
        Value::Table(table) => Some(table),
        _ => None,
    }
}

/// The units of the number that a value is.
fn number_units(value: &Value) -> Option<i64>
    ensures units { result ≡ number_units (view value.now) }
    ensures range { IfSome result IsValue }
{
    match value {
        Value::String(text) => read_value(text.as_str()).ok(),
        Value::Integer(number) => whole_units(*number),
        _ => None,
    }
}

/// The number of windows that a whole number is.
fn count_of(number: i64) -> Option<u32>
    ensures count { result ≡ window_count (integer number) }
    ensures range { IfSome result IsWindowCount }
{
    match u32::try_from(number) {
        Ok(count) if 1 <= count && count <= MOST_WINDOWS => Some(count),
        _ => None,
    }
}

/// The units of a whole number.
fn whole_units(number: i64) -> Option<i64>
    ensures units { result ≡ number_units (integer number) }
    ensures range { IfSome result IsValue }
{
    if number < -MOST_ADDED || MOST_ADDED < number {
        return None;
    }
    Some(number * UNITS_OF_ONE)
}
