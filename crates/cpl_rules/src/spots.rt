//! The tables of a file, in the order of their places.
ghost use Rattle.std.specs.Prelude.{◌≡◌, ◌++◌, ◌∷◌, [], map, IfOk, OnOk, option_map};
ghost use Rattle.toml.specs.Data.{get_member};
ghost use Rattle.toml.specs.View.{view, table_view};
ghost use Rattle.cpl_tables.specs.KeyRule.{rule_of_key};
ghost use Rattle.cpl_rules.specs.Seen.{seen_of};
ghost use Rattle.cpl_rules.specs.SeenTables.{table_in, tables_listed, tables_of, tables_under, tables_in, all_tables, each_with_inner, format_of, config_top, kind_of_word, case_kind, case_top};

use cpl_tables::{Format, Key, Place, Shape, TableKind, keys, list_of, number_at};
use fixed_num::Memory;
use std::alloc::Global;
use toml::{Table, Value};

/// A table of a file, with its place and its kind, by which its keys are listed.
#[derive(Clone, Copy)]
pub struct TableSpot<'a> {
    pub place: Place,
    pub kind: TableKind,
    pub table: &'a Table,
}

impl<'a> TableSpot<'a> {
    /// A configuration's own table.
    pub fn of_config(table: &'a Table) -> TableSpot<'a>
        ensures { seen_of result ≡ config_top (table_view table.now) }
    {
        TableSpot {
            place: Place::Config,
            kind: TableKind::Config(format_of(value_at(table, "format"))),
            table,
        }
    }

    /// The own table of the case file of the participant with this number, from 1.
    pub fn of_case(number: u32, table: &'a Table) -> TableSpot<'a>
        ensures { seen_of result ≡ case_top number (table_view table.now) }
    {
        TableSpot {
            place: Place::Case(number),
            kind: case_kind(value_at(table, "solver")),
            table,
        }
    }
}

/// The format of a configuration, by the value of its `format`: whatever is not 2 is judged as 1.
fn format_of(format: Option<&Value>) -> Format
    ensures { result ≡ format_of (option_map (λ v. view v.now) format.entry) }
{
    match format {
        Some(Value::Integer(2)) => Format::Two,
        _ => Format::One,
    }
}

/// The kind of a case file, by the value of its `solver`.
fn case_kind(solver: Option<&Value>) -> TableKind
    ensures { result ≡ case_kind (option_map (λ v. view v.now) solver.entry) }
{
    match solver {
        Some(Value::String(word)) => kind_of_word(word.as_str()),
        _ => TableKind::AnyCase,
    }
}

fn kind_of_word(word: &str) -> TableKind
    ensures { result ≡ kind_of_word word.now }
{
    match word {
        "rows" => TableKind::RowsCase,
        "rod" => TableKind::RodCase,
        "spring" => TableKind::SpringCase,
        "recorded" => TableKind::RecordedCase,
        _ => TableKind::AnyCase,
    }
}

/// The value of a key.
pub fn value_at<'a>(table: &'a Table, name: &str) -> Option<&'a Value>
    ensures { option_map (λ v. view v.now) result ≡ get_member name.now (table_view table.now) }
{
    table.get(name)
}

/// The tables of a file with this top table: it, then each table in it, followed by the tables in
/// that one.
pub fn all_tables<'a>(alloc: Global, top: TableSpot<'a>) -> Result<Vec<TableSpot<'a>>, Memory>
    ensures { IfOk result (λ spots. map seen_of spots.items ≡ all_tables (seen_of top.entry)) }
{
    let mut spots = Vec::new(alloc);
    spots.push(top)?;
    let mut inner = Vec::new(alloc);
    push_tables_in(top, &mut inner)?;
    push_with_inner(&inner, &mut spots)?;
    Ok(spots)
}

/// Adds each table, followed by the tables in it.
fn push_with_inner<'a>(tables: &[TableSpot<'a>], to: &mut Vec<TableSpot<'a>>) -> Result<(), Memory>
    ensures { OnOk result (map seen_of to.new.items ≡ map seen_of to.old.items ++ each_with_inner (map seen_of tables.now)) }
{
    'tables: for table in tables {
        to.push(*table)?;
        push_tables_in(*table, to)?;
    }
    Ok(())
}

/// Adds the tables under the keys of a table.
fn push_tables_in<'a>(spot: TableSpot<'a>, to: &mut Vec<TableSpot<'a>>) -> Result<(), Memory>
    ensures { OnOk result (map seen_of to.new.items ≡ map seen_of to.old.items ++ tables_in (seen_of spot.entry)) }
{
    'keys: for key in keys(spot.kind) {
        push_tables_under(spot, key, to)?;
    }
    Ok(())
}

/// Adds the tables under a key.
fn push_tables_under<'a>(
    spot: TableSpot<'a>,
    key: &Key,
    to: &mut Vec<TableSpot<'a>>,
) -> Result<(), Memory>
    ensures { OnOk result (map seen_of to.new.items ≡ map seen_of to.old.items ++ tables_under (seen_of spot.entry) (rule_of_key key.now)) }
{
    match value_at(spot.table, key.name) {
        Some(value) => push_tables_of(spot, key.shape, value, to),
        None => Ok(()),
    }
}

/// Adds the tables in a value of this shape.
fn push_tables_of<'a>(
    spot: TableSpot<'a>,
    shape: Shape,
    value: &'a Value,
    to: &mut Vec<TableSpot<'a>>,
) -> Result<(), Memory>
    ensures { OnOk result (map seen_of to.new.items ≡ map seen_of to.old.items ++ tables_of (seen_of spot.entry) shape (Some (view value.now))) }
{
    match (shape, value) {
        (Shape::Tables(kind, _), value) => push_listed(spot, kind, list_of(value), to),
        (Shape::Table(kind), Value::Table(table)) => push_one(spot, kind, 1, table, to),
        _ => Ok(()),
    }
}

/// Adds the tables among the items of a list.
#[tactic(auto, using(crate::proofs::Walks::walked))]
fn push_listed<'a>(
    spot: TableSpot<'a>,
    kind: TableKind,
    items: &'a [Value],
    to: &mut Vec<TableSpot<'a>>,
) -> Result<(), Memory>
    ensures { OnOk result (map seen_of to.new.items ≡ map seen_of to.old.items ++ tables_listed (seen_of spot.entry) kind 0 (map view items.now)) }
{
    'items: for (index, item) in items.iter().enumerate() {
        push_item(spot, kind, index, item, to)?;
    }
    Ok(())
}

/// Adds an item that is a table.
fn push_item<'a>(
    spot: TableSpot<'a>,
    kind: TableKind,
    index: usize,
    item: &'a Value,
    to: &mut Vec<TableSpot<'a>>,
) -> Result<(), Memory>
    ensures { OnOk result (map seen_of to.new.items ≡ map seen_of to.old.items ++ tables_listed (seen_of spot.entry) kind index (view item.now ∷ [])) }
{
    match item {
        Value::Table(table) => push_one(spot, kind, number_at(index), table, to),
        _ => Ok(()),
    }
}

fn push_one<'a>(
    spot: TableSpot<'a>,
    kind: TableKind,
    number: u32,
    table: &'a Table,
    to: &mut Vec<TableSpot<'a>>,
) -> Result<(), Memory>
    ensures { OnOk result (map seen_of to.new.items ≡ map seen_of to.old.items ++ table_in (seen_of spot.entry) kind number (table_view table.now) ∷ []) }
{
    to.push(TableSpot {
        place: spot.place.place_in(kind, number),
        kind,
        table,
    })?;
    Ok(())
}
