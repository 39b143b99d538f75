//! What the tables of a scheme mean.
ghost use Rattle.std.specs.Prelude.{◌≡◌, option_map, codes, IfOk};
ghost use Rattle.toml.specs.Data.{get_member};
ghost use Rattle.toml.specs.View.{table_view};
ghost use Rattle.cpl_config.specs.TreeValues.{members_of};
ghost use Rattle.cpl_config.specs.ConfigOf.{exchange_of, measure_of, acceleration_of, scheme_of};

use crate::config::{AccelEntry, ExchangeEntry, MeasureEntry, SchemeTable};
use crate::fields::{
    integer_if, name_at, name_if, names_at, names_if, text_at, truth_or, units_at,
};
use crate::tables_of::{FromTable, from_value, tables_at};
use crate::words_of::{acceleration_kind_of, measure_kind_of, scheme_kind_of};
use cpl_rules::value_at;
use fixed_num::Memory;
use std::alloc::Global;
use toml::Table;

impl FromTable for SchemeTable {
    ghost of_table = { scheme_of };

    fn from_table(alloc: Global, table: &Table) -> Result<SchemeTable, Memory> {
        Ok(SchemeTable {
            kind: scheme_kind_of(text_at(table, "kind")),
            first: name_if(alloc, table, "first")?,
            second: name_if(alloc, table, "second")?,
            control: name_if(alloc, table, "control")?,
            members: names_if(alloc, table, "members")?,
            exchange: tables_at(alloc, table, "exchange")?,
            max_iterations: integer_if(table, "max-iterations"),
            min_iterations: integer_if(table, "min-iterations"),
            measure: tables_at(alloc, table, "measure")?,
            acceleration: acceleration_if(alloc, table)?,
        })
    }
}

/// The acceleration of a scheme, or None where it is left out.
fn acceleration_if(alloc: Global, table: &Table) -> Result<Option<AccelEntry>, Memory>
    ensures { IfOk result (λ made. made ≡ option_map (λ value. acceleration_of (members_of value))
        (get_member (codes "acceleration") (table_view table.now))) }
{
    match value_at(table, "acceleration") {
        Some(value) => Ok(Some(from_value(alloc, value)?)),
        None => Ok(None),
    }
}

impl FromTable for ExchangeEntry {
    ghost of_table = { exchange_of };

    fn from_table(alloc: Global, table: &Table) -> Result<ExchangeEntry, Memory> {
        Ok(ExchangeEntry {
            data_name: name_at(alloc, table, "data")?,
            mesh: name_at(alloc, table, "mesh")?,
            from: name_at(alloc, table, "from")?,
            to: name_at(alloc, table, "to")?,
            initialize: truth_or(false, table, "initialize"),
            substeps: truth_or(true, table, "substeps"),
        })
    }
}

impl FromTable for MeasureEntry {
    ghost of_table = { measure_of };

    fn from_table(alloc: Global, table: &Table) -> Result<MeasureEntry, Memory> {
        Ok(MeasureEntry {
            kind: measure_kind_of(text_at(table, "kind")),
            data_name: name_at(alloc, table, "data")?,
            limit: units_at(table, "limit"),
            suffices: truth_or(false, table, "suffices"),
            strict: truth_or(false, table, "strict"),
        })
    }
}

impl FromTable for AccelEntry {
    ghost of_table = { acceleration_of };

    fn from_table(alloc: Global, table: &Table) -> Result<AccelEntry, Memory> {
        Ok(AccelEntry {
            kind: acceleration_kind_of(text_at(table, "kind")),
            factor: units_at(table, "factor"),
            data_list: names_at(alloc, table, "data")?,
        })
    }
}
