//! What the tables of a case file mean.
ghost use Rattle.std.specs.Prelude.{◌≡◌, option_map, codes, IfOk};
ghost use Rattle.toml.specs.Data.{get_member};
ghost use Rattle.toml.specs.View.{table_view};
ghost use Rattle.cpl_config.specs.TreeValues.{members_of};
ghost use Rattle.case_files.specs.CaseOf.{points_of, line_of, case_mesh_of, case_of};

use crate::case_file::{CaseFile, CaseMesh, LinePoints};
use crate::keys::{integers_if, units_if, units_list_if, units_or_zero};
use crate::lists::points_in;
use crate::parts::parts_if;
use crate::words::{read_when_of, solver_of};
use cpl_config::fields::{integer_at, integer_if, name_at, text_at, units_list_at};
use cpl_config::tables_of::{FromTable, from_value, tables_at};
use cpl_rules::value_at;
use cpl_tables::list_of;
use fixed_num::{Items, Memory};
use std::alloc::Global;
use toml::Table;

impl FromTable for CaseFile {
    ghost of_table = { case_of };

    fn from_table(alloc: Global, table: &Table) -> Result<CaseFile, Memory> {
        Ok(CaseFile {
            solver: solver_of(text_at(table, "solver")),
            step: integer_at(table, "step"),
            read: read_when_of(text_at(table, "read")),
            state: units_list_if(alloc, table, "state")?,
            fill: units_if(table, "fill"),
            count: integer_if(table, "count"),
            out: integers_if(alloc, table, "out")?,
            forbid: units_if(table, "forbid"),
            mesh: tables_at(alloc, table, "mesh")?,
            row: parts_if(alloc, table, "row")?,
            records: parts_if(alloc, table, "record")?,
            alpha: units_or_zero(table, "alpha"),
            beta: units_or_zero(table, "beta"),
            stiff: units_or_zero(table, "stiff"),
            damp: units_or_zero(table, "damp"),
            gain: units_or_zero(table, "gain"),
            rate: units_or_zero(table, "rate"),
        })
    }
}

impl FromTable for CaseMesh {
    ghost of_table = { case_mesh_of };

    fn from_table(alloc: Global, table: &Table) -> Result<CaseMesh, Memory> {
        Ok(CaseMesh {
            name: name_at(alloc, table, "name")?,
            points: points_if(alloc, table)?,
            line: line_if(alloc, table)?,
        })
    }
}

impl FromTable for LinePoints {
    ghost of_table = { line_of };

    fn from_table(alloc: Global, table: &Table) -> Result<LinePoints, Memory> {
        Ok(LinePoints {
            from: units_list_at(alloc, table, "from")?,
            to: units_list_at(alloc, table, "to")?,
            count: integer_at(table, "count"),
        })
    }
}

/// The points of a mesh, or None where they are left out.
fn points_if(alloc: Global, table: &Table) -> Result<Option<Items<Items<i64>>>, Memory>
    ensures { IfOk result (λ points. points ≡ option_map points_of (get_member (codes "points") (table_view table.now))) }
{
    match value_at(table, "points") {
        Some(value) => Ok(Some(points_in(alloc, list_of(value))?)),
        None => Ok(None),
    }
}

/// The line of a mesh, or None where it is left out.
fn line_if(alloc: Global, table: &Table) -> Result<Option<LinePoints>, Memory>
    ensures { IfOk result (λ line. line ≡ option_map (λ value. line_of (members_of value))
        (get_member (codes "line") (table_view table.now))) }
{
    match value_at(table, "line") {
        Some(value) => Ok(Some(from_value(alloc, value)?)),
        None => Ok(None),
    }
}
