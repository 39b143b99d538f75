//! What lists of a case file mean.
ghost use Rattle.std.specs.Prelude.{◌≡◌, map, IfOk};
ghost use Rattle.toml.specs.View.{view};
ghost use Rattle.cpl_config.specs.TreeValues.{integer_of, units_of};
ghost use Rattle.cpl_tables.specs.Values.{list_of};
ghost use Rattle.case_files.specs.CaseOf.{units_list_of, index_in_pair, pair_of};

use cpl_config::fields::units_in;
use cpl_config::values::integer_of;
use cpl_tables::{list_of, number_of_pair};
use fixed_num::{Items, Memory};
use line_solvers::Pair;
use std::alloc::Global;
use toml::Value;

/// The integers that a list's items are.
pub(crate) fn integers_in(alloc: Global, values: &[Value]) -> Result<Items<i64>, Memory>
    ensures { IfOk result (λ integers. integers ≡ map integer_of (map view values.now)) }
{
    let mut integers = Vec::with_capacity(alloc, values.len())?;
    for value in values {
        integers.push(integer_of(value))?;
    }
    Ok(Items::from_vec(integers))
}

/// The points that a list's items are, each as the units of its coordinates.
pub(crate) fn points_in(alloc: Global, values: &[Value]) -> Result<Items<Items<i64>>, Memory>
    ensures { IfOk result (λ points. points ≡ map units_list_of (map view values.now)) }
{
    let mut points = Vec::with_capacity(alloc, values.len())?;
    for value in values {
        points.push(units_in(alloc, list_of(value))?)?;
    }
    Ok(Items::from_vec(points))
}

/// The pairs that a list's items are.
pub(crate) fn pairs_in(alloc: Global, values: &[Value]) -> Result<Items<Pair>, Memory>
    ensures { IfOk result (λ pairs. pairs ≡ map pair_of (map view values.now)) }
{
    let mut pairs = Vec::with_capacity(alloc, values.len())?;
    for value in values {
        pairs.push(pair_of(value))?;
    }
    Ok(Items::from_vec(pairs))
}

/// The pair that a list of an index and a number is.
fn pair_of(value: &Value) -> Pair
    ensures { result ≡ pair_of (view value.now) }
{
    Pair {
        index: index_in_pair(list_of(value)),
        number: number_of_pair(value).unwrap_or(0),
    }
}

/// The first of two items.
fn index_in_pair(items: &[Value]) -> i64
    ensures { result ≡ index_in_pair (map view items.now) }
{
    match items {
        [index, _] => integer_of(index),
        _ => 0,
    }
}
