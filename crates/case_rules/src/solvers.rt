//! What is asked of the state of a case file, and of its solver.
ghost use Rattle.std.specs.Prelude.{◌≡◌, ◌+◌, ◌/◌, ◌%◌, ◌^◌, ◌==◌, ◌&&◌, nat_le, [], length, slice_index_or, pos, unwrap_or};
ghost use Rattle.std.specs.List.{list_all};
ghost use Rattle.std.specs.Option.{option_map_or};
ghost use Rattle.case_rules.specs.CaseRules.{has_state, state_length, is_index, has_right_out, has_right_row, is_none_or, first_component, is_whole_to, suits_records, suits_solver};

use case_files::CaseFile;
use fixed_num::Items;
use line_solvers::{Pair, RecordEntry, RowParts, SolverKind};

/// The units of a whole number.
const UNITS: u64 = 1_000_000;

/// Whether the state of a case file is listed, or else filled, and not both.
pub fn has_state(case_file: &CaseFile) -> bool
    ensures { result ≡ has_state case_file.now }
{
    if case_file.state.is_some() {
        case_file.fill.is_none() && case_file.count.is_none()
    } else {
        case_file.fill.is_some() && case_file.count.is_some()
    }
}

/// How many components the state has.
pub fn state_length(case_file: &CaseFile) -> u64
    ensures { result ≡ state_length case_file.now }
{
    match &case_file.state {
        Some(state) => state.len() as u64,
        None => match case_file.count {
            Some(count) => count.unsigned_abs(),
            None => 0,
        },
    }
}

/// Whether a number is an index, from 0, below another.
fn is_index(count: u64, index: i64) -> bool
    ensures { result ≡ is_index count index }
{
    0 <= index && index.unsigned_abs() < count
}

/// Whether as many components of the state, of this size, are written as there are values: those
/// that are listed, or the first ones.
pub fn has_right_out(size: u64, written: u64, out: &Option<Items<i64>>) -> bool
    ensures { result ≡ has_right_out size written out.now }
{
    match out {
        Some(indexes) => {
            indexes.len() as u64 == written && are_indexes(size, indexes.as_slice())
        }
        None => written <= size,
    }
}

fn are_indexes(count: u64, indexes: &[i64]) -> bool
    ensures { result ≡ list_all (is_index count) indexes.now }
{
    'indexes: for index in indexes {
        if !is_index(count, *index) {
            return false;
        }
    }
    true
}

/// Whether the state, of this size, and so many written values and inputs are as the kind of solver
/// asks: a row for each component, with indexes in range; one input for each component of a rod, or
/// none; as many velocities as positions of a spring, and one input for each of these, or none; of a
/// recorded participant, a component that counts its records, and one for each written value.
pub fn suits_solver(case_file: &CaseFile, size: u64, written: u64, inputs: u64) -> bool
    ensures { result ≡ suits_solver (case_file.now).solver size written inputs case_file.now }
{
    match case_file.solver {
        SolverKind::Rows => have_right_rows(size, inputs, &case_file.row),
        SolverKind::Rod => is_none_or(size, inputs),
        SolverKind::Spring => size % 2 == 0 && is_none_or(size / 2, inputs),
        SolverKind::Recorded => suits_records(case_file, size, written),
    }
}

/// Whether the state, of this size, counts the records that are used, and it and each record have so
/// many written values.
fn suits_records(case_file: &CaseFile, size: u64, written: u64) -> bool
    ensures { result ≡ suits_records size written case_file.now }
{
    let records = records_of(&case_file.records);
    is_one_more(written, size)
        && (is_whole_to(records.len() as u64, first_component(case_file))
            && have_writes(written, records))
}

/// Whether a number is one more than another.
fn is_one_more(written: u64, size: u64) -> bool
    ensures { result ≡ (size == 1 + written) }
{
    u128::from(size) == 1 + u128::from(written)
}

/// The records that are there.
fn records_of(records: &Option<Items<RecordEntry>>) -> &[RecordEntry]
    ensures { result.now ≡ unwrap_or records.now [] }
{
    match records {
        Some(listed) => listed.as_slice(),
        None => &[],
    }
}

fn have_writes(written: u64, records: &[RecordEntry]) -> bool
    ensures { result ≡ list_all (λ entry. length entry.writes == written) records.now }
{
    'records: for entry in records {
        if entry.writes.len() as u64 != written {
            return false;
        }
    }
    true
}

/// Component 0 of the state, in units.
fn first_component(case_file: &CaseFile) -> i64
    ensures { result ≡ first_component case_file.now }
{
    match &case_file.state {
        Some(state) => first_of(state.as_slice()),
        None => case_file.fill.unwrap_or(0),
    }
}

fn first_of(values: &[i64]) -> i64
    ensures { result ≡ slice_index_or values.now 0 (pos 0) }
{
    match values.first() {
        Some(first) => *first,
        None => 0,
    }
}

/// Whether a number in units is whole, from 0 to another one.
fn is_whole_to(most: u64, units: i64) -> bool
    ensures { result ≡ is_whole_to most units }
{
    0 <= units && is_whole_number_to(most, units.unsigned_abs())
}

fn is_whole_number_to(most: u64, units: u64) -> bool
    ensures { result ≡ ((units % 10 ^ 6 == 0) && nat_le (units / 10 ^ 6) most) }
{
    units % UNITS == 0 && units / UNITS <= most
}

/// Whether a number is none, or this one.
fn is_none_or(wanted: u64, count: u64) -> bool
    ensures { result ≡ is_none_or wanted count }
{
    count == 0 || count == wanted
}

fn have_right_rows(size: u64, inputs: u64, rows: &Option<Items<RowParts>>) -> bool
    ensures { result ≡ ((length (unwrap_or rows.now []) == size) && list_all (has_right_row size inputs) (unwrap_or rows.now [])) }
{
    match rows {
        Some(listed) => {
            listed.len() as u64 == size && are_right_rows(size, inputs, listed.as_slice())
        }
        None => 0 == size,
    }
}

fn are_right_rows(size: u64, inputs: u64, rows: &[RowParts]) -> bool
    ensures { result ≡ list_all (has_right_row size inputs) rows.now }
{
    'rows: for row in rows {
        if !has_right_row(size, inputs, row) {
            return false;
        }
    }
    true
}

/// Whether the indexes of a row are below the size of the state, and the number of inputs.
fn has_right_row(size: u64, inputs: u64, row: &RowParts) -> bool
    ensures { result ≡ has_right_row size inputs row.now }
{
    have_indexes(size, row.states.as_slice()) && have_indexes(inputs, row.reads.as_slice())
}

fn have_indexes(count: u64, pairs: &[Pair]) -> bool
    ensures { result ≡ list_all (λ pair. is_index count pair.index) pairs.now }
{
    'pairs: for pair in pairs {
        if !is_index(count, pair.index) {
            return false;
        }
    }
    true
}
