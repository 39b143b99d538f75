//! The convergence measures of a scheme in numbers.
ghost use Rattle.std.specs.Prelude.{◌≡◌, ◌≤◌, ◌<◌, ◌+◌, All, IfOk, length, map, position, IfSome};
ghost use Rattle.std.specs.Str.{bytes_eq};
ghost use Rattle.cpl_config.specs.SoundConfig.{IsSoundMeasure};
ghost use Rattle.scheme_parts.specs.MeasureOf.{measure_kind, first_carrier, measure_of};

use cpl_config::{ExchangeEntry, MeasureEntry, MeasureWord, SchemeTable};
use cpl_plan::{Measure, MeasureKind};
use fixed_num::{Memory, Name, Value, value_of};
use std::alloc::Global;

/// The measures of a scheme whose exchanges come after so many others.
pub(crate) fn measures_of(
    alloc: Global,
    before: u32,
    table: &SchemeTable,
) -> Result<Vec<Measure>, Memory>
    requires few { before + length (table.now).exchange ≤ 256 }
    requires sound { All IsSoundMeasure (table.now).measure }
    ensures { IfOk result (λ measures. measures.items ≡ map (measure_of before table.now) (table.now).measure) }
{
    let entries = table.measure.as_slice();
    let mut measures = Vec::with_capacity(alloc, entries.len())?;
    'entries: for entry in entries {
        measures.push(measure_of(before, table, entry))?;
    }
    Ok(measures)
}

fn measure_of(before: u32, table: &SchemeTable, entry: &MeasureEntry) -> Measure
    requires few { before + length (table.now).exchange ≤ 256 }
    requires sound { IsSoundMeasure entry.now }
    ensures { result ≡ measure_of before table.now entry.now }
{
    Measure {
        kind: measure_kind(entry.kind),
        exchange: before + first_carrier(table, &entry.data_name),
        limit: limit_of(entry),
        suffices: entry.suffices,
        strict: entry.strict,
    }
}

fn measure_kind(word: MeasureWord) -> MeasureKind
    ensures { result ≡ measure_kind word }
{
    match word {
        MeasureWord::Absolute => MeasureKind::Absolute,
        MeasureWord::Relative => MeasureKind::Relative,
        MeasureWord::ResidualRelative => MeasureKind::ResidualRelative,
    }
}

/// The limit of a measure, which is within the range of a value.
fn limit_of(entry: &MeasureEntry) -> Value
    requires { IsSoundMeasure entry.now }
    ensures { result ≡ (entry.now).limit }
{
    match value_of(i128::from(entry.limit)) {
        Some(limit) => limit,
        None => unreachable!(),
    }
}

/// The place in its scheme of the first exchange that carries the data; 0 where none does.
fn first_carrier(table: &SchemeTable, data_name: &Name) -> u32
    requires { length (table.now).exchange ≤ 256 }
    ensures place { result ≡ first_carrier table.now data_name.now }
    ensures within { result ≤ length (table.now).exchange }
{
    match place_of_carrier(table.exchange.as_slice(), data_name.as_str()) {
        Some(place) => place as u32,
        None => 0,
    }
}

fn place_of_carrier(entries: &[ExchangeEntry], data_name: &str) -> Option<usize>
    ensures place { result ≡ position (λ entry. bytes_eq entry.data_name data_name.now) entries.now }
    ensures within { IfSome result (λ place. place < length entries.now) }
{
    'entries: for (index, entry) in entries.iter().enumerate() {
        if entry.data_name.as_str() == data_name {
            return Some(index);
        }
    }
    None
}
