//! The rules on measures and accelerations.
ghost use Rattle.std.specs.Prelude.{◌≡◌, not, nat_lt, sum_by, filter, ◌∷◌, []};
ghost use Rattle.std.specs.List.{list_any};
ghost use Rattle.mesh_rules.specs.Spots.{held_of};
ghost use Rattle.config_rules.specs.SchemeRules.{is_uncarried, relaxes, is_wrongly_accelerated, components_by, components, components_of, is_accelerated, is_wide};

use crate::groups::{exchanges_data, is_implicit, is_iterated};
use cpl_config::{AccelEntry, Config, DataKind, ExchangeEntry, SchemeTable};
use fixed_num::Name;
use mesh_rules::At;
use mesh_rules::named::{data_called, dimensions_of, is_among};

/// The most components a vertex that an acceleration has.
const MOST_COMPONENTS: u64 = 20;

/// Whether a measure's data are carried by no exchange of its scheme.
pub fn is_uncarried(held: At) -> bool
    ensures { result ≡ is_uncarried (held_of held.entry) }
{
    match held {
        At::Measure(table, entry) => !exchanges_data(table, entry.data_name.as_str()),
        _ => false,
    }
}

/// Whether an acceleration is that of an explicit scheme, has no data, or has data that no exchange
/// of its scheme carries that is relaxed between iterations.
pub fn is_wrongly_accelerated(held: At) -> bool
    ensures { result ≡ is_wrongly_accelerated (held_of held.entry) }
{
    match held {
        At::Acceleration(table, entry) => {
            !is_implicit(table)
                || entry.data_list.len() == 0
                || some_is_unrelaxed(table, entry.data_list.as_slice())
        }
        _ => false,
    }
}

/// Whether some of the data are not relaxed.
fn some_is_unrelaxed(table: &SchemeTable, names: &[Name]) -> bool
    ensures { result ≡ list_any (λ name. not (relaxes table.now name)) names.now }
{
    'names: for name in names {
        if !relaxes(table, name.as_str()) {
            return true;
        }
    }
    false
}

/// Whether an exchange of the scheme that is relaxed carries the data.
fn relaxes(table: &SchemeTable, data_name: &str) -> bool
    ensures { result ≡ relaxes table.now data_name.now }
{
    'entries: for entry in table.exchange.as_slice() {
        if entry.data_name.as_str() == data_name && is_iterated(table, entry) {
            return true;
        }
    }
    false
}

/// Whether the accelerated exchanges of an acceleration's scheme have more than 20 components a
/// vertex.
pub fn is_wide(config: &Config, held: At) -> bool
    ensures { result ≡ is_wide config.now (held_of held.entry) }
{
    match held {
        At::Acceleration(table, entry) => has_many_components(config, table, entry),
        _ => false,
    }
}

fn has_many_components(config: &Config, table: &SchemeTable, acceleration: &AccelEntry) -> bool
    ensures { result ≡ nat_lt 20 (sum_by (components_of config.now) (filter (is_accelerated table.now acceleration.now) (table.now).exchange)) }
{
    let mut left = MOST_COMPONENTS;
    'entries: for entry in table.exchange.as_slice() {
        let more = accelerated_components(config, table, acceleration, entry);
        if left < more {
            return true;
        }
        left -= more;
    }
    false
}

/// The components a vertex of an exchange that is accelerated; none of another.
fn accelerated_components(
    config: &Config,
    table: &SchemeTable,
    acceleration: &AccelEntry,
    entry: &ExchangeEntry,
) -> u64
    ensures { result ≡ sum_by (components_of config.now) (filter (is_accelerated table.now acceleration.now) (entry.now ∷ [])) }
{
    if is_accelerated(table, acceleration, entry) {
        components(config, entry.mesh.as_str(), entry.data_name.as_str())
    } else {
        0
    }
}

/// Whether an exchange is accelerated: its data are among those of the acceleration, and it is relaxed
/// between iterations.
pub fn is_accelerated(table: &SchemeTable, acceleration: &AccelEntry, entry: &ExchangeEntry) -> bool
    ensures { result ≡ is_accelerated table.now acceleration.now entry.now }
{
    is_among(entry.data_name.as_str(), acceleration.data_list.as_slice())
        && is_iterated(table, entry)
}

/// The components at a vertex of a mesh of the data of a name.
pub fn components(config: &Config, mesh: &str, data_name: &str) -> u64
    ensures { result ≡ components config.now mesh.now data_name.now }
{
    match data_called(config, data_name) {
        Some(table) => components_by(table.kind, dimensions_of(config, mesh).unsigned_abs()),
        None => 0,
    }
}

/// The components of data of a kind at a vertex of a mesh of so many dimensions.
fn components_by(kind: DataKind, dimensions: u64) -> u64
    ensures { result ≡ components_by kind dimensions }
{
    match kind {
        DataKind::Scalar => 1,
        DataKind::Vector => dimensions,
    }
}
