//! The rules on mappings and watch-points.
ghost use Rattle.std.specs.Prelude.{◌≡◌, not};
ghost use Rattle.std.specs.List.{list_any};
ghost use Rattle.mesh_rules.specs.Spots.{held_of};
ghost use Rattle.mesh_rules.specs.MeshRules.{is_wrongly_mapped, is_unmapped, has_right_ends, have_same_dimensions, has_dimensions_of, same_direction, goes, some_goes, has_map, is_elsewhere, lacks_write_map, lacks_read_map};
ghost use Rattle.mesh_rules.specs.Named.{holds_of};

use crate::entries::At;
use crate::named::{dimensions_of, participant_called, provides, receives};
use cpl_config::{Config, DataEntry, Direction, ExchangeEntry, MapEntry, PartTable, WatchEntry};

/// Whether a mapping's ends are not a received and a provided mesh of its participant, in the order
/// of its direction, or have different dimensions, or a mapping of the participant before it has its
/// direction and ends; or a watch-point's mesh is not provided by its participant, or the point has
/// not as many coordinates as the mesh has dimensions.
pub fn is_wrongly_mapped(config: &Config, held: At) -> bool
    ensures { result ≡ is_wrongly_mapped config.now (held_of held.entry) }
{
    match held {
        At::Map(table, earlier, entry) => {
            !has_right_ends(table, entry)
                || !have_same_dimensions(config, entry.from.as_str(), entry.to.as_str())
                || some_goes(
                    earlier,
                    entry.direction,
                    entry.from.as_str(),
                    entry.to.as_str(),
                )
        }
        At::Watch(table, entry) => {
            !provides(table, entry.mesh.as_str()) || !has_dimensions_of(config, entry)
        }
        _ => false,
    }
}

/// Whether a read mapping goes from a received to a provided mesh, or a write mapping from a
/// provided to a received one.
fn has_right_ends(table: &PartTable, entry: &MapEntry) -> bool
    ensures { result ≡ has_right_ends table.now (entry.now).direction (entry.now).from (entry.now).to }
{
    let from = entry.from.as_str();
    let to = entry.to.as_str();
    match entry.direction {
        Direction::Read => receives(table, from) && provides(table, to),
        Direction::Write => provides(table, from) && receives(table, to),
    }
}

fn have_same_dimensions(config: &Config, one: &str, other: &str) -> bool
    ensures { result ≡ have_same_dimensions config.now one.now other.now }
{
    dimensions_of(config, one) == dimensions_of(config, other)
}

/// Whether a watch-point has as many coordinates as its mesh has dimensions.
fn has_dimensions_of(config: &Config, entry: &WatchEntry) -> bool
    ensures { result ≡ has_dimensions_of config.now entry.now }
{
    entry.at.len() as u64 == dimensions_of(config, entry.mesh.as_str()).unsigned_abs()
}

/// Whether some of the mappings has this direction and these ends.
fn some_goes(entries: &[MapEntry], direction: Direction, from: &str, to: &str) -> bool
    ensures { result ≡ some_goes direction from.now to.now entries.now }
{
    'entries: for entry in entries {
        if goes(entry, direction, from, to) {
            return true;
        }
    }
    false
}

/// Whether a mapping has this direction and these ends.
fn goes(entry: &MapEntry, direction: Direction, from: &str, to: &str) -> bool
    ensures { result ≡ goes direction from.now to.now entry.now }
{
    is_same_direction(entry.direction, direction)
        && (entry.from.as_str() == from && entry.to.as_str() == to)
}

fn is_same_direction(one: Direction, other: Direction) -> bool
    ensures { result ≡ same_direction one other }
{
    match (one, other) {
        (Direction::Read, Direction::Read) => true,
        (Direction::Write, Direction::Write) => true,
        _ => false,
    }
}

/// Whether an exchange's writer writes its data on another mesh and maps nothing from there onto
/// the exchange's mesh, or its reader reads them on another mesh and maps nothing onto it from the
/// exchange's.
pub fn is_unmapped(config: &Config, held: At) -> bool
    ensures { result ≡ is_unmapped config.now (held_of held.entry) }
{
    match held {
        At::Exchange(_, entry) => {
            is_unmapped_from(config, entry) || is_unmapped_to(config, entry)
        }
        _ => false,
    }
}

fn is_unmapped_from(config: &Config, exchange: &ExchangeEntry) -> bool
    ensures { result ≡ holds_of config.now (exchange.now).from (lacks_write_map exchange.now) }
{
    match participant_called(config, exchange.from.as_str()) {
        Some(table) => lacks_write_map(exchange, table),
        None => false,
    }
}

fn is_unmapped_to(config: &Config, exchange: &ExchangeEntry) -> bool
    ensures { result ≡ holds_of config.now (exchange.now).to (lacks_read_map exchange.now) }
{
    match participant_called(config, exchange.to.as_str()) {
        Some(table) => lacks_read_map(exchange, table),
        None => false,
    }
}

/// Whether a participant writes the exchange's data on another mesh and maps nothing from there
/// onto the exchange's.
fn lacks_write_map(exchange: &ExchangeEntry, table: &PartTable) -> bool
    ensures { result ≡ lacks_write_map exchange.now table.now }
{
    'entries: for entry in table.write.as_slice() {
        if is_elsewhere(exchange, entry) && !has_write_map(table, entry, exchange) {
            return true;
        }
    }
    false
}

/// Whether a participant reads the exchange's data on another mesh and maps nothing onto it from
/// the exchange's.
fn lacks_read_map(exchange: &ExchangeEntry, table: &PartTable) -> bool
    ensures { result ≡ lacks_read_map exchange.now table.now }
{
    'entries: for entry in table.read.as_slice() {
        if is_elsewhere(exchange, entry) && !has_read_map(table, exchange, entry) {
            return true;
        }
    }
    false
}

/// Whether an entry is of the exchange's data, on another mesh.
fn is_elsewhere(exchange: &ExchangeEntry, entry: &DataEntry) -> bool
    ensures { result ≡ is_elsewhere exchange.now entry.now }
{
    entry.data_name.as_str() == exchange.data_name.as_str()
        && entry.mesh.as_str() != exchange.mesh.as_str()
}

/// Whether the participant maps from what it writes onto the exchange's mesh.
fn has_write_map(table: &PartTable, entry: &DataEntry, exchange: &ExchangeEntry) -> bool
    ensures { result ≡ has_map table.now Direction.Write (entry.now).mesh (exchange.now).mesh }
{
    let from = entry.mesh.as_str();
    let to = exchange.mesh.as_str();
    some_goes(table.map.as_slice(), Direction::Write, from, to)
}

/// Whether the participant maps from the exchange's mesh onto what it reads.
fn has_read_map(table: &PartTable, exchange: &ExchangeEntry, entry: &DataEntry) -> bool
    ensures { result ≡ has_map table.now Direction.Read (exchange.now).mesh (entry.now).mesh }
{
    let from = exchange.mesh.as_str();
    let to = entry.mesh.as_str();
    some_goes(table.map.as_slice(), Direction::Read, from, to)
}
