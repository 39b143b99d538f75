//! Which mapping of a participant an exchange needs.
ghost use Rattle.std.specs.Prelude.{◌≡◌, ◌≤◌, ◌<◌, length, position, option_map, IfSome};
ghost use Rattle.std.specs.Option.{option_and_then};
ghost use Rattle.mesh_rules.specs.MeshRules.{goes, same_direction};
ghost use Rattle.cpl_config.specs.declared.kind_words.Direction.TheVariants as D;
ghost use Rattle.scheme_parts.specs.MapPlaces.{map_place, entry_with, write_map, read_map};

use crate::numbered::NumberedConfig;
use cpl_config::{DataEntry, Direction, ExchangeEntry, MapEntry, PartTable};
use fixed_num::Name;

/// The place of the writer's mapping, from where it writes the data onto the exchange's mesh.
pub(crate) fn write_map(config: &NumberedConfig, exchange: &ExchangeEntry) -> Option<u32>
    ensures { result ≡ write_map config.now exchange.now }
{
    match config.participant(&exchange.from) {
        Some(writer) => map_of_writer(writer, exchange),
        None => None,
    }
}

/// The place of the reader's mapping, from the exchange's mesh onto where it reads the data.
pub(crate) fn read_map(config: &NumberedConfig, exchange: &ExchangeEntry) -> Option<u32>
    ensures { result ≡ read_map config.now exchange.now }
{
    match config.participant(&exchange.to) {
        Some(reader) => map_of_reader(reader, exchange),
        None => None,
    }
}

fn map_of_writer(writer: &PartTable, exchange: &ExchangeEntry) -> Option<u32>
    requires { length (writer.now).map ≤ 64 }
    ensures { result ≡ option_and_then (λ entry. map_place D.Write entry.mesh (exchange.now).mesh (writer.now).map) (entry_with (exchange.now).data_name (writer.now).write) }
{
    match entry_with(&exchange.data_name, writer.write.as_slice()) {
        Some(entry) => {
            let maps = writer.map.as_slice();
            map_place(Direction::Write, &entry.mesh, &exchange.mesh, maps)
        }
        None => None,
    }
}

fn map_of_reader(reader: &PartTable, exchange: &ExchangeEntry) -> Option<u32>
    requires { length (reader.now).map ≤ 64 }
    ensures { result ≡ option_and_then (λ entry. map_place D.Read (exchange.now).mesh entry.mesh (reader.now).map) (entry_with (exchange.now).data_name (reader.now).read) }
{
    match entry_with(&exchange.data_name, reader.read.as_slice()) {
        Some(entry) => {
            let maps = reader.map.as_slice();
            map_place(Direction::Read, &exchange.mesh, &entry.mesh, maps)
        }
        None => None,
    }
}

/// The entry that has the data.
fn entry_with<'a>(data_name: &Name, entries: &'a [DataEntry]) -> Option<&'a DataEntry>
    ensures { option_map (λ entry. entry.now) result ≡ entry_with data_name.now entries.now }
{
    'entries: for entry in entries {
        if entry.data_name.as_str() == data_name.as_str() {
            return Some(entry);
        }
    }
    None
}

/// The place of the mapping between two meshes; none is needed where they are one.
fn map_place(direction: Direction, from: &Name, to: &Name, maps: &[MapEntry]) -> Option<u32>
    requires { length maps.now ≤ 64 }
    ensures { result ≡ map_place direction from.now to.now maps.now }
{
    if from.as_str() == to.as_str() {
        return None;
    }
    first_going(direction, from.as_str(), to.as_str(), maps)
}

fn first_going(direction: Direction, from: &str, to: &str, maps: &[MapEntry]) -> Option<u32>
    requires { length maps.now ≤ 64 }
    ensures { result ≡ position (goes direction from.now to.now) maps.now }
{
    'maps: for (index, entry) in maps.iter().enumerate() {
        if goes(direction, from, to, entry) {
            return Some(index as u32);
        }
    }
    None
}

/// Whether a mapping has this direction and these ends.
fn goes(direction: Direction, from: &str, to: &str, entry: &MapEntry) -> bool
    ensures { result ≡ goes direction from.now to.now entry.now }
{
    is_same_direction(entry.direction, direction)
        && (entry.from.as_str() == from && entry.to.as_str() == to)
}

fn is_same_direction(one: Direction, other: Direction) -> bool
    ensures { result ≡ same_direction one other }
{
    match (one, other) {
        (Direction::Read, Direction::Read) => true,
        (Direction::Write, Direction::Write) => true,
        _ => false,
    }
}
