//! The entries of a configuration, in the order of their places.
ghost use Rattle.std.specs.Prelude.{◌≡◌, ◌++◌, map, option_map, IfOk, OnOk};
ghost use Rattle.mesh_rules.specs.Entries.{at, received_entries, written_entries, read_entries, mapped_entries, watched_entries, acted_entries, entries_of_participant, exchanged_entries, measured_entries, accelerated_entries, entries_of_scheme, data_entries, mesh_entries, participant_entries, scheme_entries, entries_of};
ghost use Rattle.mesh_rules.specs.Spots.{held_of, entry_of};

use cpl_config::{
    AccelEntry, ActionEntry, Config, DataEntry, DataTable, ExchangeEntry, MapEntry, MeasureEntry,
    MeshTable, PartTable, ReceivesEntry, SchemeTable, WatchEntry,
};
use cpl_tables::{Place, number_at};
use fixed_num::Memory;
use std::alloc::Global;

/// What stands at a place of a configuration: a table, with the one that holds it, and those of its
/// list that stand before it.
#[derive(Clone, Copy)]
pub enum At<'a> {
    Whole(&'a Config),
    Data(&'a DataTable),
    Mesh(&'a MeshTable),
    Participant(&'a PartTable),
    Receives(&'a PartTable, &'a [ReceivesEntry], &'a ReceivesEntry),
    Write(&'a PartTable, &'a DataEntry),
    Read(&'a PartTable, &'a [DataEntry], &'a DataEntry),
    Map(&'a PartTable, &'a [MapEntry], &'a MapEntry),
    Watch(&'a PartTable, &'a WatchEntry),
    Action(&'a PartTable, &'a [ActionEntry], &'a ActionEntry),
    Scheme(&'a [SchemeTable], &'a SchemeTable),
    Exchange(&'a SchemeTable, &'a ExchangeEntry),
    Measure(&'a SchemeTable, &'a MeasureEntry),
    Acceleration(&'a SchemeTable, &'a AccelEntry),
}

/// An entry of a configuration, with its place.
#[derive(Clone, Copy)]
pub struct EntrySpot<'a> {
    pub place: Place,
    pub at: At<'a>,
}

/// The entries of a configuration, in the order of their places: its own table, the data, the
/// meshes, each participant with what it receives, writes, reads, maps and watches and with its
/// actions, and each scheme with its exchanges, measures and acceleration. Takes linear time.
pub fn entries(alloc: Global, config: &Config) -> Result<Vec<EntrySpot<'_>>, Memory>
    ensures { IfOk result (λ spots. map entry_of spots.items ≡ entries_of config.now) }
{
    let mut spots = Vec::new(alloc);
    push_at(Place::Config, At::Whole(config), &mut spots)?;
    push_data(config, &mut spots)?;
    push_meshes(config, &mut spots)?;
    push_participants(config, &mut spots)?;
    push_schemes(config, &mut spots)?;
    Ok(spots)
}

/// Adds an entry.
fn push_at<'a>(place: Place, held: At<'a>, to: &mut Vec<EntrySpot<'a>>) -> Result<(), Memory>
    ensures { OnOk result (map entry_of to.new.items ≡ map entry_of to.old.items ++ at place (held_of held.entry)) }
{
    to.push(EntrySpot { place, at: held })?;
    Ok(())
}

/// Adds the data.
fn push_data<'a>(config: &'a Config, to: &mut Vec<EntrySpot<'a>>) -> Result<(), Memory>
    ensures { OnOk result (map entry_of to.new.items ≡ map entry_of to.old.items ++ data_entries config.now) }
{
    let items = config.data_list.as_slice();
    'items: for (index, item) in items.iter().enumerate() {
        push_at(Place::DataTable(number_at(index)), At::Data(item), to)?;
    }
    Ok(())
}

/// Adds the meshes.
fn push_meshes<'a>(config: &'a Config, to: &mut Vec<EntrySpot<'a>>) -> Result<(), Memory>
    ensures { OnOk result (map entry_of to.new.items ≡ map entry_of to.old.items ++ mesh_entries config.now) }
{
    let items = config.mesh.as_slice();
    'items: for (index, item) in items.iter().enumerate() {
        push_at(Place::MeshTable(number_at(index)), At::Mesh(item), to)?;
    }
    Ok(())
}

/// Adds the participants, each followed by the entries in it.
fn push_participants<'a>(config: &'a Config, to: &mut Vec<EntrySpot<'a>>) -> Result<(), Memory>
    ensures { OnOk result (map entry_of to.new.items ≡ map entry_of to.old.items ++ participant_entries config.now) }
{
    let items = config.participant.as_slice();
    'items: for (index, item) in items.iter().enumerate() {
        push_participant(number_at(index), item, to)?;
    }
    Ok(())
}

/// Adds the schemes, each followed by the entries in it.
fn push_schemes<'a>(config: &'a Config, to: &mut Vec<EntrySpot<'a>>) -> Result<(), Memory>
    ensures { OnOk result (map entry_of to.new.items ≡ map entry_of to.old.items ++ scheme_entries config.now) }
{
    let items = config.scheme.as_slice();
    'items: for (index, item) in items.iter().enumerate() {
        push_scheme(number_at(index), &items[..index], item, to)?;
    }
    Ok(())
}

/// Adds a participant and the entries in it.
fn push_participant<'a>(
    part: u32,
    table: &'a PartTable,
    to: &mut Vec<EntrySpot<'a>>,
) -> Result<(), Memory>
    ensures { OnOk result (map entry_of to.new.items ≡ map entry_of to.old.items ++ entries_of_participant part table.now) }
{
    push_at(Place::Participant(part), At::Participant(table), to)?;
    push_received(part, table, to)?;
    push_written(part, table, to)?;
    push_read(part, table, to)?;
    push_mapped(part, table, to)?;
    push_watched(part, table, to)?;
    push_acted(part, table, to)
}

/// Adds the meshes that a participant receives.
fn push_received<'a>(
    part: u32,
    table: &'a PartTable,
    to: &mut Vec<EntrySpot<'a>>,
) -> Result<(), Memory>
    ensures { OnOk result (map entry_of to.new.items ≡ map entry_of to.old.items ++ received_entries part table.now) }
{
    let items = table.receives.as_slice();
    'items: for (index, item) in items.iter().enumerate() {
        let place = Place::Receives(part, number_at(index));
        push_at(place, At::Receives(table, &items[..index], item), to)?;
    }
    Ok(())
}

/// Adds what a participant writes.
fn push_written<'a>(
    part: u32,
    table: &'a PartTable,
    to: &mut Vec<EntrySpot<'a>>,
) -> Result<(), Memory>
    ensures { OnOk result (map entry_of to.new.items ≡ map entry_of to.old.items ++ written_entries part table.now) }
{
    let items = table.write.as_slice();
    'items: for (index, item) in items.iter().enumerate() {
        let place = Place::Write(part, number_at(index));
        push_at(place, At::Write(table, item), to)?;
    }
    Ok(())
}

/// Adds what a participant reads.
fn push_read<'a>(part: u32, table: &'a PartTable, to: &mut Vec<EntrySpot<'a>>) -> Result<(), Memory>
    ensures { OnOk result (map entry_of to.new.items ≡ map entry_of to.old.items ++ read_entries part table.now) }
{
    let items = table.read.as_slice();
    'items: for (index, item) in items.iter().enumerate() {
        let place = Place::Read(part, number_at(index));
        push_at(place, At::Read(table, &items[..index], item), to)?;
    }
    Ok(())
}

/// Adds the mappings of a participant.
fn push_mapped<'a>(
    part: u32,
    table: &'a PartTable,
    to: &mut Vec<EntrySpot<'a>>,
) -> Result<(), Memory>
    ensures { OnOk result (map entry_of to.new.items ≡ map entry_of to.old.items ++ mapped_entries part table.now) }
{
    let items = table.map.as_slice();
    'items: for (index, item) in items.iter().enumerate() {
        let place = Place::Map(part, number_at(index));
        push_at(place, At::Map(table, &items[..index], item), to)?;
    }
    Ok(())
}

/// Adds the watch-points of a participant.
fn push_watched<'a>(
    part: u32,
    table: &'a PartTable,
    to: &mut Vec<EntrySpot<'a>>,
) -> Result<(), Memory>
    ensures { OnOk result (map entry_of to.new.items ≡ map entry_of to.old.items ++ watched_entries part table.now) }
{
    let items = table.watch.as_slice();
    'items: for (index, item) in items.iter().enumerate() {
        let place = Place::Watch(part, number_at(index));
        push_at(place, At::Watch(table, item), to)?;
    }
    Ok(())
}

/// Adds the actions of a participant.
fn push_acted<'a>(
    part: u32,
    table: &'a PartTable,
    to: &mut Vec<EntrySpot<'a>>,
) -> Result<(), Memory>
    ensures { OnOk result (map entry_of to.new.items ≡ map entry_of to.old.items ++ acted_entries part table.now) }
{
    let items = table.action.as_slice();
    'items: for (index, item) in items.iter().enumerate() {
        let place = Place::Action(part, number_at(index));
        push_at(place, At::Action(table, &items[..index], item), to)?;
    }
    Ok(())
}

/// Adds a scheme, after the earlier ones, and the entries in it.
fn push_scheme<'a>(
    scheme: u32,
    earlier: &'a [SchemeTable],
    table: &'a SchemeTable,
    to: &mut Vec<EntrySpot<'a>>,
) -> Result<(), Memory>
    ensures { OnOk result (map entry_of to.new.items ≡ map entry_of to.old.items ++ entries_of_scheme scheme earlier.now table.now) }
{
    push_at(Place::Scheme(scheme), At::Scheme(earlier, table), to)?;
    push_exchanged(scheme, table, to)?;
    push_measured(scheme, table, to)?;
    push_accelerated(scheme, table, to)
}

/// Adds the exchanges of a scheme.
fn push_exchanged<'a>(
    scheme: u32,
    table: &'a SchemeTable,
    to: &mut Vec<EntrySpot<'a>>,
) -> Result<(), Memory>
    ensures { OnOk result (map entry_of to.new.items ≡ map entry_of to.old.items ++ exchanged_entries scheme table.now) }
{
    let items = table.exchange.as_slice();
    'items: for (index, item) in items.iter().enumerate() {
        let place = Place::Exchange(scheme, number_at(index));
        push_at(place, At::Exchange(table, item), to)?;
    }
    Ok(())
}

/// Adds the measures of a scheme.
fn push_measured<'a>(
    scheme: u32,
    table: &'a SchemeTable,
    to: &mut Vec<EntrySpot<'a>>,
) -> Result<(), Memory>
    ensures { OnOk result (map entry_of to.new.items ≡ map entry_of to.old.items ++ measured_entries scheme table.now) }
{
    let items = table.measure.as_slice();
    'items: for (index, item) in items.iter().enumerate() {
        let place = Place::Measure(scheme, number_at(index));
        push_at(place, At::Measure(table, item), to)?;
    }
    Ok(())
}

/// Adds the acceleration of a scheme that has one.
fn push_accelerated<'a>(
    scheme: u32,
    table: &'a SchemeTable,
    to: &mut Vec<EntrySpot<'a>>,
) -> Result<(), Memory>
    ensures { OnOk result (map entry_of to.new.items ≡ map entry_of to.old.items ++ accelerated_entries scheme table.now (table.now).acceleration) }
{
    match &table.acceleration {
        Some(entry) => push_at(
            Place::Acceleration(scheme),
            At::Acceleration(table, entry),
            to,
        ),
        None => Ok(()),
    }
}
