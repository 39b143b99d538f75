//! The participants of a plan.
ghost use Rattle.std.specs.Prelude.{◌≡◌, ◌≤◌, ◌&&◌, IfOk, length, map, position};
ghost use Rattle.cpl_config.specs.declared.config.ReceivesEntry.{ReceivesEntry as ReceivesRecord};
ghost use Rattle.config_rules.specs.Members.{is_implicit, is_member};
ghost use Rattle.scheme_parts.specs.NumbersOf.{mesh_number};
ghost use Rattle.plan_build.specs.PartOf.{part_of, entry_of, map_of, watch_of, group_of, is_reading, is_conservative, is_projection};

use config_rules::groups::{is_implicit, is_member};
use cpl_config::{
    Constraint, DataEntry, Direction, MapEntry, MapWord, PartTable, ReceivesEntry, SchemeTable,
    WatchEntry,
};
use cpl_plan::{MapPlan, MeshId, Part, PlanEntry, SchemeId, Watch};
use fixed_num::{Items, Memory, Name};
use scheme_parts::NumberedConfig;
use std::alloc::Global;

pub(crate) fn participants(
    alloc: Global,
    config: &NumberedConfig,
    tables: &[PartTable],
) -> Result<Vec<Part>, Memory>
    ensures { IfOk result (λ parts. parts.items ≡ map (part_of config.now) tables.now) }
{
    let mut parts = Vec::with_capacity(alloc, tables.len())?;
    'tables: for table in tables {
        parts.push(part_of(alloc, config, table)?)?;
    }
    Ok(parts)
}

fn part_of(alloc: Global, config: &NumberedConfig, table: &PartTable) -> Result<Part, Memory>
    ensures { IfOk result (λ part. part ≡ part_of config.now table.now) }
{
    Ok(Part {
        name: table.name.copy(alloc)?,
        provides: Items::from_vec(mesh_numbers(alloc, config, table.provides.as_slice())?),
        receives: Items::from_vec(received(alloc, config, table.receives.as_slice())?),
        writes: Items::from_vec(entries(alloc, config, table.write.as_slice())?),
        reads: Items::from_vec(entries(alloc, config, table.read.as_slice())?),
        maps: Items::from_vec(maps(alloc, config, table.map.as_slice())?),
        watches: Items::from_vec(watches(alloc, config, table.watch.as_slice())?),
        group: group_of(config, &table.name),
    })
}

fn mesh_numbers(
    alloc: Global,
    config: &NumberedConfig,
    names: &[Name],
) -> Result<Vec<MeshId>, Memory>
    ensures { IfOk result (λ numbers. numbers.items ≡ map (mesh_number config.now) names.now) }
{
    let mut numbers = Vec::with_capacity(alloc, names.len())?;
    'names: for name in names {
        numbers.push(config.mesh_number(name))?;
    }
    Ok(numbers)
}

fn received(
    alloc: Global,
    config: &NumberedConfig,
    entries: &[ReceivesEntry],
) -> Result<Vec<MeshId>, Memory>
    ensures { IfOk result (λ numbers. numbers.items ≡ map (λ (entry : ReceivesRecord). mesh_number config.now entry.mesh) entries.now) }
{
    let mut numbers = Vec::with_capacity(alloc, entries.len())?;
    'entries: for entry in entries {
        numbers.push(config.mesh_number(&entry.mesh))?;
    }
    Ok(numbers)
}

fn entries(
    alloc: Global,
    config: &NumberedConfig,
    entries: &[DataEntry],
) -> Result<Vec<PlanEntry>, Memory>
    ensures { IfOk result (λ numbered. numbered.items ≡ map (entry_of config.now) entries.now) }
{
    let mut numbered = Vec::with_capacity(alloc, entries.len())?;
    'entries: for entry in entries {
        numbered.push(PlanEntry {
            data_id: config.data_number(&entry.data_name),
            mesh: config.mesh_number(&entry.mesh),
        })?;
    }
    Ok(numbered)
}

fn maps(
    alloc: Global,
    config: &NumberedConfig,
    entries: &[MapEntry],
) -> Result<Vec<MapPlan>, Memory>
    ensures { IfOk result (λ maps. maps.items ≡ map (map_of config.now) entries.now) }
{
    let mut maps = Vec::with_capacity(alloc, entries.len())?;
    'entries: for entry in entries {
        maps.push(map_of(config, entry))?;
    }
    Ok(maps)
}

fn map_of(config: &NumberedConfig, entry: &MapEntry) -> MapPlan
    ensures { result ≡ map_of config.now entry.now }
{
    MapPlan {
        reading: is_reading(entry.direction),
        from: config.mesh_number(&entry.from),
        to: config.mesh_number(&entry.to),
        conservative: is_conservative(entry.constraint),
        projection: is_projection(entry.method),
    }
}

fn is_reading(direction: Direction) -> bool
    ensures { result ≡ is_reading direction }
{
    match direction {
        Direction::Read => true,
        Direction::Write => false,
    }
}

fn is_conservative(constraint: Constraint) -> bool
    ensures { result ≡ is_conservative constraint }
{
    match constraint {
        Constraint::Consistent => false,
        Constraint::Conservative => true,
    }
}

fn is_projection(method: MapWord) -> bool
    ensures { result ≡ is_projection method }
{
    match method {
        MapWord::NearestNeighbor => false,
        MapWord::NearestProjection => true,
    }
}

fn watches(
    alloc: Global,
    config: &NumberedConfig,
    entries: &[WatchEntry],
) -> Result<Vec<Watch>, Memory>
    ensures { IfOk result (λ watches. watches.items ≡ map (watch_of config.now) entries.now) }
{
    let mut watches = Vec::with_capacity(alloc, entries.len())?;
    'entries: for entry in entries {
        watches.push(watch_of(alloc, config, entry)?)?;
    }
    Ok(watches)
}

fn watch_of(alloc: Global, config: &NumberedConfig, entry: &WatchEntry) -> Result<Watch, Memory>
    ensures { IfOk result (λ watch. watch ≡ watch_of config.now entry.now) }
{
    Ok(Watch {
        name: entry.name.copy(alloc)?,
        mesh: config.mesh_number(&entry.mesh),
        at: entry.at.copy(alloc)?,
    })
}

/// The implicit scheme of which a participant is a member.
fn group_of(config: &NumberedConfig, name: &Name) -> Option<SchemeId>
    ensures { result ≡ group_of config.now name.now }
{
    first_group(config.config().scheme.as_slice(), name.as_str())
}

fn first_group(tables: &[SchemeTable], name: &str) -> Option<SchemeId>
    requires { length tables.now ≤ 64 }
    ensures { result ≡ position (λ table. is_implicit table && is_member name.now table) tables.now }
{
    'tables: for (index, table) in tables.iter().enumerate() {
        if is_implicit(table) && is_member(name, table) {
            return Some(index as u32);
        }
    }
    None
}
