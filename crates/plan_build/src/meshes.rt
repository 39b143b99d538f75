//! The meshes of a plan.
ghost use Rattle.std.specs.Prelude.{◌≡◌, ◌≤◌, ◌<◌, All, IfOk, length, map, position};
ghost use Rattle.cpl_config.specs.SoundConfig.{IsSoundMesh};
ghost use Rattle.mesh_rules.specs.Named.{provides};
ghost use Rattle.scheme_parts.specs.NumbersOf.{data_number};
ghost use Rattle.plan_build.specs.MeshOf.{mesh_of, owner_of};

use cpl_config::{MeshTable, PartTable};
use cpl_plan::{DataId, MeshPlan, PartId};
use fixed_num::{Items, Memory, Name};
use mesh_rules::named::provides;
use scheme_parts::NumberedConfig;
use std::alloc::Global;

pub(crate) fn meshes(
    alloc: Global,
    config: &NumberedConfig,
    tables: &[MeshTable],
) -> Result<Vec<MeshPlan>, Memory>
    requires { All IsSoundMesh tables.now }
    ensures { IfOk result (λ meshes. meshes.items ≡ map (mesh_of config.now) tables.now) }
{
    let mut meshes = Vec::with_capacity(alloc, tables.len())?;
    'tables: for table in tables {
        meshes.push(mesh_of(alloc, config, table)?)?;
    }
    Ok(meshes)
}

fn mesh_of(alloc: Global, config: &NumberedConfig, table: &MeshTable) -> Result<MeshPlan, Memory>
    requires { IsSoundMesh table.now }
    ensures { IfOk result (λ mesh. mesh ≡ mesh_of config.now table.now) }
{
    Ok(MeshPlan {
        name: table.name.copy(alloc)?,
        dimensions: table.dimensions.unsigned_abs() as u32,
        owner: owner_of(config, &table.name),
        data_list: Items::from_vec(data_numbers(alloc, config, table.data_list.as_slice())?),
    })
}

/// The participant that provides a mesh; 0 where none does.
fn owner_of(config: &NumberedConfig, mesh: &Name) -> PartId
    ensures { result ≡ owner_of config.now mesh.now }
{
    match first_provider(config.config().participant.as_slice(), mesh.as_str()) {
        Some(part) => part,
        None => 0,
    }
}

fn first_provider(tables: &[PartTable], mesh: &str) -> Option<u32>
    requires { length tables.now ≤ 64 }
    ensures { result ≡ position (λ table. provides table mesh.now) tables.now }
{
    'tables: for (index, table) in tables.iter().enumerate() {
        if provides(table, mesh) {
            return Some(index as u32);
        }
    }
    None
}

fn data_numbers(
    alloc: Global,
    config: &NumberedConfig,
    names: &[Name],
) -> Result<Vec<DataId>, Memory>
    ensures { IfOk result (λ numbers. numbers.items ≡ map (data_number config.now) names.now) }
{
    let mut numbers = Vec::with_capacity(alloc, names.len())?;
    'names: for name in names {
        numbers.push(config.data_number(name))?;
    }
    Ok(numbers)
}
