//! The names by which a participant's calls speak of its meshes and of data.
ghost use Rattle.std.specs.Prelude.{◌≡◌, ◌<◌, length, map, All, IsTrue, IfOk, IfSome};
ghost use Rattle.participant_tables.specs.Named.{called_in, mesh_name, place_of_name};
ghost use Rattle.std.specs.Str.{bytes_eq};
ghost use Rattle.cpl_plan.specs.PlanWords.{are_distinct};
ghost use Rattle.cpl_plan.specs.declared.parts.DataPlan.{DataPlan as DataRecord};

use crate::name_table::NameTable;
use crate::places::provided;
use cpl_plan::{DataId, DataPlan, MeshId, PartId, Plan};
use fixed_num::Memory;
use std::alloc::Global;
use std::marker::Model;

/// The names by which a participant's calls speak of its meshes and of data. They are looked up by a
/// hash, which takes no memory.
#[derive(Drop)]
pub struct Names {
    meshes: NameTable,
    data_items: NameTable,
}

impl Model for Names {
    ghost use Rattle.std.specs.Prelude.{◌≤◌, length};
    ghost use Rattle.participant_tables.specs.Named.{Called};

    ghost Value = { Called };

    ghost view = { λ n. record { meshes = n.meshes; data_items = n.data_items } };

    ghost invariant = { λ n. length n.data_items ≤ 64 };
}

impl Names {
    /// The names of the meshes that the participant provides, and of all data.
    pub fn new(alloc: Global, plan: &Plan, part: PartId) -> Result<Names, Memory>
        requires { part < length plan.now.parts }
        ensures { IfOk result (λ names. names ≡ called_in plan.now part) }
    {
        Ok(Names {
            meshes: mesh_names(alloc, plan, provided(plan, part))?,
            data_items: data_names(alloc, plan.parts().data_list.as_slice())?,
        })
    }

    /// The place of the mesh of a name among those that the participant provides.
    pub fn mesh(&self, name: &str) -> Option<usize>
        ensures place { result ≡ place_of_name self.now.meshes name.now }
        ensures within { IfSome result (λ place. place < length self.now.meshes) }
    {
        self.meshes.place(name)
    }

    /// The number of the data of a name.
    pub fn data_item(&self, name: &str) -> Option<DataId>
        ensures { result ≡ place_of_name self.now.data_items name.now }
    {
        match self.data_items.place(name) {
            Some(place) => Some(place as u32),
            None => None,
        }
    }
}

/// The names of meshes, which are apart.
fn mesh_names(alloc: Global, plan: &Plan, provides: &[MeshId]) -> Result<NameTable, Memory>
    requires there { All (λ mesh. mesh < length plan.now.meshes) provides.now }
    requires apart { IsTrue (are_distinct bytes_eq (map (mesh_name plan.now) provides.now)) }
    ensures { IfOk result (λ names. names ≡ map (mesh_name plan.now) provides.now) }
{
    let mut names = NameTable::new(alloc);
    'meshes: for mesh in provides {
        names.add(alloc, plan.mesh_name(*mesh))?;
    }
    Ok(names)
}

/// The names of data, which are apart.
fn data_names(alloc: Global, items: &[DataPlan]) -> Result<NameTable, Memory>
    requires { IsTrue (are_distinct bytes_eq (map (λ (item : DataRecord). item.name) items.now)) }
    ensures { IfOk result (λ names. names ≡ map (λ (item : DataRecord). item.name) items.now) }
{
    let mut names = NameTable::new(alloc);
    'items: for item in items {
        names.add(alloc, &item.name)?;
    }
    Ok(names)
}
