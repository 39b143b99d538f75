//! A configuration whose names are numbered.
ghost use Rattle.std.specs.Prelude.{◌≡◌, ◌≤◌, IsTrue, length, map, IfOk, IfSome, option_map};
ghost use Rattle.mesh_rules.specs.Named.{participant_called};
ghost use Rattle.cpl_tables.specs.Values.{are_distinct_texts};
ghost use Rattle.cpl_config.specs.SoundConfig.{IsSoundConfig};
ghost use Rattle.cpl_config.specs.declared.config.DataTable.{DataTable as DataRecord};
ghost use Rattle.cpl_config.specs.declared.config.MeshTable.{MeshTable as MeshRecord};
ghost use Rattle.cpl_config.specs.declared.config.PartTable.{PartTable as PartRecord};
ghost use Rattle.scheme_parts.specs.NumbersOf.{data_number, mesh_number, part_number};

use crate::name_table::NameTable;
use cpl_config::{Config, DataTable, MeshTable, PartTable};
use cpl_plan::{DataId, MeshId, PartId};
use fixed_num::{Memory, Name};
use std::alloc::Global;
use std::marker::Model;

/// A sound configuration, which contracts see as itself, with tables of the names that it declares.
#[derive(Drop)]
pub struct NumberedConfig<'a> {
    config: &'a Config,
    data_items: NameTable,
    meshes: NameTable,
    parts: NameTable,
}

impl<'a> Model for NumberedConfig<'a> {
    ghost use Rattle.cpl_config.specs.declared.config.Config.{Config as ConfigRecord};
    ghost use Rattle.cpl_config.specs.SoundConfig.{IsSoundConfig};
    ghost use Rattle.scheme_parts.specs.Names.{AreNamesOf};

    ghost Value = { ConfigRecord };

    ghost view = { λ n. n.config.now };

    ghost invariant = { λ n. IsSoundConfig n.config.now × AreNamesOf n.config.now n.data_items n.meshes n.parts };
}

impl<'a> NumberedConfig<'a> {
    /// The configuration with its names numbered, in time near linear in their number.
    pub fn new(alloc: Global, config: &'a Config) -> Result<NumberedConfig<'a>, Memory>
        requires { IsSoundConfig config.now }
        ensures { IfOk result (λ numbered. numbered ≡ config.now) }
    {
        Ok(NumberedConfig {
            config,
            data_items: data_table(alloc, config.data_list.as_slice())?,
            meshes: mesh_table(alloc, config.mesh.as_slice())?,
            parts: part_table(alloc, config.participant.as_slice())?,
        })
    }

    /// The configuration itself.
    pub fn config(&self) -> &'a Config
        ensures same { result.now ≡ self.now }
        ensures sound { IsSoundConfig result.now }
    {
        self.config
    }

    /// The number of the data of a name.
    pub fn data_number(&self, name: &Name) -> DataId
        ensures { result ≡ data_number self.now name.now }
    {
        self.data_items.number(name)
    }

    /// The number of the mesh of a name.
    pub fn mesh_number(&self, name: &Name) -> MeshId
        ensures { result ≡ mesh_number self.now name.now }
    {
        self.meshes.number(name)
    }

    /// The number of the participant of a name.
    pub fn part_number(&self, name: &Name) -> PartId
        ensures { result ≡ part_number self.now name.now }
    {
        self.parts.number(name)
    }

    /// The participant of a name.
    pub fn participant(&self, name: &Name) -> Option<&'a PartTable>
        ensures called { option_map (λ table. table.now) result ≡ participant_called self.now name.now }
        ensures few_maps { IfSome result (λ table. length (table.now).map ≤ 64) }
    {
        match self.parts.place(name) {
            Some(place) => self.config.participant.as_slice().get(place),
            None => None,
        }
    }
}

fn data_table(alloc: Global, tables: &[DataTable]) -> Result<NameTable, Memory>
    requires { IsTrue (are_distinct_texts (map (λ (table : DataRecord). table.name) tables.now)) }
    ensures { IfOk result (λ names. names ≡ map (λ (table : DataRecord). table.name) tables.now) }
{
    let mut names = NameTable::new(alloc);
    'tables: for table in tables {
        names.add(alloc, &table.name)?;
    }
    Ok(names)
}

fn mesh_table(alloc: Global, tables: &[MeshTable]) -> Result<NameTable, Memory>
    requires { IsTrue (are_distinct_texts (map (λ (table : MeshRecord). table.name) tables.now)) }
    ensures { IfOk result (λ names. names ≡ map (λ (table : MeshRecord). table.name) tables.now) }
{
    let mut names = NameTable::new(alloc);
    'tables: for table in tables {
        names.add(alloc, &table.name)?;
    }
    Ok(names)
}

fn part_table(alloc: Global, tables: &[PartTable]) -> Result<NameTable, Memory>
    requires { IsTrue (are_distinct_texts (map (λ (table : PartRecord). table.name) tables.now)) }
    ensures { IfOk result (λ names. names ≡ map (λ (table : PartRecord). table.name) tables.now) }
{
    let mut names = NameTable::new(alloc);
    'tables: for table in tables {
        names.add(alloc, &table.name)?;
    }
    Ok(names)
}
