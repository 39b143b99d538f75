//! What a configuration's names stand for, and what the meshes and the participants have by them.
ghost use Rattle.std.specs.Prelude.{◌≡◌, option_map};
ghost use Rattle.mesh_rules.specs.Named.{data_called, mesh_called, participant_called, is_data, is_mesh, is_participant, is_declared, is_among, carries, dimensions_of, provides, receives};

use cpl_config::{Config, DataTable, MeshTable, PartTable};
use fixed_num::Name;

/// What a name is a name of.
#[derive(Clone, Copy)]
pub(crate) enum NameOf {
    Data,
    Mesh,
    Participant,
}

/// The data of a name.
pub fn data_called<'a>(config: &'a Config, name: &str) -> Option<&'a DataTable>
    ensures { option_map (λ table. table.now) result ≡ data_called config.now name.now }
{
    'tables: for table in config.data_list.as_slice() {
        if table.name.as_str() == name {
            return Some(table);
        }
    }
    None
}

/// The mesh of a name.
pub fn mesh_called<'a>(config: &'a Config, name: &str) -> Option<&'a MeshTable>
    ensures { option_map (λ table. table.now) result ≡ mesh_called config.now name.now }
{
    'tables: for table in config.mesh.as_slice() {
        if table.name.as_str() == name {
            return Some(table);
        }
    }
    None
}

/// The participant of a name.
pub fn participant_called<'a>(config: &'a Config, name: &str) -> Option<&'a PartTable>
    ensures { option_map (λ table. table.now) result ≡ participant_called config.now name.now }
{
    'tables: for table in config.participant.as_slice() {
        if table.name.as_str() == name {
            return Some(table);
        }
    }
    None
}

/// Whether there are data of a name.
pub fn is_data(config: &Config, name: &str) -> bool
    ensures { result ≡ is_data config.now name.now }
{
    data_called(config, name).is_some()
}

/// Whether there is a mesh of a name.
pub fn is_mesh(config: &Config, name: &str) -> bool
    ensures { result ≡ is_mesh config.now name.now }
{
    mesh_called(config, name).is_some()
}

/// Whether there is a participant of a name.
pub fn is_participant(config: &Config, name: &str) -> bool
    ensures { result ≡ is_participant config.now name.now }
{
    participant_called(config, name).is_some()
}

/// Whether there is one of a name, of what the name is a name of.
pub(crate) fn is_declared(config: &Config, of: NameOf, name: &str) -> bool
    ensures { result ≡ is_declared config.now of name.now }
{
    match of {
        NameOf::Data => is_data(config, name),
        NameOf::Mesh => is_mesh(config, name),
        NameOf::Participant => is_participant(config, name),
    }
}

/// Whether a name is one of some names.
pub fn is_among(name: &str, names: &[Name]) -> bool
    ensures { result ≡ is_among name.now names.now }
{
    'names: for other in names {
        if name == other.as_str() {
            return true;
        }
    }
    false
}

/// Whether the mesh of a name carries the data of a name.
pub fn carries(config: &Config, mesh: &str, data_name: &str) -> bool
    ensures { result ≡ carries config.now mesh.now data_name.now }
{
    match mesh_called(config, mesh) {
        Some(table) => is_among(data_name, table.data_list.as_slice()),
        None => false,
    }
}

/// How many dimensions the mesh of a name has; 0 where there is none.
pub fn dimensions_of(config: &Config, mesh: &str) -> i64
    ensures { result ≡ dimensions_of config.now mesh.now }
{
    match mesh_called(config, mesh) {
        Some(table) => table.dimensions,
        None => 0,
    }
}

/// Whether a participant provides the mesh of a name.
pub fn provides(part: &PartTable, mesh: &str) -> bool
    ensures { result ≡ provides part.now mesh.now }
{
    is_among(mesh, part.provides.as_slice())
}

/// Whether a participant receives the mesh of a name.
pub fn receives(part: &PartTable, mesh: &str) -> bool
    ensures { result ≡ receives part.now mesh.now }
{
    'entries: for entry in part.receives.as_slice() {
        if mesh == entry.mesh.as_str() {
            return true;
        }
    }
    false
}
