//! The rules on meshes, and on the data on them.
ghost use Rattle.std.specs.Prelude.{◌≡◌, ◌<◌, ◌≤◌, not, map, count_by, length};
ghost use Rattle.std.specs.List.{list_any};
ghost use Rattle.std.specs.Str.{bytes_eq};
ghost use Rattle.mesh_rules.specs.Spots.{held_of, entry_of};
ghost use Rattle.mesh_rules.specs.Named.{provides, holds_of};
ghost use Rattle.mesh_rules.specs.MeshRules.{has_no_provider, is_wrongly_received, is_off_mesh, is_written_twice, writes_data};

use crate::entries::{At, EntrySpot};
use crate::named::{carries, participant_called, provides};
use cpl_config::{Config, PartTable, ReceivesEntry};

/// Whether a mesh has not exactly one provider.
pub fn has_no_provider(config: &Config, held: At) -> bool
    ensures { result ≡ has_no_provider config.now (held_of held.entry) }
{
    match held {
        At::Mesh(table) => {
            count_providers(config.participant.as_slice(), table.name.as_str()) != 1
        }
        _ => false,
    }
}

/// How many of the participants provide a mesh.
fn count_providers(parts: &[PartTable], mesh: &str) -> usize
    ensures { result ≡ count_by (λ part. provides part mesh.now) parts.now }
{
    parts.iter().filter(|part| provides(part, mesh)).count()
}

/// Whether a received mesh is not provided by the participant that it is to come from, or is
/// received by its provider, or stands among what the participant receives before.
pub fn is_wrongly_received(config: &Config, held: At) -> bool
    ensures { result ≡ is_wrongly_received config.now (held_of held.entry) }
{
    match held {
        At::Receives(table, earlier, entry) => {
            !comes_from(config, entry)
                || provides(table, entry.mesh.as_str())
                || receives_mesh(earlier, entry.mesh.as_str())
        }
        _ => false,
    }
}

/// Whether a received mesh is provided by the participant that it is to come from.
fn comes_from(config: &Config, entry: &ReceivesEntry) -> bool
    ensures { result ≡ holds_of config.now (entry.now).from (λ from. provides from (entry.now).mesh) }
{
    match participant_called(config, entry.from.as_str()) {
        Some(from) => provides(from, entry.mesh.as_str()),
        None => false,
    }
}

/// Whether some of the entries is of this mesh.
fn receives_mesh(entries: &[ReceivesEntry], mesh: &str) -> bool
    ensures { result ≡ list_any (λ other. bytes_eq other.mesh mesh.now) entries.now }
{
    'entries: for other in entries {
        if other.mesh.as_str() == mesh {
            return true;
        }
    }
    false
}

/// Whether what is written, read or exchanged is not on its mesh, or the mesh of what is written or
/// read is not provided by its participant.
pub fn is_off_mesh(config: &Config, held: At) -> bool
    ensures { result ≡ is_off_mesh config.now (held_of held.entry) }
{
    match held {
        At::Write(table, entry) => {
            !carries(config, entry.mesh.as_str(), entry.data_name.as_str())
                || !provides(table, entry.mesh.as_str())
        }
        At::Read(table, _, entry) => {
            !carries(config, entry.mesh.as_str(), entry.data_name.as_str())
                || !provides(table, entry.mesh.as_str())
        }
        At::Exchange(_, entry) => !carries(config, entry.mesh.as_str(), entry.data_name.as_str()),
        _ => false,
    }
}

/// Whether the data of a write entry stand in one of the entries before it, which are all those of
/// the configuration before it.
pub fn is_written_twice(before: &[EntrySpot], held: At) -> bool
    ensures { result ≡ is_written_twice (map entry_of before.now) (held_of held.entry) }
{
    match held {
        At::Write(_, entry) => is_written(before, entry.data_name.as_str()),
        _ => false,
    }
}

/// Whether some of the entries writes the data.
fn is_written(entries: &[EntrySpot], data_name: &str) -> bool
    ensures { result ≡ list_any (λ other. writes_data data_name.now other.held) (map entry_of entries.now) }
{
    'entries: for spot in entries {
        if writes_data(data_name, spot.at) {
            return true;
        }
    }
    false
}

fn writes_data(data_name: &str, held: At) -> bool
    ensures { result ≡ writes_data data_name.now (held_of held.entry) }
{
    match held {
        At::Write(_, entry) => entry.data_name.as_str() == data_name,
        _ => false,
    }
}
