//! The rules on exchanges: their ends, their meshes, and what they feed.
ghost use Rattle.std.specs.Prelude.{◌≡◌, ◌==◌, count_by};
ghost use Rattle.std.specs.List.{list_any};
ghost use Rattle.std.specs.Str.{bytes_eq};
ghost use Rattle.cpl_config.specs.SoundConfig.{all_exchanges};
ghost use Rattle.mesh_rules.specs.Named.{provides, receives, holds_of};
ghost use Rattle.mesh_rules.specs.Spots.{held_of};
ghost use Rattle.config_rules.specs.SchemeRules.{has_wrong_ends, hands_over, is_unshared, writes, reads, is_unused, feeds, is_wrongly_fed, is_unfed};

use crate::groups::is_member;
use cpl_config::{Config, DataEntry, ExchangeEntry};
use mesh_rules::At;
use mesh_rules::named::{participant_called, provides, receives};

/// Whether an exchange's ends are not two members of its scheme.
pub fn has_wrong_ends(held: At) -> bool
    ensures { result ≡ has_wrong_ends (held_of held.entry) }
{
    match held {
        At::Exchange(table, entry) => {
            entry.from.as_str() == entry.to.as_str()
                || (!is_member(entry.from.as_str(), table) || !is_member(entry.to.as_str(), table))
        }
        _ => false,
    }
}

/// Whether an exchange's mesh is not provided by one end and received by the other.
pub fn is_unshared(config: &Config, held: At) -> bool
    ensures { result ≡ is_unshared config.now (held_of held.entry) }
{
    match held {
        At::Exchange(_, entry) => {
            let from = entry.from.as_str();
            let to = entry.to.as_str();
            let mesh = entry.mesh.as_str();
            !(hands_over(config, from, to, mesh) || hands_over(config, to, from, mesh))
        }
        _ => false,
    }
}

/// Whether one participant provides a mesh, and the other receives it.
fn hands_over(config: &Config, owner: &str, other: &str, mesh: &str) -> bool
    ensures { result ≡ hands_over config.now owner.now other.now mesh.now }
{
    is_provided_by(config, owner, mesh) && is_received_by(config, other, mesh)
}

fn is_provided_by(config: &Config, name: &str, mesh: &str) -> bool
    ensures { result ≡ holds_of config.now name.now (λ table. provides table mesh.now) }
{
    match participant_called(config, name) {
        Some(table) => provides(table, mesh),
        None => false,
    }
}

fn is_received_by(config: &Config, name: &str, mesh: &str) -> bool
    ensures { result ≡ holds_of config.now name.now (λ table. receives table mesh.now) }
{
    match participant_called(config, name) {
        Some(table) => receives(table, mesh),
        None => false,
    }
}

/// Whether an exchange's data are not written by the one that they come from, or not read by the
/// one that they go to.
pub fn is_unused(config: &Config, held: At) -> bool
    ensures { result ≡ is_unused config.now (held_of held.entry) }
{
    match held {
        At::Exchange(_, entry) => {
            let data_name = entry.data_name.as_str();
            !is_written_by(config, entry.from.as_str(), data_name)
                || !is_read_by(config, entry.to.as_str(), data_name)
        }
        _ => false,
    }
}

fn is_written_by(config: &Config, name: &str, data_name: &str) -> bool
    ensures { result ≡ holds_of config.now name.now (writes data_name.now) }
{
    match participant_called(config, name) {
        Some(table) => has_data(data_name, table.write.as_slice()),
        None => false,
    }
}

fn is_read_by(config: &Config, name: &str, data_name: &str) -> bool
    ensures { result ≡ holds_of config.now name.now (reads data_name.now) }
{
    match participant_called(config, name) {
        Some(table) => has_data(data_name, table.read.as_slice()),
        None => false,
    }
}

/// Whether some of the entries is of the data.
fn has_data(data_name: &str, entries: &[DataEntry]) -> bool
    ensures { result ≡ list_any (λ entry. bytes_eq entry.data_name data_name.now) entries.now }
{
    'entries: for entry in entries {
        if entry.data_name.as_str() == data_name {
            return true;
        }
    }
    false
}

/// Whether a participant reads data that it reads already, or that not exactly one exchange
/// carries to it.
pub fn is_unfed(config: &Config, held: At) -> bool
    ensures { result ≡ is_unfed config.now (held_of held.entry) }
{
    match held {
        At::Read(table, earlier, entry) => is_wrongly_fed(
            config,
            table.name.as_str(),
            earlier,
            entry.data_name.as_str(),
        ),
        _ => false,
    }
}

/// Whether some of the earlier entries is of the data, or not exactly one exchange carries them to
/// the reader.
fn is_wrongly_fed(config: &Config, reader: &str, earlier: &[DataEntry], data_name: &str) -> bool
    ensures { result ≡ is_wrongly_fed config.now reader.now earlier.now data_name.now }
{
    has_data(data_name, earlier) || !is_fed_once(config, reader, data_name)
}

/// Whether exactly one exchange of the whole file carries the data to the reader.
fn is_fed_once(config: &Config, reader: &str, data_name: &str) -> bool
    ensures { result ≡ (count_by (feeds reader.now data_name.now) (all_exchanges config.now) == 1) }
{
    let mut count = 0;
    'tables: for table in config.scheme.as_slice() {
        count += count_feeding(reader, data_name, table.exchange.as_slice());
        if 1 < count {
            return false;
        }
    }
    count == 1
}

/// How many of the exchanges carry the data to the reader.
fn count_feeding(reader: &str, data_name: &str, entries: &[ExchangeEntry]) -> usize
    ensures { result ≡ count_by (feeds reader.now data_name.now) entries.now }
{
    let mut count = 0;
    'entries: for entry in entries {
        if entry.to.as_str() == reader && entry.data_name.as_str() == data_name {
            count += 1;
        }
    }
    count
}
