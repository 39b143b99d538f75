//! The rule on the actions of a participant.
ghost use Rattle.std.specs.Prelude.{◌≡◌, not, ◌&&◌, option_map};
ghost use Rattle.std.specs.List.{list_any};
ghost use Rattle.mesh_rules.specs.Named.{is_among};
ghost use Rattle.mesh_rules.specs.Spots.{held_of};
ghost use Rattle.mesh_rules.specs.ActionRules.{writes_on, acts_elsewhere, is_target_of, is_source_of, is_same_kind, kind_called, mixes_kinds, is_wrong_action};

use crate::entries::At;
use crate::named::{data_called, is_among};
use cpl_config::{ActionEntry, Config, DataKind, PartTable};
use fixed_num::Name;

/// Whether an action has no source; whether its target or a source is not written by its participant
/// on its mesh; whether its target is among its own sources, is that of an action before it or is a
/// source of any action of the participant; or whether the data are not all of one kind.
pub fn is_wrong_action(config: &Config, held: At) -> bool
    ensures { result ≡ is_wrong_action config.now (held_of held.entry) }
{
    match held {
        At::Action(table, earlier, entry) => {
            (entry.sources.len() == 0 || acts_elsewhere(table, entry))
                || (is_among(entry.target.as_str(), entry.sources.as_slice())
                    || is_target_of(entry.target.as_str(), earlier))
                || (is_source_of(entry.target.as_str(), table.action.as_slice())
                    || mixes_kinds(config, entry))
        }
        _ => false,
    }
}

/// Whether the target or a source is not written on the action's mesh.
fn acts_elsewhere(table: &PartTable, entry: &ActionEntry) -> bool
    ensures { result ≡ acts_elsewhere table.now entry.now }
{
    !writes_on(table, entry.mesh.as_str(), entry.target.as_str())
        || lacks_write(table, entry.mesh.as_str(), entry.sources.as_slice())
}

/// Whether some of the data are not written on the mesh.
fn lacks_write(table: &PartTable, mesh: &str, names: &[Name]) -> bool
    ensures { result ≡ list_any (λ name. not (writes_on table.now mesh.now name)) names.now }
{
    'names: for name in names {
        if !writes_on(table, mesh, name.as_str()) {
            return true;
        }
    }
    false
}

/// Whether the participant writes the data on the mesh.
fn writes_on(table: &PartTable, mesh: &str, data_name: &str) -> bool
    ensures { result ≡ writes_on table.now mesh.now data_name.now }
{
    'entries: for entry in table.write.as_slice() {
        if entry.data_name.as_str() == data_name && entry.mesh.as_str() == mesh {
            return true;
        }
    }
    false
}

/// Whether the data are the target of some of the actions.
fn is_target_of(target: &str, actions: &[ActionEntry]) -> bool
    ensures { result ≡ is_target_of target.now actions.now }
{
    'actions: for other in actions {
        if other.target.as_str() == target {
            return true;
        }
    }
    false
}

/// Whether the data are a source of some of the actions.
fn is_source_of(target: &str, actions: &[ActionEntry]) -> bool
    ensures { result ≡ is_source_of target.now actions.now }
{
    'actions: for other in actions {
        if is_among(target, other.sources.as_slice()) {
            return true;
        }
    }
    false
}

/// Whether a source is of another kind than the target.
fn mixes_kinds(config: &Config, entry: &ActionEntry) -> bool
    ensures { result ≡ mixes_kinds config.now entry.now }
{
    'names: for name in entry.sources.as_slice() {
        if !have_same_kind(config, name.as_str(), entry.target.as_str()) {
            return true;
        }
    }
    false
}

fn have_same_kind(config: &Config, one: &str, other: &str) -> bool
    ensures { result ≡ is_same_kind (kind_called config.now one.now) (kind_called config.now other.now) }
{
    is_same_kind(kind_called(config, one), kind_called(config, other))
}

/// The kind of the data of a name.
fn kind_called(config: &Config, name: &str) -> Option<DataKind>
    ensures { result ≡ kind_called config.now name.now }
{
    match data_called(config, name) {
        Some(table) => Some(table.kind),
        None => None,
    }
}

fn is_same_kind(one: Option<DataKind>, other: Option<DataKind>) -> bool
    ensures { result ≡ is_same_kind one other }
{
    match (one, other) {
        (Some(DataKind::Scalar), Some(DataKind::Scalar)) => true,
        (Some(DataKind::Vector), Some(DataKind::Vector)) => true,
        _ => false,
    }
}
