//! The rule that the names of a configuration stand for something.
ghost use Rattle.std.specs.Prelude.{◌≡◌, not, ◌||◌};
ghost use Rattle.mesh_rules.specs.Spots.{held_of};
ghost use Rattle.mesh_rules.specs.Named.{is_data, is_mesh, is_participant, is_declared};
ghost use Rattle.mesh_rules.specs.MeshRules.{names_nothing, scheme_names_nothing, exchange_names_nothing, action_names_nothing, has_undeclared, is_undeclared, are_undeclared};

use crate::entries::At;
use crate::named::{NameOf, is_data, is_declared, is_mesh, is_participant};
use cpl_config::{ActionEntry, Config, ExchangeEntry, SchemeTable};
use fixed_num::{Items, Name};

/// Whether an entry has a name that is not declared: of data, of a mesh or of a participant, by
/// the key that holds it.
pub fn names_nothing(config: &Config, held: At) -> bool
    ensures { result ≡ names_nothing config.now (held_of held.entry) }
{
    match held {
        At::Mesh(table) => has_undeclared(config, NameOf::Data, table.data_list.as_slice()),
        At::Participant(table) => has_undeclared(config, NameOf::Mesh, table.provides.as_slice()),
        At::Receives(_, _, entry) => {
            lacks_mesh(config, &entry.mesh) || lacks_participant(config, &entry.from)
        }
        At::Write(_, entry) => lacks_data_or_mesh(config, &entry.data_name, &entry.mesh),
        At::Read(_, _, entry) => lacks_data_or_mesh(config, &entry.data_name, &entry.mesh),
        At::Map(_, _, entry) => lacks_mesh(config, &entry.from) || lacks_mesh(config, &entry.to),
        At::Watch(_, entry) => lacks_mesh(config, &entry.mesh),
        At::Action(_, _, entry) => action_names_nothing(config, entry),
        At::Scheme(_, table) => scheme_names_nothing(config, table),
        At::Exchange(_, entry) => exchange_names_nothing(config, entry),
        At::Measure(_, entry) => lacks_data(config, &entry.data_name),
        At::Acceleration(_, entry) => {
            has_undeclared(config, NameOf::Data, entry.data_list.as_slice())
        }
        At::Whole(_) | At::Data(_) => false,
    }
}

fn scheme_names_nothing(config: &Config, table: &SchemeTable) -> bool
    ensures { result ≡ scheme_names_nothing config.now table.now }
{
    is_undeclared(config, &table.first)
        || is_undeclared(config, &table.second)
        || is_undeclared(config, &table.control)
        || are_undeclared(config, &table.members)
}

fn exchange_names_nothing(config: &Config, entry: &ExchangeEntry) -> bool
    ensures { result ≡ exchange_names_nothing config.now entry.now }
{
    lacks_data_or_mesh(config, &entry.data_name, &entry.mesh)
        || (lacks_participant(config, &entry.from) || lacks_participant(config, &entry.to))
}

fn action_names_nothing(config: &Config, entry: &ActionEntry) -> bool
    ensures { result ≡ action_names_nothing config.now entry.now }
{
    lacks_mesh(config, &entry.mesh)
        || (has_undeclared(config, NameOf::Data, entry.sources.as_slice())
            || lacks_data(config, &entry.target))
}

fn lacks_data_or_mesh(config: &Config, data_name: &Name, mesh: &Name) -> bool
    ensures { result ≡ (not (is_data config.now data_name.now) || not (is_mesh config.now mesh.now)) }
{
    lacks_data(config, data_name) || lacks_mesh(config, mesh)
}

fn lacks_data(config: &Config, name: &Name) -> bool
    ensures { result ≡ not (is_data config.now name.now) }
{
    !is_data(config, name.as_str())
}

fn lacks_mesh(config: &Config, name: &Name) -> bool
    ensures { result ≡ not (is_mesh config.now name.now) }
{
    !is_mesh(config, name.as_str())
}

fn lacks_participant(config: &Config, name: &Name) -> bool
    ensures { result ≡ not (is_participant config.now name.now) }
{
    !is_participant(config, name.as_str())
}

/// Whether some name of a list is not declared.
fn has_undeclared(config: &Config, of: NameOf, names: &[Name]) -> bool
    ensures { result ≡ has_undeclared (is_declared config.now of) names.now }
{
    'names: for name in names {
        if !is_declared(config, of, name.as_str()) {
            return true;
        }
    }
    false
}

/// Whether a participant's name that is there is not declared.
fn is_undeclared(config: &Config, name: &Option<Name>) -> bool
    ensures { result ≡ is_undeclared (is_participant config.now) name.now }
{
    match name {
        Some(name) => lacks_participant(config, name),
        None => false,
    }
}

/// Whether some participant's name of a list that is there is not declared.
fn are_undeclared(config: &Config, names: &Option<Items<Name>>) -> bool
    ensures { result ≡ are_undeclared (is_participant config.now) names.now }
{
    match names {
        Some(names) => has_undeclared(config, NameOf::Participant, names.as_slice()),
        None => false,
    }
}
