//! The keys of one table.
ghost use Rattle.std.specs.Prelude.{◌≡◌, IfOk};
ghost use Rattle.toml.specs.View.{view};
ghost use Rattle.cpl_tables.specs.KeyRule.{rule_of_key};
ghost use Rattle.cpl_rules.specs.Seen.{seen_of};
ghost use Rattle.cpl_rules.specs.BrokenRules.{is_listed, key_breaks, some_key_breaks, value_breaks, has_unknown_key};

use crate::rules::Rule;
use crate::spots::{TableSpot, value_at};
use cpl_tables::{
    Key, Presence, Shape, TableKind, has_length, has_no_repeat, has_type, is_spelled, keys,
};
use fixed_num::Memory;
use std::alloc::Global;
use toml::Value;

/// Whether some key of a table is not listed for it.
pub fn has_unknown_key(spot: TableSpot) -> bool
    ensures { result ≡ has_unknown_key (seen_of spot.entry) }
{
    'members: for (name, _) in spot.table.iter() {
        if !is_listed(spot.kind, name.as_str()) {
            return true;
        }
    }
    false
}

fn is_listed(kind: TableKind, name: &str) -> bool
    ensures { result ≡ is_listed kind name.now }
{
    'keys: for key in keys(kind) {
        if key.name == name {
            return true;
        }
    }
    false
}

/// Whether some listed key of a table breaks a rule by itself.
pub fn some_key_breaks(alloc: Global, rule: Rule, spot: TableSpot) -> Result<bool, Memory>
    ensures { IfOk result (λ broken. broken ≡ some_key_breaks rule (seen_of spot.entry)) }
{
    'keys: for key in keys(spot.kind) {
        if key_breaks(alloc, rule, spot, key)? {
            return Ok(true);
        }
    }
    Ok(false)
}

/// Whether a listed key breaks a rule by itself.
fn key_breaks(alloc: Global, rule: Rule, spot: TableSpot, key: &Key) -> Result<bool, Memory>
    ensures { IfOk result (λ broken. broken ≡ key_breaks rule (seen_of spot.entry) (rule_of_key key.now)) }
{
    match value_at(spot.table, key.name) {
        Some(value) => value_breaks(alloc, rule, key.shape, value),
        None => Ok(rule == Rule::MissingKey && key.presence == Presence::Required),
    }
}

/// Whether the value of a key breaks a rule by itself.
fn value_breaks(alloc: Global, rule: Rule, shape: Shape, value: &Value) -> Result<bool, Memory>
    ensures { IfOk result (λ broken. broken ≡ value_breaks rule shape (view value.now)) }
{
    match rule {
        Rule::UnknownKey => Ok(false),
        Rule::MissingKey => Ok(false),
        Rule::WrongType => Ok(!has_type(shape, value)),
        Rule::BadSpelling => Ok(!is_spelled(shape, value)),
        Rule::BadLength => Ok(!has_length(shape, value)),
        Rule::Repeated => Ok(!has_no_repeat(alloc, shape, value)?),
    }
}
