//! The rules on schemes: who is in them, and how often they iterate.
ghost use Rattle.std.specs.Prelude.{◌≡◌, [], false, nat_lt, unwrap_or, length};
ghost use Rattle.std.specs.Option.{option_map_or};
ghost use Rattle.std.specs.List.{list_any};
ghost use Rattle.mesh_rules.specs.Named.{is_among};
ghost use Rattle.mesh_rules.specs.Spots.{held_of};
ghost use Rattle.config_rules.specs.Members.{members, is_member};
ghost use Rattle.config_rules.specs.SchemeRules.{same_name, has_wrong_two, has_wrong_many, has_wrong_members, share_two, meets_twice, is_implicit_with, shares_implicit, is_alone, has_wrong_measures, is_over_greatest, has_wrong_iterations};

use crate::groups::{count_shared, is_implicit, is_member, is_multi};
use cpl_config::{Config, SchemeTable};
use fixed_num::{Items, Name};
use mesh_rules::At;
use mesh_rules::named::is_among;

/// Whether a scheme's participants are not told as its kind asks: a first and a second that are
/// two, or two members or more of which one is the control, and no other of these keys.
pub fn has_wrong_members(held: At) -> bool
    ensures { result ≡ has_wrong_members (held_of held.entry) }
{
    match held {
        At::Scheme(_, table) => {
            if is_multi(table) {
                has_wrong_many(table)
            } else {
                has_wrong_two(table)
            }
        }
        _ => false,
    }
}

fn has_wrong_two(table: &SchemeTable) -> bool
    ensures { result ≡ has_wrong_two table.now }
{
    table.first.is_none()
        || table.second.is_none()
        || (table.control.is_some() || table.members.is_some())
        || same_name(&table.first, &table.second)
}

/// Whether both names are there, and are one.
fn same_name(one: &Option<Name>, other: &Option<Name>) -> bool
    ensures { result ≡ same_name one.now other.now }
{
    match (one, other) {
        (Some(name), Some(same)) => name.as_str() == same.as_str(),
        _ => false,
    }
}

fn has_wrong_many(table: &SchemeTable) -> bool
    ensures { result ≡ has_wrong_many table.now }
{
    table.control.is_none()
        || table.members.is_none()
        || (table.first.is_some() || table.second.is_some())
        || (are_few(&table.members) || !controls(&table.control, &table.members))
}

/// Whether fewer than two names are listed.
fn are_few(names: &Option<Items<Name>>) -> bool
    ensures { result ≡ nat_lt (length (unwrap_or names.now [])) 2 }
{
    match names {
        Some(listed) => listed.len() < 2,
        None => true,
    }
}

/// Whether the control is there, and is listed.
fn controls(control: &Option<Name>, names: &Option<Items<Name>>) -> bool
    ensures { result ≡ option_map_or (λ name. is_among name (unwrap_or names.now [])) control.now false }
{
    match (control, names) {
        (Some(name), Some(listed)) => is_among(name.as_str(), listed.as_slice()),
        _ => false,
    }
}

/// Whether two participants of a scheme are together in one before it.
pub fn meets_twice(held: At) -> bool
    ensures { result ≡ meets_twice (held_of held.entry) }
{
    match held {
        At::Scheme(earlier, table) => some_shares_two(table, earlier),
        _ => false,
    }
}

fn some_shares_two(table: &SchemeTable, earlier: &[SchemeTable]) -> bool
    ensures { result ≡ list_any (share_two table.now) earlier.now }
{
    'tables: for other in earlier {
        if share_two(table, other) {
            return true;
        }
    }
    false
}

/// Whether two members of a scheme are members of another.
fn share_two(table: &SchemeTable, other: &SchemeTable) -> bool
    ensures { result ≡ share_two table.now other.now }
{
    2 <= count_shared(table, other)
}

/// Whether a participant of an implicit scheme is in an implicit one before it.
pub fn shares_implicit(held: At) -> bool
    ensures { result ≡ shares_implicit (held_of held.entry) }
{
    match held {
        At::Scheme(earlier, table) => is_implicit(table) && some_is_implicit_with(table, earlier),
        _ => false,
    }
}

fn some_is_implicit_with(table: &SchemeTable, earlier: &[SchemeTable]) -> bool
    ensures { result ≡ list_any (is_implicit_with table.now) earlier.now }
{
    'tables: for other in earlier {
        if is_implicit_with(table, other) {
            return true;
        }
    }
    false
}

/// Whether a scheme is implicit, and has a member of another one.
fn is_implicit_with(table: &SchemeTable, other: &SchemeTable) -> bool
    ensures { result ≡ is_implicit_with table.now other.now }
{
    is_implicit(other) && shares_member(table, other)
}

#[tactic(auto, using(crate::proofs::Counts::some_counted))]
fn shares_member(table: &SchemeTable, other: &SchemeTable) -> bool
    ensures { result ≡ list_any (λ name. is_member name other.now) (members table.now) }
{
    0 < count_shared(table, other)
}

/// Whether a participant is in no scheme.
pub fn is_alone(config: &Config, held: At) -> bool
    ensures { result ≡ is_alone config.now (held_of held.entry) }
{
    match held {
        At::Participant(table) => !is_in_some(table.name.as_str(), config.scheme.as_slice()),
        _ => false,
    }
}

fn is_in_some(name: &str, tables: &[SchemeTable]) -> bool
    ensures { result ≡ list_any (is_member name.now) tables.now }
{
    'tables: for table in tables {
        if is_member(name, table) {
            return true;
        }
    }
    false
}

/// Whether an explicit scheme has a measure, or an implicit one has none.
pub fn has_wrong_measures(held: At) -> bool
    ensures { result ≡ has_wrong_measures (held_of held.entry) }
{
    match held {
        At::Scheme(_, table) => is_implicit(table) == (table.measure.len() == 0),
        _ => false,
    }
}

/// Whether an explicit scheme has a number of iterations, or an implicit one has no greatest, or
/// one below its least, which is 1 where it is left out.
pub fn has_wrong_iterations(held: At) -> bool
    ensures { result ≡ has_wrong_iterations (held_of held.entry) }
{
    match held {
        At::Scheme(_, table) => {
            if is_implicit(table) {
                table.max_iterations.is_none()
                    || is_over_greatest(table.min_iterations, table.max_iterations)
            } else {
                table.max_iterations.is_some() || table.min_iterations.is_some()
            }
        }
        _ => false,
    }
}

/// Whether the greatest number of iterations is there, and below the least.
fn is_over_greatest(least: Option<i64>, greatest: Option<i64>) -> bool
    ensures { result ≡ is_over_greatest least greatest }
{
    match greatest {
        Some(most) => most.unsigned_abs() < least.unwrap_or(1).unsigned_abs(),
        None => false,
    }
}
