//! Whether a table breaks a rule, after the tables before it.
ghost use Rattle.std.specs.Prelude.{◌≡◌, ◌++◌, ◌∷◌, [], map, count_by, IfOk, OnOk};
ghost use Rattle.cpl_rules.specs.Seen.{seen_of};
ghost use Rattle.cpl_rules.specs.BrokenRules.{breaks, whole_file_limit, are_counted_together, is_over_limit};
ghost use Rattle.cpl_rules.specs.KnownNames.{AreNamesFor};

use crate::keys_judged::{has_unknown_key, some_key_breaks};
use crate::names::Names;
use crate::rules::Rule;
use crate::spots::TableSpot;
use cpl_tables::TableKind;
use fixed_num::Memory;
use std::alloc::Global;

/// Whether a table breaks a rule, after the tables before it, whose names are given where the rule
/// looks at names.
pub fn breaks(
    alloc: Global,
    rule: Rule,
    before: &[TableSpot],
    names: &mut Names,
    spot: TableSpot,
) -> Result<bool, Memory>
    requires { AreNamesFor rule (map seen_of before.now) names.old }
    ensures broken { IfOk result (λ broken. broken ≡ breaks rule (map seen_of before.now) (seen_of spot.entry)) }
    ensures names { OnOk result (AreNamesFor rule (map seen_of before.now ++ seen_of spot.entry ∷ []) names.new) }
{
    match rule {
        Rule::UnknownKey => Ok(has_unknown_key(spot)),
        Rule::MissingKey => some_key_breaks(alloc, Rule::MissingKey, spot),
        Rule::WrongType => some_key_breaks(alloc, Rule::WrongType, spot),
        Rule::BadSpelling => some_key_breaks(alloc, Rule::BadSpelling, spot),
        Rule::BadLength => {
            let too_long = some_key_breaks(alloc, Rule::BadLength, spot)?;
            Ok(too_long || is_over_limit(before, spot))
        }
        Rule::Repeated => {
            let repeats = some_key_breaks(alloc, Rule::Repeated, spot)?;
            let second = names.is_second(alloc, spot)?;
            Ok(repeats || second)
        }
    }
}

/// Whether as many tables of the kind stand before this one as a whole file may have.
fn is_over_limit(before: &[TableSpot], spot: TableSpot) -> bool
    ensures { result ≡ is_over_limit (map seen_of before.now) (seen_of spot.entry) }
{
    match whole_file_limit(spot.kind) {
        Some(most) => most <= count_with(spot.kind, before),
        None => false,
    }
}

/// How many tables of a kind a whole file may have, for kinds that are counted over it.
fn whole_file_limit(kind: TableKind) -> Option<usize>
    ensures { result ≡ whole_file_limit kind }
{
    match kind {
        TableKind::Exchange => Some(256),
        TableKind::Watch => Some(64),
        _ => None,
    }
}

fn are_counted_together(one: TableKind, other: TableKind) -> bool
    ensures { result ≡ are_counted_together one other }
{
    match (one, other) {
        (TableKind::Exchange, TableKind::Exchange) => true,
        (TableKind::Watch, TableKind::Watch) => true,
        _ => false,
    }
}

/// How many of the tables are counted together with this kind.
fn count_with(kind: TableKind, spots: &[TableSpot]) -> usize
    ensures { result ≡ count_by (λ other. are_counted_together kind other.kind) (map seen_of spots.now) }
{
    let mut count = 0;
    'spots: for spot in spots {
        if are_counted_together(kind, spot.kind) {
            count += 1;
        }
    }
    count
}
