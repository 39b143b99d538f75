//! Who is in a scheme, and of which kind its exchanges are.
ghost use Rattle.std.specs.Prelude.{◌≡◌, ◌≤◌, ◌<◌, ◌^◌, [], unwrap_or, count_by};
ghost use Rattle.std.specs.List.{list_any};
ghost use Rattle.std.specs.Str.{bytes_eq};
ghost use Rattle.mesh_rules.specs.Named.{is_among};
ghost use Rattle.config_rules.specs.Members.{scheme_kind, is_multi, is_implicit, name_there, members, is_member, first_name, exchanges_data, goes_to_second, is_iterated};

use cpl_config::{ExchangeEntry, KindWord, SchemeTable};
use cpl_plan::{Kind, SchemeKind, exchange_kind};
use fixed_num::{Items, Name};
use mesh_rules::named::is_among;

/// The kind that a word stands for.
pub fn scheme_kind(word: KindWord) -> SchemeKind
    ensures { result ≡ scheme_kind word }
{
    match word {
        KindWord::SerialExplicit => SchemeKind::SerialExplicit,
        KindWord::ParallelExplicit => SchemeKind::ParallelExplicit,
        KindWord::SerialImplicit => SchemeKind::SerialImplicit,
        KindWord::ParallelImplicit => SchemeKind::ParallelImplicit,
        KindWord::Multi => SchemeKind::Multi,
    }
}

/// Whether a scheme is one of several members.
pub fn is_multi(table: &SchemeTable) -> bool
    ensures { result ≡ is_multi table.now }
{
    match table.kind {
        KindWord::Multi => true,
        _ => false,
    }
}

/// Whether a scheme repeats windows.
pub fn is_implicit(table: &SchemeTable) -> bool
    ensures { result ≡ is_implicit table.now }
{
    cpl_plan::is_implicit(scheme_kind(table.kind))
}

/// Whether a participant is in a scheme.
#[tactic(auto, using(crate::proofs::Counts::found_in_turn))]
pub fn is_member(name: &str, table: &SchemeTable) -> bool
    ensures { result ≡ is_member name.now table.now }
{
    is_there(name, &table.first) || is_there(name, &table.second) || is_listed(name, &table.members)
}

fn is_there(name: &str, there: &Option<Name>) -> bool
    ensures { result ≡ is_among name.now (name_there there.now) }
{
    match there {
        Some(other) => name == other.as_str(),
        None => false,
    }
}

fn is_listed(name: &str, names: &Option<Items<Name>>) -> bool
    ensures { result ≡ is_among name.now (unwrap_or names.now []) }
{
    match names {
        Some(listed) => is_among(name, listed.as_slice()),
        None => false,
    }
}

/// How many members of one scheme are in another.
#[tactic(auto, using(crate::proofs::Counts::counted_in_turn))]
pub fn count_shared(table: &SchemeTable, other: &SchemeTable) -> u128
    ensures { result ≡ count_by (λ name. is_member name other.now) (members table.now) }
{
    count_there(&table.first, other)
        + count_there(&table.second, other)
        + count_listed(&table.members, other)
}

fn count_there(there: &Option<Name>, other: &SchemeTable) -> u128
    ensures small { result ≤ 1 }
    ensures counted { result ≡ count_by (λ name. is_member name other.now) (name_there there.now) }
{
    match there {
        Some(name) if is_member(name.as_str(), other) => 1,
        _ => 0,
    }
}

fn count_listed(names: &Option<Items<Name>>, other: &SchemeTable) -> u128
    ensures small { result < 2 ^ 64 }
    ensures counted { result ≡ count_by (λ name. is_member name other.now) (unwrap_or names.now []) }
{
    match names {
        Some(listed) => count_members(listed.as_slice(), other) as u128,
        None => 0,
    }
}

/// How many of some names are in a scheme.
fn count_members(names: &[Name], other: &SchemeTable) -> usize
    ensures { result ≡ count_by (λ name. is_member name other.now) names.now }
{
    let mut count = 0;
    'names: for name in names {
        if is_member(name.as_str(), other) {
            count += 1;
        }
    }
    count
}

/// The name of the first member of a scheme, as they are listed; empty where there is none.
pub fn first_member(table: &SchemeTable) -> &str
    ensures { result.now ≡ first_name (members table.now) }
{
    match &table.first {
        Some(name) => name.as_str(),
        None => match &table.second {
            Some(name) => name.as_str(),
            None => first_listed(&table.members),
        },
    }
}

fn first_listed(names: &Option<Items<Name>>) -> &str
    ensures { result.now ≡ first_name (unwrap_or names.now []) }
{
    match names {
        Some(listed) => first_of(listed.as_slice()),
        None => "",
    }
}

fn first_of(names: &[Name]) -> &str
    ensures { result.now ≡ first_name names.now }
{
    match names.first() {
        Some(name) => name.as_str(),
        None => "",
    }
}

/// Whether some exchange of a scheme carries the data.
pub fn exchanges_data(table: &SchemeTable, data_name: &str) -> bool
    ensures { result ≡ exchanges_data table.now data_name.now }
{
    'entries: for entry in table.exchange.as_slice() {
        if entry.data_name.as_str() == data_name {
            return true;
        }
    }
    false
}

/// Whether an exchange of a scheme goes to its second.
pub fn goes_to_second(table: &SchemeTable, entry: &ExchangeEntry) -> bool
    ensures { result ≡ goes_to_second table.now entry.now }
{
    match &table.second {
        Some(second) => entry.to.as_str() == second.as_str(),
        None => false,
    }
}

/// Whether what an exchange of a scheme carries is relaxed between iterations.
pub fn is_iterated(table: &SchemeTable, entry: &ExchangeEntry) -> bool
    ensures { result ≡ is_iterated table.now entry.now }
{
    match exchange_kind(scheme_kind(table.kind), goes_to_second(table, entry)) {
        Kind::Iterated => true,
        _ => false,
    }
}
