//! The first broken rule of a file.
ghost use Rattle.std.specs.Prelude.{◌≡◌, ◌++◌, ◌∷◌, [], map, IfOk, OnOk, IfSome, IfNone};
ghost use Rattle.cpl_rules.specs.Seen.{seen_of};
ghost use Rattle.cpl_rules.specs.Refused.{refusal_of, IsRefused, IsInOrder};

use crate::breaks::breaks;
use crate::names::Names;
use crate::over_spots::{SpotRules, first_broken};
use crate::rules::{Refusal, Rule};
use crate::spots::{TableSpot, all_tables};
use fixed_num::Memory;
use std::alloc::Global;

static RULES: [Rule; 6] = [
    Rule::UnknownKey,
    Rule::MissingKey,
    Rule::WrongType,
    Rule::BadSpelling,
    Rule::BadLength,
    Rule::Repeated,
];

/// The first broken rule of a file with this top table, and its first place, or none where every
/// table is in order.
///
/// A rule is tried over all tables before the next rule. Takes near linear time, and gives up only
/// for want of memory.
pub fn first_refusal(alloc: Global, top: TableSpot) -> Result<Option<Refusal>, Memory>
    ensures answer { IfOk result (λ refusal. refusal ≡ refusal_of (seen_of top.entry)) }
    ensures refused { IfOk result (λ refusal. IfSome refusal (IsRefused (seen_of top.entry))) }
    ensures in_order { IfOk result (λ refusal. IfNone refusal (IsInOrder (seen_of top.entry))) }
{
    let refusal = refusal_in(alloc, top)?;
    Ok(refusal)
}

/// The same, by its definition alone.
fn refusal_in(alloc: Global, top: TableSpot) -> Result<Option<Refusal>, Memory>
    ensures { IfOk result (λ refusal. refusal ≡ refusal_of (seen_of top.entry)) }
{
    let spots = all_tables(alloc, top)?;
    let refusal = first_broken(alloc, &TableRules, &RULES, &spots)?;
    Ok(refusal)
}

/// The rules on tables, tried at the tables of a file.
struct TableRules;

impl<'a> SpotRules<Rule, TableSpot<'a>> for TableRules {
    ghost use Rattle.cpl_rules.specs.Seen.{Seen};
    ghost use Rattle.cpl_rules.specs.BrokenRules.{breaks};
    ghost use Rattle.cpl_rules.specs.KnownNames.{AreNamesFor};
    ghost use Rattle.cpl_rules.specs.Refused.{refused_for};

    type Known = Names;

    ghost Entry = { Seen };

    ghost entry = { seen_of };

    ghost broken_at = { λ _. breaks };

    ghost told = { λ rule seen. refused_for (rule, seen) };

    ghost knows = { AreNamesFor };

    ghost is_fit = { λ _ _. Unit {0} };

    fn nothing_known(&self, alloc: Global, rule: Rule) -> Names
        ensures { AreNamesFor rule [] result }
    {
        Names::new(alloc)
    }

    fn is_broken(
        &self,
        alloc: Global,
        rule: Rule,
        before: &[TableSpot<'a>],
        known: &mut Names,
        spot: TableSpot<'a>,
    ) -> Result<bool, Memory>
        requires known { AreNamesFor rule (map seen_of before.now) known.old }
        ensures broken { IfOk result (λ broken. broken ≡ breaks rule (map seen_of before.now) (seen_of spot.entry)) }
        ensures known { OnOk result (AreNamesFor rule (map seen_of before.now ++ seen_of spot.entry ∷ []) known.new) }
    {
        breaks(alloc, rule, before, known, spot)
    }

    fn refusal_at(&self, rule: Rule, spot: TableSpot<'a>) -> Refusal
        ensures { result ≡ refused_for (rule, seen_of spot.entry) }
    {
        Refusal {
            rule: rule.number(),
            place: spot.place,
        }
    }
}
