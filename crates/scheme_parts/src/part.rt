//! What a scheme's table gives to a plan.
ghost use Rattle.std.specs.Prelude.{◌≡◌, ◌≤◌, ◌<◌, ◌+◌, ◌^◌, pos, unsigned_abs, unwrap_or, IfOk, IfSome, Some, length, sum_by, slice_get, option_map};
ghost use Rattle.cpl_tables.specs.declared.shapes.Range.TheVariants.{Between};
ghost use Rattle.cpl_config.specs.SoundConfig.{IsIn, IsSoundConfig, IsSoundScheme};
ghost use Rattle.cpl_config.specs.declared.config.SchemeTable.{SchemeTable as SchemeRecord};
ghost use Rattle.config_rules.specs.ConfigRules.{IsAccepted};
ghost use Rattle.scheme_parts.specs.NumbersOf.{exchanges_before};
ghost use Rattle.scheme_parts.specs.ExchangeOf.{exchanges_of};
ghost use Rattle.scheme_parts.specs.SchemeOf.{scheme_of, scheme_part};

use crate::acceleration::accel_of;
use crate::exchanges::exchanges_of;
use crate::measures::measures_of;
use crate::members::members_of;
use crate::numbered::NumberedConfig;
use config_rules::groups::scheme_kind;
use cpl_config::{Config, SchemeTable};
use cpl_plan::{Exchange, Scheme, SchemeId};
use fixed_num::{Items, Memory};
use std::alloc::Global;

/// A scheme of a plan, and its exchanges.
#[derive(Debug, Drop)]
pub struct SchemePart {
    pub scheme: Scheme,
    /// The scheme's exchanges, as they are listed.
    pub exchanges: Items<Exchange>,
}

/// What the table of this number, from 0, gives to the plan of an accepted configuration.
pub fn part_of_plan(alloc: Global, config: &Config, scheme: usize) -> Result<SchemePart, Memory>
    requires sound { IsSoundConfig config.now }
    requires accepted { IsAccepted config.now }
    requires there { scheme < length (config.now).scheme }
    ensures { IfOk result (λ part. option_map (scheme_part config.now scheme) (slice_get (config.now).scheme scheme) ≡ Some part) }
{
    let numbered = NumberedConfig::new(alloc, config)?;
    let tables = config.scheme.as_slice();
    let before = exchanges_in(&tables[..scheme]);
    let part = numbered_part(alloc, &numbered, before, scheme as u32, &tables[scheme])?;
    Ok(part)
}

/// How many exchanges some schemes have.
fn exchanges_in(tables: &[SchemeTable]) -> u32
    requires { sum_by (λ (table : SchemeRecord). length table.exchange) tables.now ≤ 256 }
    ensures { result ≡ sum_by (λ (table : SchemeRecord). length table.exchange) tables.now }
{
    let mut count = 0;
    'tables: for table in tables {
        count += table.exchange.len() as u32;
    }
    count
}

/// What a table gives to a plan: the table's number, and how many exchanges come before its own,
/// are told.
pub fn numbered_part(
    alloc: Global,
    config: &NumberedConfig,
    before: u32,
    scheme: SchemeId,
    table: &SchemeTable,
) -> Result<SchemePart, Memory>
    requires few { before + length (table.now).exchange ≤ 256 }
    requires sound { IsSoundScheme table.now }
    ensures scheme { IfOk result (λ part. part.scheme ≡ scheme_of config.now before table.now) }
    ensures exchanges { IfOk result (λ part. part.exchanges ≡ exchanges_of config.now scheme table.now) }
{
    Ok(SchemePart {
        scheme: scheme_of(alloc, config, before, table)?,
        exchanges: Items::from_vec(exchanges_of(alloc, config, scheme, table)?),
    })
}

fn scheme_of(
    alloc: Global,
    config: &NumberedConfig,
    before: u32,
    table: &SchemeTable,
) -> Result<Scheme, Memory>
    requires few { before + length (table.now).exchange ≤ 256 }
    requires sound { IsSoundScheme table.now }
    ensures { IfOk result (λ scheme. scheme ≡ scheme_of config.now before table.now) }
{
    Ok(Scheme {
        kind: scheme_kind(table.kind),
        members: Items::from_vec(members_of(alloc, config, table)?),
        min: iterations(table.min_iterations),
        max: iterations(table.max_iterations),
        measures: Items::from_vec(measures_of(alloc, before, table)?),
        accel: accel_of(alloc, before, table)?,
    })
}

/// A number of iterations, 1 where it is left out.
fn iterations(told: Option<i64>) -> u32
    requires { IfSome told (IsIn (Between 1 1000)) }
    ensures { result ≡ unsigned_abs (unwrap_or told (pos 1)) }
{
    match told {
        Some(number) => number.unsigned_abs() as u32,
        None => 1,
    }
}
