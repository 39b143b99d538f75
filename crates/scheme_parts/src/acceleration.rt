//! The acceleration of a scheme in numbers.
ghost use Rattle.std.specs.Prelude.{◌≡◌, ◌≤◌, ◌+◌, IfOk, IfSome, length};
ghost use Rattle.cpl_config.specs.SoundConfig.{IsSoundAcceleration};
ghost use Rattle.scheme_parts.specs.AccelOf.{accelerated, accel_by, accel_of};

use config_rules::relaxed::is_accelerated;
use cpl_config::{AccelEntry, AccelWord, SchemeTable};
use cpl_plan::{Accel, ExchangeId};
use fixed_num::{Factor, Items, Memory, factor_of};
use std::alloc::Global;

/// The acceleration of a scheme whose exchanges come after so many others.
pub(crate) fn accel_of(alloc: Global, before: u32, table: &SchemeTable) -> Result<Accel, Memory>
    requires few { before + length (table.now).exchange ≤ 256 }
    requires sound { IfSome (table.now).acceleration IsSoundAcceleration }
    ensures { IfOk result (λ accel. accel ≡ accel_of before table.now (table.now).acceleration) }
{
    match &table.acceleration {
        Some(entry) => accel_by(alloc, before, table, entry),
        None => Ok(Accel::None),
    }
}

fn accel_by(
    alloc: Global,
    before: u32,
    table: &SchemeTable,
    entry: &AccelEntry,
) -> Result<Accel, Memory>
    requires few { before + length (table.now).exchange ≤ 256 }
    requires sound { IsSoundAcceleration entry.now }
    ensures { IfOk result (λ accel. accel ≡ accel_by (entry.now).kind before table.now entry.now) }
{
    let over = Items::from_vec(accelerated(alloc, before, table, entry)?);
    let factor = factor_in(entry);
    match entry.kind {
        AccelWord::Constant => Ok(Accel::Constant { factor, over }),
        AccelWord::Aitken => Ok(Accel::Aitken {
            first: factor,
            over,
        }),
    }
}

/// The factor of an acceleration, which is within the range of a factor.
fn factor_in(entry: &AccelEntry) -> Factor
    requires { IsSoundAcceleration entry.now }
    ensures { result ≡ (entry.now).factor }
{
    match factor_of(i128::from(entry.factor)) {
        Some(factor) => factor,
        None => unreachable!(),
    }
}

/// The numbers of the scheme's exchanges that are accelerated, rising.
fn accelerated(
    alloc: Global,
    before: u32,
    table: &SchemeTable,
    entry: &AccelEntry,
) -> Result<Vec<ExchangeId>, Memory>
    requires { before + length (table.now).exchange ≤ 256 }
    ensures { IfOk result (λ over. over.items ≡ accelerated before table.now entry.now) }
{
    let mut over = Vec::new(alloc);
    let mut number = before;
    'exchanges: for exchange in table.exchange.as_slice() {
        if is_accelerated(table, entry, exchange) {
            over.push(number)?;
        }
        number += 1;
    }
    Ok(over)
}
