//! The schemes and the exchanges of a plan.
ghost use Rattle.std.specs.Prelude.{◌≡◌, ◌++◌, ◌∷◌, [], IfOk, OnOk};
ghost use Rattle.plan_build.specs.PlanOf.{schemes_of, exchanges_of_all};

use cpl_plan::{Exchange, Scheme};
use fixed_num::Memory;
use scheme_parts::{NumberedConfig, SchemePart, numbered_part};
use std::alloc::Global;

/// The schemes of a plan, and the exchanges of them all.
#[derive(Drop)]
pub(crate) struct AllSchemes {
    pub schemes: Vec<Scheme>,
    pub exchanges: Vec<Exchange>,
}

pub(crate) fn all_schemes(alloc: Global, config: &NumberedConfig) -> Result<AllSchemes, Memory>
    ensures schemes { IfOk result (λ all. all.schemes.items ≡ schemes_of config.now) }
    ensures exchanges { IfOk result (λ all. all.exchanges.items ≡ exchanges_of_all config.now) }
{
    let mut schemes = Vec::new(alloc);
    let mut exchanges = Vec::new(alloc);
    let tables = config.config().scheme.as_slice();
    'tables: for (number, table) in tables.iter().enumerate() {
        let before = exchanges.as_slice().len() as u32;
        let part = numbered_part(alloc, config, before, number as u32, table)?;
        push_part(part, &mut schemes, &mut exchanges)?;
    }
    Ok(AllSchemes { schemes, exchanges })
}

/// Adds a scheme, and its exchanges after those of the others.
fn push_part(
    part: SchemePart,
    schemes: &mut Vec<Scheme>,
    exchanges: &mut Vec<Exchange>,
) -> Result<(), Memory>
    ensures scheme { OnOk result (schemes.new.items ≡ schemes.old.items ++ part.scheme ∷ []) }
    ensures exchanges { OnOk result (exchanges.new.items ≡ exchanges.old.items ++ part.exchanges) }
{
    let SchemePart {
        scheme,
        exchanges: own,
    } = part;
    schemes.push(scheme)?;
    exchanges.extend_from_slice(own.as_slice())?;
    Ok(())
}
