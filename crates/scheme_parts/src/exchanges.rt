//! The exchanges of a scheme in numbers.
ghost use Rattle.std.specs.Prelude.{◌≡◌, IfOk};
ghost use Rattle.scheme_parts.specs.ExchangeOf.{exchange_of, exchanges_of};

use crate::map_places::{read_map, write_map};
use crate::numbered::NumberedConfig;
use config_rules::groups::{goes_to_second, scheme_kind};
use cpl_config::{ExchangeEntry, SchemeTable};
use cpl_plan::{Exchange, SchemeId, exchange_kind};
use fixed_num::Memory;
use std::alloc::Global;

/// The exchanges of a scheme, as they are listed.
pub(crate) fn exchanges_of(
    alloc: Global,
    config: &NumberedConfig,
    scheme: SchemeId,
    table: &SchemeTable,
) -> Result<Vec<Exchange>, Memory>
    ensures { IfOk result (λ exchanges. exchanges.items ≡ exchanges_of config.now scheme table.now) }
{
    let entries = table.exchange.as_slice();
    let mut exchanges = Vec::with_capacity(alloc, entries.len())?;
    'entries: for entry in entries {
        exchanges.push(exchange_of(config, scheme, table, entry))?;
    }
    Ok(exchanges)
}

fn exchange_of(
    config: &NumberedConfig,
    scheme: SchemeId,
    table: &SchemeTable,
    entry: &ExchangeEntry,
) -> Exchange
    ensures { result ≡ exchange_of config.now scheme table.now entry.now }
{
    Exchange {
        data_id: config.data_number(&entry.data_name),
        mesh: config.mesh_number(&entry.mesh),
        from: config.part_number(&entry.from),
        to: config.part_number(&entry.to),
        scheme,
        kind: exchange_kind(scheme_kind(table.kind), goes_to_second(table, entry)),
        initialize: entry.initialize,
        substeps: entry.substeps,
        write_map: write_map(config, entry),
        read_map: read_map(config, entry),
    }
}
