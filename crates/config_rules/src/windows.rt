//! The rule on schemes where the steps of the first participant are the windows.
ghost use Rattle.std.specs.Prelude.{◌≡◌, false};
ghost use Rattle.std.specs.Option.{option_map_or};
ghost use Rattle.std.specs.List.{list_any};
ghost use Rattle.std.specs.Str.{bytes_eq};
ghost use Rattle.mesh_rules.specs.Spots.{held_of};
ghost use Rattle.config_rules.specs.WindowRules.{is_first_participant, is_serial_explicit, goes_forward, goes_nowhere, has_wrong_windows};

use crate::groups::goes_to_second;
use cpl_config::{Config, ExchangeEntry, KindWord, SchemeTable, WindowWord};
use fixed_num::Name;
use mesh_rules::At;

/// Whether the steps of the first participant are the windows, and a scheme is not the first one, is
/// not serial-explicit, or is the only one and has no exchange from its first to its second.
pub fn has_wrong_windows(config: &Config, held: At) -> bool
    ensures { result ≡ has_wrong_windows config.now (held_of held.entry) }
{
    match held {
        At::Scheme(earlier, table) => {
            is_first_participant(config.window_method)
                && (earlier.len() != 0
                    || (!is_serial_explicit(table.kind) || goes_nowhere(config, table)))
        }
        _ => false,
    }
}

fn is_first_participant(method: WindowWord) -> bool
    ensures { result ≡ is_first_participant method }
{
    match method {
        WindowWord::Fixed => false,
        WindowWord::FirstParticipant => true,
    }
}

fn is_serial_explicit(kind: KindWord) -> bool
    ensures { result ≡ is_serial_explicit kind }
{
    match kind {
        KindWord::SerialExplicit => true,
        _ => false,
    }
}

/// Whether the scheme is the only one, and no exchange of it goes from its first to its second.
fn goes_nowhere(config: &Config, table: &SchemeTable) -> bool
    ensures { result ≡ goes_nowhere config.now table.now }
{
    config.scheme.len() == 1 && !some_goes_forward(table)
}

fn some_goes_forward(table: &SchemeTable) -> bool
    ensures { result ≡ list_any (goes_forward table.now) (table.now).exchange }
{
    'entries: for entry in table.exchange.as_slice() {
        if goes_forward(table, entry) {
            return true;
        }
    }
    false
}

/// Whether an exchange of a scheme goes from its first to its second.
fn goes_forward(table: &SchemeTable, entry: &ExchangeEntry) -> bool
    ensures { result ≡ goes_forward table.now entry.now }
{
    is_name_of(&table.first, entry.from.as_str()) && goes_to_second(table, entry)
}

/// Whether a name is there, and is this one.
fn is_name_of(there: &Option<Name>, name: &str) -> bool
    ensures { result ≡ option_map_or (bytes_eq name.now) there.now false }
{
    match there {
        Some(other) => name == other.as_str(),
        None => false,
    }
}
