//! The rule that a simulation has one end.
ghost use Rattle.std.specs.Prelude.{◌≡◌};
ghost use Rattle.mesh_rules.specs.Spots.{held_of};
ghost use Rattle.mesh_rules.specs.MeshRules.{has_no_end, lacks_end, is_too_far};

use crate::entries::At;
use cpl_config::{Config, WindowWord};

/// The most windows that a simulation has.
const MOST_WINDOWS: u128 = 1_000_000;

/// Whether the end of the simulation is not given as its windows ask, told of the configuration's own
/// table. Windows of one length need either a time or a number of windows, with no more than a
/// million windows; those of the first participant's steps need a number of windows.
pub fn has_no_end(config: &Config, held: At) -> bool
    ensures { result ≡ has_no_end config.now (held_of held.entry) }
{
    match held {
        At::Whole(_) => lacks_end(config),
        _ => false,
    }
}

fn lacks_end(config: &Config) -> bool
    ensures { result ≡ lacks_end config.now (config.now).window_method }
{
    match config.window_method {
        WindowWord::Fixed => {
            config.max_time.is_some() == config.max_windows.is_some() || is_too_far(config)
        }
        WindowWord::FirstParticipant => config.max_windows.is_none(),
    }
}

/// Whether the time of the end is past the millionth window.
fn is_too_far(config: &Config) -> bool
    ensures { result ≡ is_too_far config.now }
{
    match config.max_time {
        Some(time) => {
            MOST_WINDOWS * u128::from(config.window.unsigned_abs())
                < u128::from(time.unsigned_abs())
        }
        None => false,
    }
}
