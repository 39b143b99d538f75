//! How windows are made, and how many there are.
ghost use Rattle.std.specs.Prelude.{◌≡◌, ◌≤◌, ◌^◌, pos, unsigned_abs, unwrap_or};
ghost use Rattle.cpl_config.specs.SoundConfig.{IsSoundConfig};
ghost use Rattle.config_laws.specs.FitNumbers.{HasTime, end_ticks};
ghost use Rattle.plan_build.specs.WindowsOf.{window_method, window_size, most_windows};

use cpl_config::{Config, WindowWord};
use cpl_plan::{WindowMethod, windows_to_reach};

pub(crate) fn window_method(word: WindowWord) -> WindowMethod
    ensures { result ≡ window_method word }
{
    match word {
        WindowWord::Fixed => WindowMethod::Fixed,
        WindowWord::FirstParticipant => WindowMethod::FirstParticipant,
    }
}

/// The size of a window, in ticks.
pub(crate) fn window_size(config: &Config) -> u64
    ensures { result ≡ window_size config.now }
{
    config.window.unsigned_abs()
}

/// The end in ticks: as it is told, or after so many windows.
pub(crate) fn end_ticks(config: &Config) -> u64
    requires { HasTime config.now }
    ensures { result ≡ end_ticks config.now }
{
    match config.max_time {
        Some(time) => time.unsigned_abs(),
        None => match config.max_windows {
            Some(windows) => windows.unsigned_abs() * config.window.unsigned_abs(),
            None => 0,
        },
    }
}

/// How many windows there are: of one size as few as reach the end, of the first participant's steps
/// as many as are told.
pub(crate) fn most_windows(config: &Config) -> u32
    requires { HasTime config.now }
    ensures { result ≡ most_windows config.now }
{
    match config.window_method {
        WindowWord::Fixed => windows_to_reach(window_size(config), end_ticks(config)),
        WindowWord::FirstParticipant => told_windows(config.max_windows),
    }
}

/// A number of windows that is told.
fn told_windows(told: Option<i64>) -> u32
    requires { unsigned_abs (unwrap_or told (pos 0)) ≤ 10 ^ 6 }
    ensures { result ≡ unsigned_abs (unwrap_or told (pos 0)) }
{
    match told {
        Some(windows) => windows.unsigned_abs() as u32,
        None => 0,
    }
}
