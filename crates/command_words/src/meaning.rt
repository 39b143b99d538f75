//! What words ask for.

ghost use Rattle.std.specs.Prelude.{◌≡◌, IfOk, map, option_copied, option_map, string_bytes};
ghost use Rattle.std.specs.Option.{option_and_then};
ghost use Rattle.command_words.specs.Asking.{request_of, asked_of, run_of};
ghost use Rattle.command_words.specs.Lines.{parts_of, meant_in, meant_by, solo_line, check_line};

use crate::forms::{Line, is_name, is_written};
use crate::parsed::line_in;
use crate::schedule::schedule_of;
use fixed_num::Memory;
use std::alloc::Global;

/// A command that is served on one thread, with the name of its configuration.
#[derive(Clone, Copy, Debug)]
pub enum Asked<'a> {
    /// Runs the case under a schedule.
    Solo { config: &'a str, schedule: u64 },
    /// Tells whether the case is accepted.
    Check { config: &'a str },
}

/// What the words of a command line without the program's name ask for: `solo` and a name, before or
/// behind it at most one `--schedule`, or `check` and a name. Every other list of words asks for
/// nothing that is served here.
pub fn asked_in<'a>(alloc: Global, words: &'a [String]) -> Result<Option<Asked<'a>>, Memory>
    ensures { IfOk result (λ asked. option_map request_of asked ≡ asked_of (map string_bytes words.now)) }
{
    let line = line_in(alloc, words)?;
    Ok(asked_by(words, line))
}

/// What a line asks for that was read from these words, where they are a way to write it.
fn asked_by<'a>(words: &[String], line: Option<Line<'a>>) -> Option<Asked<'a>>
    ensures { option_map request_of result
        ≡ option_and_then (meant_in (map string_bytes words.now)) (option_map parts_of line.entry) }
{
    match line {
        Some(line) => asked_as(words, line),
        None => None,
    }
}

fn asked_as<'a>(words: &[String], line: Line<'a>) -> Option<Asked<'a>>
    ensures { option_map request_of result ≡ meant_in (map string_bytes words.now) (parts_of line.entry) }
{
    if !is_written(words, line) {
        return None;
    }
    asked_with(line)
}

/// What a line asks for: `solo`, or `check` without an option.
fn asked_with(line: Line<'_>) -> Option<Asked<'_>>
    ensures { option_map request_of result ≡ meant_by (parts_of line.entry) }
{
    if line.command == "solo" {
        return solo_with(line.config, line.schedule);
    }
    if line.command == "check" {
        return check_with(line.config, line.schedule);
    }
    None
}

fn solo_with<'a>(config: &'a str, schedule: Option<&'a str>) -> Option<Asked<'a>>
    ensures { option_map request_of result ≡ solo_line config.entry.now (option_copied schedule.entry) }
{
    match schedule {
        Some(text) => run_with(config, schedule_of(text)),
        None => run_with(config, Some(0)),
    }
}

fn run_with(config: &str, schedule: Option<u64>) -> Option<Asked<'_>>
    ensures { option_map request_of result ≡ run_of config.entry.now schedule }
{
    if !is_name(config) {
        return None;
    }
    match schedule {
        Some(schedule) => Some(Asked::Solo { config, schedule }),
        None => None,
    }
}

fn check_with<'a>(config: &'a str, schedule: Option<&'a str>) -> Option<Asked<'a>>
    ensures { option_map request_of result ≡ check_line config.entry.now (option_copied schedule.entry) }
{
    if schedule.is_some() || !is_name(config) {
        return None;
    }
    Some(Asked::Check { config })
}
