//! The words, as `clap` reads them.

ghost use Rattle.std.specs.Prelude.{◌≡◌, ◌≢◌, IfOk, false, map, option_map, string_bytes};
ghost use Rattle.clap.specs.Words.{app_of, rule_of, subcommand_rows_of, found_of, rows_of};
ghost use Rattle.command_words.specs.Lines.{parts_of};
ghost use Rattle.command_words.specs.Parsed.{ReadsFrom, parts_met, parts_in, config_rule, words_app};

use crate::forms::Line;
use clap::error::ErrorKind;
use clap::{Arg, ArgMatches, Command};
use fixed_num::Memory;
use std::alloc::{AllocError, Global};

/// The line that the words write, where they write one that asks for something; what comes of other
/// words is left open.
pub fn line_in<'a>(alloc: Global, words: &'a [String]) -> Result<Option<Line<'a>>, Memory>
    ensures { IfOk result (λ line. ReadsFrom (map string_bytes words.now) (option_map parts_of line)) }
{
    let command = words_command(alloc)?;
    match command.try_get_matches_from(words) {
        Ok(matches) => Ok(line_of(&matches)),
        Err(error) => unread(error.kind()),
    }
}

/// The answer where the words are not taken: there is no line, unless memory was wanting.
fn unread<'a>(kind: ErrorKind) -> Result<Option<Line<'a>>, Memory>
    ensures { IfOk result (λ line. kind ≢ ErrorKind.OutOfMemory) }
{
    match kind {
        ErrorKind::OutOfMemory => Err(Memory),
        _ => Ok(None),
    }
}

/// The line that the matches hold.
fn line_of<'a>(matches: &ArgMatches<'a>) -> Option<Line<'a>>
    ensures { option_map parts_of result ≡ parts_met (subcommand_rows_of matches.now) }
{
    match matches.subcommand() {
        Some((command, inner)) => line_with(command, inner),
        None => None,
    }
}

fn line_with<'a>(command: &'a str, matches: &ArgMatches<'a>) -> Option<Line<'a>>
    ensures { option_map parts_of result ≡ parts_in command.entry.now (rows_of (found_of matches.now)) }
{
    match matches.get_str("config") {
        Some(config) => Some(Line {
            command,
            config,
            schedule: matches.get_str("schedule"),
        }),
        None => None,
    }
}

/// The commands that are read. They have no help of their own, since words that ask for help are
/// refused.
fn words_command<'a>(alloc: Global) -> Result<Command<'a>, AllocError>
    ensures { IfOk result (λ command. app_of command ≡ words_app) }
{
    let schedule = Arg::new(alloc, "schedule").long("schedule");
    let solo = Command::new(alloc, "solo")
        .arg(config_argument(alloc))?
        .arg(schedule)?;
    let check = Command::new(alloc, "check").arg(config_argument(alloc))?;
    let command = Command::new(alloc, "coupling")
        .no_binary_name(true)
        .disable_help_flag(true)
        .disable_help_subcommand(true);
    let command = command.subcommand(check)?.subcommand(solo)?;
    Ok(command)
}

/// The name behind a command.
fn config_argument<'a>(alloc: Global) -> Arg<'a>
    ensures rule { rule_of result ≡ config_rule }
    ensures local { result.global ≡ false }
{
    Arg::new(alloc, "config").required(true)
}
