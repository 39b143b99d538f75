//! Reading a configuration, whole.
ghost use Rattle.std.specs.Prelude.{◌≡◌, Some, IfOk};
ghost use Rattle.toml.specs.Parse.{parse_document};
ghost use Rattle.toml.specs.View.{table_view};
ghost use Rattle.cpl_rules.specs.declared.rules.Refusal.{Refusal};
ghost use Rattle.cpl_config.specs.Acceptance.{acceptance, acceptance_of_tree, at_config};
ghost use Rattle.cpl_config.specs.FirstFault.{IsFirstFault};
ghost use Rattle.cpl_config.specs.NoFault.{HasNoFault};
ghost use Rattle.cpl_config.specs.SoundConfig.{IsSoundConfig};
ghost use Rattle.cpl_config.specs.Answers.{Answers};

use crate::config::Config;
use crate::error::ConfigErr;
use crate::tables_of::FromTable;
use cpl_rules::{Refusal, TableSpot, first_refusal};
use cpl_tables::Place;
use std::alloc::Global;
use toml::Table;

/// The most bytes that a file may have.
pub const MOST_BYTES: usize = 1_048_576;

/// The number of the rule that a file has no more bytes.
pub const SIZE_RULE: u8 = 1;

/// The number of the rule that a file is a text of TOML.
pub const TEXT_RULE: u8 = 2;

/// Reads a configuration from the bytes of its file.
///
/// The answer is the configuration, or the first broken rule of 1 to 8 at its first place: 1 is
/// for more than 1,048,576 bytes, 2 for what TOML does not read, and 3 to 8 are the rules on
/// tables. Numbers are in units (millionths), times in ticks. `Memory` says nothing of the file.
pub fn read_config(alloc: Global, bytes: &[u8]) -> Result<Config, ConfigErr>
    ensures answer { Answers (acceptance bytes.now) result }
    ensures accepted { IfOk result IsSoundConfig }
    ensures unbroken { IfOk result (λ _. HasNoFault bytes.now) }
    ensures first { (refusal : Refusal) → result ≡ Err (ConfigErr.Refused refusal) → IsFirstFault bytes.now refusal }
{
    file_config(alloc, bytes)
}

/// The configuration in a file.
fn file_config(alloc: Global, bytes: &[u8]) -> Result<Config, ConfigErr>
    ensures { Answers (acceptance bytes.now) result }
{
    if bytes.len() > MOST_BYTES {
        return Err(refused_at_config(SIZE_RULE));
    }
    match std::str::from_utf8(bytes) {
        Ok(text) => text_config(alloc, text),
        Err(_) => Err(refused_at_config(TEXT_RULE)),
    }
}

/// The configuration in a text.
fn text_config(alloc: Global, text: &str) -> Result<Config, ConfigErr>
    ensures { Answers (acceptance_of_tree (parse_document text.now)) result }
{
    match toml::table_from_str(alloc, text) {
        Ok(table) => table_config(alloc, &table),
        Err(error) if error.is_memory() => Err(ConfigErr::Memory),
        Err(_) => Err(refused_at_config(TEXT_RULE)),
    }
}

/// The configuration that a table is.
fn table_config(alloc: Global, table: &Table) -> Result<Config, ConfigErr>
    ensures { Answers (acceptance_of_tree (Some (table_view table.now))) result }
{
    match first_refusal(alloc, TableSpot::of_config(table))? {
        Some(refusal) => Err(ConfigErr::Refused(refusal)),
        None => Ok(Config::from_table(alloc, table)?),
    }
}

/// What is told where the file as a whole breaks a rule.
fn refused_at_config(rule: u8) -> ConfigErr
    ensures { result ≡ ConfigErr.Refused (at_config rule) }
{
    ConfigErr::Refused(Refusal {
        rule,
        place: Place::Config,
    })
}
